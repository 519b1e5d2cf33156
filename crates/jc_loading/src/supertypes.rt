//! Why a class may not have another one as its superclass or interface (JVMS 5.3.5).
ghost use Rattle.std.specs.Prelude.{◌≡◌, ◌<◌, ◌||◌, not, Some, IfSome};
ghost use Rattle.jc_facts.specs.Flags.{interface_flag, final_flag};
ghost use Rattle.jc_facts.specs.Names.{Bytes};
ghost use Rattle.jc_facts.specs.world.World.{size, find_class};
ghost use Rattle.jc_facts.specs.world.Access.{is_class_accessible};
ghost use Rattle.jc_facts.specs.world.Modules.{module_of};
ghost use Rattle.jc_facts.specs.world.Loading.{excludes, fault_where, sealed_by, is_sealed_against, error_of_superclass, error_of_interface, fault_of_superclass, fault_of_interface};
ghost use Rattle.jc_facts.specs.Options.{and_then, first_some, or_else};
ghost use Rattle.jc_index.specs.Ids.{name_at, id_of};

use jc_base::name::Name;
use jc_facts::class_facts::ClassFacts;
use jc_facts::flags::{is_final, is_interface, is_public};
use jc_facts::link_error::LinkError;
use jc_facts::packages::same_package;
use jc_index::ids::ClassId;
use jc_index::index::Index;

/// Whether the class is accessible from the one of this name: it is public, and visible from there; or
/// it is of its package (JVMS 5.4.4).
pub(crate) fn is_accessible(index: &Index, class: &ClassFacts, from: &Name) -> bool
    ensures { result ≡ is_class_accessible index.now from.now class.now }
{
    let name = class.name.as_bytes();
    (index.side().is_visible_from(from.as_bytes(), name) && is_public(class.flags))
        || same_package(from.as_bytes(), name)
}

// Whether the class has permitted subclasses that leave the other one out: that one isn't public
// and is of another package, or isn't among them (JVMS 4.7.31).
fn leaves_out(index: &Index, id: ClassId, class: &ClassFacts, below: &ClassFacts) -> bool
    requires { Some class.now ≡ find_class index.now (name_at index.now id) }
    ensures { result ≡ sealed_by below.now class.now.name class.now.permits }
{
    match &class.permits {
        None => false,
        Some(_) => {
            let apart = !is_public(below.flags)
                && !same_package(below.name.as_bytes(), class.name.as_bytes());
            apart || !index.permits(id, class, &below.name)
        }
    }
}

// Whether the class has permitted names, and is in another module than the other one.
fn excludes(index: &Index, class: &ClassFacts, below: &ClassFacts) -> bool
    ensures { result ≡ excludes index.now class.now (module_of index.now below.now.name) }
{
    class.permits.is_some()
        && !index
            .side()
            .in_one_module(below.name.as_bytes(), class.name.as_bytes())
}

/// Whether the class is sealed against the other one: against all of its module, or by its names
/// (JVMS 5.3.5). The class is that of the number.
pub(crate) fn is_sealed_to(
    index: &Index,
    id: ClassId,
    class: &ClassFacts,
    below: &ClassFacts,
) -> bool
    requires { Some class.now ≡ find_class index.now (name_at index.now id) }
    ensures { result ≡ is_sealed_against index.now class.now below.now }
{
    excludes(index, class, below) || leaves_out(index, id, class, below)
}

// The error where the class isn't accessible, or is none of the kind that is asked.
#[tactic(auto, unfolding(jc_facts::specs::Options::or_else))]
fn supertype_error(accessible: bool, wrong_kind: bool) -> Option<LinkError>
    ensures { result ≡ or_else (fault_where (not accessible) LinkError.IllegalAccessError) (fault_where wrong_kind LinkError.IncompatibleClassChangeError) }
{
    if !accessible {
        Some(LinkError::IllegalAccessError)
    } else if wrong_kind {
        Some(LinkError::IncompatibleClassChangeError)
    } else {
        None
    }
}

// Whether the class can't be the superclass of the other one, be it accessible or not.
fn is_no_superclass(index: &Index, id: ClassId, class: &ClassFacts, below: &ClassFacts) -> bool
    requires { Some class.now ≡ find_class index.now (name_at index.now id) }
    ensures { result ≡ (interface_flag class.now.flags || final_flag class.now.flags || is_sealed_against index.now class.now below.now) }
{
    is_interface(class.flags) || is_final(class.flags) || is_sealed_to(index, id, class, below)
}

// Whether the class can't be an interface of the other one, be it accessible or not.
fn is_no_interface(index: &Index, id: ClassId, class: &ClassFacts, below: &ClassFacts) -> bool
    requires { Some class.now ≡ find_class index.now (name_at index.now id) }
    ensures { result ≡ (not (interface_flag class.now.flags) || is_sealed_against index.now class.now below.now) }
{
    !is_interface(class.flags) || is_sealed_to(index, id, class, below)
}

/// Why the class may not have `above` as its superclass: `IllegalAccessError` where it isn't
/// accessible, then `IncompatibleClassChangeError` where it is an interface, final, or sealed to the
/// class. `id` is its number.
pub(crate) fn superclass_error(
    index: &Index,
    class: &ClassFacts,
    id: ClassId,
    above: &ClassFacts,
) -> Option<LinkError>
    requires { Some above.now ≡ find_class index.now (name_at index.now id) }
    ensures { result ≡ error_of_superclass index.now class.now above.now }
{
    supertype_error(
        is_accessible(index, above, &class.name),
        is_no_superclass(index, id, above, class),
    )
}

/// Why the class may not have `above` as one of its interfaces: `IllegalAccessError` where it isn't
/// accessible, then `IncompatibleClassChangeError` where it is no interface, or sealed to the class. `id`
/// is its number.
pub(crate) fn interface_error(
    index: &Index,
    class: &ClassFacts,
    id: ClassId,
    above: &ClassFacts,
) -> Option<LinkError>
    requires { Some above.now ≡ find_class index.now (name_at index.now id) }
    ensures { result ≡ error_of_interface index.now class.now above.now }
{
    supertype_error(
        is_accessible(index, above, &class.name),
        is_no_interface(index, id, above, class),
    )
}

// Why the class may not have this one as one of its interfaces; nothing where there is none.
#[tactic(auto, unfolding(jc_facts::specs::world::Loading::fault_of_interface, jc_facts::specs::Options::and_then))]
fn interface_fault(index: &Index, class: &ClassFacts, above: Option<ClassId>) -> Option<LinkError>
    requires { IfSome above (λ id. id < size index.now) }
    ensures { (x : Bytes) → above ≡ id_of index.now x → result ≡ fault_of_interface index.now class.now x }
{
    match above {
        None => None,
        Some(id) => interface_error(index, class, id, index.facts(id)),
    }
}

// Why the class of this number may not have the superclass that it names.
pub(crate) fn own_superclass_fault(
    index: &Index,
    id: ClassId,
    class: &ClassFacts,
) -> Option<LinkError>
    requires inside { id < size index.now }
    requires at { Some class.now ≡ find_class index.now (name_at index.now id) }
    ensures { result ≡ and_then (fault_of_superclass index.now class.now) class.now.superclass }
{
    match index.superclass(id) {
        None => None,
        Some(above) => superclass_error(index, class, above, index.facts(above)),
    }
}

// The first of its interfaces that the class of this number may not have, and why.
pub(crate) fn own_interfaces_fault(
    index: &Index,
    id: ClassId,
    class: &ClassFacts,
) -> Option<LinkError>
    requires inside { id < size index.now }
    requires at { Some class.now ≡ find_class index.now (name_at index.now id) }
    ensures { result ≡ first_some (fault_of_interface index.now class.now) class.now.interfaces }
{
    for above in index.interfaces(id) {
        if let Some(fault) = interface_fault(index, class, *above) {
            return Some(fault);
        }
    }
    None
}
