//! The load fault of a class by the definition: a search to a depth of so many levels (JVMS 5.3.5).
//!
//! It looks at a class again for each way that leads to it, so it is for small sides alone.
ghost use Rattle.std.specs.Prelude.{◌≡◌, ◌<◌, ◌∷◌, ◌&&◌, ◌||◌, [], not, Some, IfOk};
ghost use Rattle.jc_desc.specs.Names.{is_init_name, is_clinit_name};
ghost use Rattle.jc_facts.specs.Names.{key_of};
ghost use Rattle.jc_facts.specs.world.World.{size, find_class};
ghost use Rattle.jc_facts.specs.world.Hierarchy.{chain, of_super};
ghost use Rattle.jc_facts.specs.world.Overriding.{reaches_final, overrides_some_final};
ghost use Rattle.jc_facts.specs.world.Loading.{fault_at, fault_of_itself};
ghost use Rattle.jc_index.specs.Ids.{name_at};

use crate::overriding::{Method, meets_final, number_above};
use crate::supertypes::{own_interfaces_fault, own_superclass_fault};
use jc_base::name::Name;
use jc_desc::names::is_initializer;
use jc_facts::class_facts::{ClassFacts, Member};
use jc_facts::flags::is_interface;
use jc_facts::key_set::KeyRef;
use jc_facts::link_error::LinkError;
use jc_index::ids::ClassId;
use jc_index::index::Index;
use jc_index::supers::{super_at, super_count};
use std::alloc::{AllocError, Global};

// Whether a method of the class overrides a final one of the classes above it.
fn method_overrides<'a>(
    alloc: Global,
    index: &'a Index,
    class: &'a ClassFacts,
    member: &'a Member,
) -> Result<bool, AllocError>
    ensures { IfOk result (λ met. met ≡ (not (is_init_name member.now.name || is_clinit_name member.now.name) && reaches_final (key_of member.now) (record { owner = class.now.name; member = member.now } ∷ []) (of_super (chain index.now) class.now.superclass))) }
{
    if is_initializer(member.name.as_bytes()) {
        return Ok(false);
    }
    let key = KeyRef::of_member(member);
    let method = Method {
        owner: &class.name,
        member,
    };
    let met = meets_final(alloc, index, &key, method, number_above(index, class))?;
    Ok(met)
}

// Whether one of the class's methods does.
#[tactic(auto, using(crate::proofs::Overrides::overrides_found, crate::proofs::Overrides::overrides_next, crate::proofs::Overrides::overrides_end))]
fn overrides_final<'a>(
    alloc: Global,
    index: &'a Index,
    class: &'a ClassFacts,
) -> Result<bool, AllocError>
    ensures { IfOk result (λ met. met ≡ overrides_some_final class.now.name class.now.methods (of_super (chain index.now) class.now.superclass)) }
{
    for member in class.methods.as_slice() {
        if method_overrides(alloc, index, class, member)? {
            return Ok(true);
        }
    }
    Ok(false)
}

// Why the class doesn't load though all that it names above itself does.
#[tactic(auto, unfolding(jc_facts::specs::world::Loading::fault_of_itself, jc_facts::specs::Options::or_else))]
fn own_fault<'a>(
    alloc: Global,
    index: &'a Index,
    id: ClassId,
    class: &'a ClassFacts,
) -> Result<Option<LinkError>, AllocError>
    requires inside { id < size index.now }
    requires at { Some class.now ≡ find_class index.now (name_at index.now id) }
    ensures { IfOk result (λ fault. fault ≡ fault_of_itself index.now class.now) }
{
    let superclass = own_superclass_fault(index, id, class);
    if superclass.is_some() {
        return Ok(superclass);
    }
    let interface = own_interfaces_fault(index, id, class);
    if interface.is_some() {
        return Ok(interface);
    }
    if is_interface(class.flags) {
        return Ok(None);
    }
    if overrides_final(alloc, index, class)? {
        Ok(Some(LinkError::IncompatibleClassChangeError))
    } else {
        Ok(None)
    }
}

/// The load fault of the class of this name, looked for to a depth of so many levels:
/// `ClassCircularityError` where no level is left (JVMS 5.3.5).
///
/// # Errors
///
/// `AllocError` where memory runs out.
pub fn search_fault(
    alloc: Global,
    index: &Index,
    name: &Name,
    levels: u32,
) -> Result<Option<LinkError>, AllocError>
    ensures { IfOk result (λ fault. fault ≡ fault_at index.now levels name.now) }
{
    let Some(id) = index.get(name.as_bytes()) else {
        return Ok(Some(LinkError::NoClassDefFoundError));
    };
    if levels == 0 {
        return Ok(Some(LinkError::ClassCircularityError));
    }
    let class = index.facts(id);
    for at in 0..super_count(class) {
        if let Some(fault) = search_fault(alloc, index, super_at(class, at), levels - 1)? {
            return Ok(Some(fault));
        }
    }
    let fault = own_fault(alloc, index, id, class)?;
    Ok(fault)
}
