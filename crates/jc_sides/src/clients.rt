//! Which kept classes clients could name above themselves, and still can (JVMS 4.7.31, 5.3.5).
ghost use Rattle.std.specs.Prelude.{◌≡◌, ◌&&◌, ◌||◌, not, is_some, IfOk, IsTrue};
ghost use Rattle.std.specs.Str.{is_utf8};
ghost use Rattle.std.specs.List.{list_any};
ghost use Rattle.std.specs.List.Sorted.{IsPermutation};
ghost use Rattle.jc_facts.specs.client.Allowed.{is_allowed_name};
ghost use Rattle.jc_facts.specs.Flags.{final_flag, interface_flag};
ghost use Rattle.jc_facts.specs.Names.{is_name_among};
ghost use Rattle.jc_desc.specs.Names.{is_init_name};
ghost use Rattle.jc_facts.specs.world.World.{find_class};
ghost use Rattle.jc_facts.specs.world.Modules.{OfClients, same_module, module_of};
ghost use Rattle.jc_facts.specs.world.Loading.{excludes};
ghost use Rattle.jc_promises.specs.rule.Bases.{allowed, permits_some, is_open, has_init, leaves_out, is_kept, became_class, is_steady, is_class_closed, is_base_class, is_base_interface};
ghost use Rattle.jc_facts.specs.world.Inheritance.{public_or_protected};
ghost use Rattle.jc_sides.specs.steps.ClientsOf.{becomes_class, could_extend, could_implement, shuts_out, closes, stays_superclass, stays_interface};
ghost use Rattle.jc_sides.specs.SharedOf.{IsShared, name_of};

use crate::shared::{Shared, after, before};
use crate::sides::Sides;
use jc_base::items::Items;
use jc_base::name::Name;
use jc_desc::names;
use jc_facts::class_facts::{ClassFacts, Member};
use jc_facts::flags::{is_final, is_interface, is_protected, is_public};
use jc_facts::limits::MAX_CLASS_NAME;
use jc_facts::packages::package_of;
use jc_index::name_set::NameSet;
use jc_table::table::Table;
use std::alloc::{AllocError, Global};
use std::str;

// ---- names of clients

// Whether the side has a class of this name.
fn is_declared(table: &Table, name: &Name) -> bool
    ensures { result ≡ is_some (find_class table.now name.now) }
{
    table.get(name.as_bytes()).is_some()
}

// Whether the bytes are UTF-8.
fn is_utf8(bytes: &[u8]) -> bool
    ensures { result ≡ is_utf8 bytes.now }
{
    str::from_utf8(bytes).is_ok()
}

// Whether a client of the side may have this name. Its length is asked first, as to look for a long one
// takes long.
#[tactic(auto, unfolding(jc_facts::specs::client::Allowed::is_allowed_name))]
fn is_allowed(table: &Table, name: &Name) -> bool
    ensures { result ≡ is_allowed_name table.now name.now }
{
    let bytes = name.as_bytes();
    if bytes.len() > MAX_CLASS_NAME {
        return false;
    }
    !is_declared(table, name)
        && !table.names_super(name)
        && !table.has_package(package_of(bytes))
        && bytes.len() <= MAX_CLASS_NAME
        && is_utf8(bytes)
}

/// Whether a client of both sides may have this name: neither declares it, names it above a class
/// or has a class of its package, and it is a UTF-8 text of at most 4,090 bytes.
pub fn is_allowed_on_both(sides: &Sides<'_>, name: &Name) -> bool
    ensures { result ≡ allowed sides.now.old sides.now.new name.now }
{
    is_allowed(sides.old, name) && is_allowed(sides.new, name)
}

// ---- of a class's two records

// Whether one of the names is a client's.
fn permits_one(sides: &Sides<'_>, names: &[Name]) -> bool
    ensures { result ≡ list_any (allowed sides.now.old sides.now.new) names.now }
{
    names.iter().any(|name| is_allowed_on_both(sides, name))
}

// Whether the class of this name, where there is one, is in the module of the clients; a client is.
fn is_of_clients(table: &Table, name: &Name) -> bool
    ensures { result ≡ same_module OfClients (module_of table.now name.now) }
{
    match table.get(name.as_bytes()) {
        None => true,
        Some(id) => table.is_of_clients(id),
    }
}

/// Whether the class excludes all clients: it has permitted names, and is in another module than
/// they are (JVMS 5.3.5).
pub fn excludes_clients(table: &Table, class: &ClassFacts) -> bool
    ensures { result ≡ excludes table.now class.now OfClients }
{
    class.permits.is_some() && !is_of_clients(table, &class.name)
}

// Whether the names, where there are any, let in some client.
fn permits(sides: &Sides<'_>, names: &Option<Items<Name>>) -> bool
    ensures { result ≡ permits_some sides.now.old sides.now.new names.now }
{
    match names {
        None => true,
        Some(names) => permits_one(sides, names.as_slice()),
    }
}

/// The names, to be looked for.
///
/// # Errors
///
/// `AllocError` where memory runs out.
pub fn set_of(alloc: Global, names: &[Name]) -> Result<NameSet, AllocError>
    ensures { IfOk result (λ set. IsPermutation names.now set) }
{
    NameSet::copied(alloc, names)
}

/// Whether clients of both sides may have the name, and it isn't in the set.
pub fn is_left_out(sides: &Sides<'_>, name: &Name, set: &NameSet) -> bool
    ensures { result ≡ (allowed sides.now.old sides.now.new name.now && not (is_name_among set.now name.now)) }
{
    is_allowed_on_both(sides, name) && !set.has(name.as_bytes())
}

// Whether one of the names is a client's and isn't in the set.
fn leaves_one_out(sides: &Sides<'_>, names: &[Name], set: &NameSet) -> bool
    ensures { result ≡ list_any (λ x. allowed sides.now.old sides.now.new x && not (is_name_among set.now x)) names.now }
{
    names.iter().any(|name| is_left_out(sides, name, set))
}

// Whether one of the names is a client's and isn't listed any more. Lists that are the same, as most
// are, take no memory.
fn drops_one(
    alloc: Global,
    sides: &Sides<'_>,
    before: &[Name],
    after: &[Name],
) -> Result<bool, AllocError>
    ensures { IfOk result (λ drops. drops ≡ list_any (λ x. allowed sides.now.old sides.now.new x && not (is_name_among after.now x)) before.now) }
{
    if before == after {
        return Ok(false);
    }
    let set = set_of(alloc, after)?;
    Ok(leaves_one_out(sides, before, &set))
}

// Whether the new permitted names leave out a client that the old ones let in.
fn seals_off(
    alloc: Global,
    sides: &Sides<'_>,
    before: &Option<Items<Name>>,
    after: &Option<Items<Name>>,
) -> Result<bool, AllocError>
    ensures { IfOk result (λ seals. seals ≡ leaves_out sides.now.old sides.now.new before.now after.now) }
{
    match (before, after) {
        (_, None) => Ok(false),
        (None, Some(_)) => Ok(true),
        (Some(before), Some(after)) => drops_one(alloc, sides, before.as_slice(), after.as_slice()),
    }
}

// Whether some client may name the class above itself, as far as its permitted names go.
fn is_open(sides: &Sides<'_>, class: &ClassFacts) -> bool
    ensures { result ≡ is_open sides.now.old sides.now.new class.now }
{
    !excludes_clients(sides.old, class) && permits(sides, &class.permits)
}

/// Whether the method is an instance initializer that subclasses can call: it is public or
/// protected (JVMS 2.9.1).
pub fn is_open_init(method: &Member) -> bool
    ensures { result ≡ (is_init_name method.now.name && public_or_protected method.now) }
{
    names::is_init(method.name.as_bytes())
        && (is_public(method.flags) || is_protected(method.flags))
}

// Whether the class declares an instance initializer that its subclasses can call.
fn has_open_init(class: &ClassFacts) -> bool
    ensures { result ≡ has_init class.now public_or_protected }
{
    class.methods.as_slice().iter().any(is_open_init)
}

// Whether clients could extend a usable class of this record.
fn could_extend(sides: &Sides<'_>, class: &ClassFacts) -> bool
    ensures { result ≡ could_extend sides.now class.now }
{
    !is_interface(class.flags)
        && !is_final(class.flags)
        && has_open_init(class)
        && is_open(sides, class)
}

// Whether clients could implement a usable interface of this record.
fn could_implement(sides: &Sides<'_>, class: &ClassFacts) -> bool
    ensures { result ≡ could_implement sides.now class.now }
{
    is_interface(class.flags) && is_open(sides, class)
}

// Whether clients could name a usable class of this record above themselves.
fn could_name(sides: &Sides<'_>, class: &ClassFacts) -> bool
    ensures { result ≡ (could_extend sides.now class.now || could_implement sides.now class.now) }
{
    could_extend(sides, class) || could_implement(sides, class)
}

// Whether the class is final now or became an interface.
fn is_barred(before: &ClassFacts, after: &ClassFacts) -> bool
    ensures { result ≡ (final_flag after.now.flags || (interface_flag after.now.flags && not (interface_flag before.now.flags))) }
{
    is_final(after.flags) || (is_interface(after.flags) && !is_interface(before.flags))
}

// Whether the class is final now, became an interface or is newly sealed.
fn shuts_out(
    alloc: Global,
    sides: &Sides<'_>,
    before: &ClassFacts,
    after: &ClassFacts,
) -> Result<bool, AllocError>
    ensures { IfOk result (λ shuts. shuts ≡ shuts_out sides.now before.now after.now) }
{
    if is_barred(before, after) {
        return Ok(true);
    }
    if excludes_clients(sides.new, after) {
        return Ok(true);
    }
    seals_off(alloc, sides, &before.permits, &after.permits)
}

// Whether the class was an interface and is none.
fn becomes_class(before: &ClassFacts, after: &ClassFacts) -> bool
    ensures { result ≡ becomes_class before.now after.now }
{
    is_interface(before.flags) && !is_interface(after.flags)
}

// Whether clients could name the class above themselves, and some can't any more.
fn closes(
    alloc: Global,
    sides: &Sides<'_>,
    before: &ClassFacts,
    after: &ClassFacts,
) -> Result<bool, AllocError>
    ensures { IfOk result (λ closed. closed ≡ closes sides.now before.now after.now) }
{
    if becomes_class(before, after) {
        return Ok(false);
    }
    if !could_name(sides, before) {
        return Ok(false);
    }
    shuts_out(alloc, sides, before, after)
}

// Whether clients could extend the class, and still can.
fn stays_superclass(
    alloc: Global,
    sides: &Sides<'_>,
    before: &ClassFacts,
    after: &ClassFacts,
) -> Result<bool, AllocError>
    ensures { IfOk result (λ stays. stays ≡ stays_superclass sides.now before.now after.now) }
{
    if !could_extend(sides, before) {
        return Ok(false);
    }
    let shut_out = shuts_out(alloc, sides, before, after)?;
    Ok(!shut_out)
}

// Whether clients could implement the interface, and still can.
fn stays_interface(
    alloc: Global,
    sides: &Sides<'_>,
    before: &ClassFacts,
    after: &ClassFacts,
) -> Result<bool, AllocError>
    ensures { IfOk result (λ stays. stays ≡ stays_interface sides.now before.now after.now) }
{
    if becomes_class(before, after) {
        return Ok(false);
    }
    if !could_implement(sides, before) {
        return Ok(false);
    }
    let closed = shuts_out(alloc, sides, before, after)?;
    Ok(!closed)
}

// ---- of a kept class

/// Whether the kept class was an interface and is none now (JVMS 4.1).
pub fn became_class(sides: &Sides<'_>, class: &Shared<'_>) -> bool
    requires shared { IsShared sides.now «class».now }
    requires kept { IsTrue (is_kept sides.now.old sides.now.new (name_of «class».now)) }
    ensures { result ≡ became_class sides.now.old sides.now.new (name_of «class».now) }
{
    becomes_class(before(sides, class), after(sides, class))
}

/// Whether the kept class hasn't stopped to be an interface.
#[tactic(auto, unfolding(jc_promises::specs::rule::Bases::is_steady))]
pub fn is_steady(sides: &Sides<'_>, class: &Shared<'_>) -> bool
    requires shared { IsShared sides.now «class».now }
    requires kept { IsTrue (is_kept sides.now.old sides.now.new (name_of «class».now)) }
    ensures { result ≡ is_steady sides.now.old sides.now.new (name_of «class».now) }
{
    !became_class(sides, class)
}

/// Whether clients could extend or implement the kept class, and some can't any more, since it is
/// final, became an interface or is newly sealed.
///
/// # Errors
///
/// `AllocError` where memory runs out.
pub fn is_closed(alloc: Global, sides: &Sides<'_>, class: &Shared<'_>) -> Result<bool, AllocError>
    requires shared { IsShared sides.now «class».now }
    requires kept { IsTrue (is_kept sides.now.old sides.now.new (name_of «class».now)) }
    ensures { IfOk result (λ closed. closed ≡ is_class_closed sides.now.old sides.now.new (name_of «class».now)) }
{
    let closed = closes(alloc, sides, before(sides, class), after(sides, class))?;
    Ok(closed)
}

/// Whether the kept class is a base class: clients could extend it and still can.
pub(crate) fn is_base_class(
    alloc: Global,
    sides: &Sides<'_>,
    class: &Shared<'_>,
) -> Result<bool, AllocError>
    requires shared { IsShared sides.now «class».now }
    requires kept { IsTrue (is_kept sides.now.old sides.now.new (name_of «class».now)) }
    ensures { IfOk result (λ base. base ≡ is_base_class sides.now.old sides.now.new (name_of «class».now)) }
{
    let stays = stays_superclass(alloc, sides, before(sides, class), after(sides, class))?;
    Ok(stays)
}

/// Whether the kept class is a base interface: clients could implement it and still can.
pub(crate) fn is_base_interface(
    alloc: Global,
    sides: &Sides<'_>,
    class: &Shared<'_>,
) -> Result<bool, AllocError>
    requires shared { IsShared sides.now «class».now }
    requires kept { IsTrue (is_kept sides.now.old sides.now.new (name_of «class».now)) }
    ensures { IfOk result (λ base. base ≡ is_base_interface sides.now.old sides.now.new (name_of «class».now)) }
{
    let stays = stays_interface(alloc, sides, before(sides, class), after(sides, class))?;
    Ok(stays)
}
