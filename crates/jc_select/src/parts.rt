//! The parts that bases have in the choice of a method among superinterfaces (JVMS 5.4.3.3, 5.4.6).
ghost use Rattle.std.specs.Prelude.{◌≡◌, ◌<◌, ◌==◌, ◌&&◌, IfOk};
ghost use Rattle.std.specs.List.{All, list_any, list_all, filter};
ghost use Rattle.jc_facts.specs.world.World.{size};
ghost use Rattle.jc_facts.specs.world.Hierarchy.{superinterfaces, with_interfaces};
ghost use Rattle.jc_facts.specs.Options.{some_and};
ghost use Rattle.jc_select.specs.steps.Parts.{AreNamed, offers_at, abstract_at, alike_below, stays_at, stands_at, was_at};
ghost use Rattle.jc_select.specs.steps.Warned.{parts_differ};
ghost use Rattle.jc_sides.specs.SharedOf.{IsShared, name_of};
ghost use Rattle.jc_index.specs.Ids.{name_at, id_of};
ghost use Rattle.jc_promises.specs.rule.Warnings.{interfaces_from, is_below_other, part};

use jc_facts::flags::{is_abstract, is_interface};
use jc_facts::key::Key;
use jc_index::ids::ClassId;
use jc_index::own::{candidate, declared};
use jc_sides::shared::Shared;
use jc_sides::sides::Sides;
use jc_table::table::Table;
use std::alloc::{AllocError, Global};

// ---- the part of one side

/// The interfaces that the class and its superclasses lead to, in any order, and maybe twice.
///
/// # Errors
///
/// `AllocError` where memory runs out.
pub(crate) fn above(
    alloc: Global,
    table: &Table,
    class: ClassId,
) -> Result<Vec<ClassId>, AllocError>
    requires { class < size table.now }
    ensures { IfOk result (λ ids. AreNamed table.now (superinterfaces table.now (name_at table.now class)) ids.items) }
{
    let mut ids = Vec::new(alloc);
    let mut at = class;
    for _ in 0..table.count() {
        ids.extend_from_slice(table.interfaces(at))?;
        at = match table.superclass(at) {
            Some(above) => above,
            None => return Ok(ids),
        };
    }
    Ok(ids)
}

// The interface and those that it leads to.
fn with_above(alloc: Global, table: &Table, class: ClassId) -> Result<Vec<ClassId>, AllocError>
    requires { class < size table.now }
    ensures { IfOk result (λ ids. AreNamed table.now (with_interfaces table.now (name_at table.now class)) ids.items) }
{
    // A count says that a table stands for a side.
    let _classes = table.count();
    let mut ids = Vec::new(alloc);
    ids.push(class)?;
    ids.extend_from_slice(table.interfaces(class))?;
    Ok(ids)
}

/// The interfaces from the class on.
///
/// # Errors
///
/// `AllocError` where memory runs out.
pub(crate) fn from(alloc: Global, table: &Table, class: ClassId) -> Result<Vec<ClassId>, AllocError>
    requires { class < size table.now }
    ensures { IfOk result (λ ids. AreNamed table.now (interfaces_from table.now (name_at table.now class)) ids.items) }
{
    if is_interface(table.facts(class).flags) {
        let ids = with_above(alloc, table, class)?;
        return Ok(ids);
    }
    let ids = above(alloc, table, class)?;
    Ok(ids)
}

// Those that declare the key neither private nor static.
fn offering(
    alloc: Global,
    table: &Table,
    ids: &[ClassId],
    key: &Key,
) -> Result<Vec<ClassId>, AllocError>
    requires { All (λ id. id < size table.now) ids.now }
    ensures { IfOk result (λ those. those.items ≡ filter (offers_at table.now key.now) ids.now) }
{
    let mut those = Vec::new(alloc);
    for id in ids {
        if candidate(table.hierarchy(), *id, key).is_some() {
            those.push(*id)?;
        }
    }
    Ok(those)
}

// The part of the class.
fn part(alloc: Global, table: &Table, class: ClassId, key: &Key) -> Result<Vec<ClassId>, AllocError>
    requires { class < size table.now }
    ensures { IfOk result (λ ids. AreNamed table.now (part table.now (name_at table.now class) key.now) ids.items) }
{
    // A count says that a table stands for a side.
    let _classes = table.count();
    let from = from(alloc, table, class)?;
    let those = offering(alloc, table, from.as_slice(), key)?;
    Ok(those)
}

// ---- two parts

/// Whether the class is one of these.
pub(crate) fn is_among(ids: &[ClassId], class: ClassId) -> bool
    ensures { result ≡ list_any (λ n. n == class) ids.now }
{
    for id in ids {
        if *id == class {
            return true;
        }
    }
    false
}

// Whether the class declares the key abstract.
fn is_abstract_in(table: &Table, class: ClassId, key: &Key) -> bool
    requires { class < size table.now }
    ensures { result ≡ abstract_at table.now key.now class }
{
    match declared(table.hierarchy(), class, key) {
        None => false,
        Some(found) => is_abstract(found.flags),
    }
}

// Whether the class is another than this one, and below it.
fn is_below_other(table: &Table, class: ClassId, of: ClassId) -> bool
    requires class { class < size table.now }
    requires above { of < size table.now }
    ensures { result ≡ is_below_other table.now (name_at table.now class) (name_at table.now of) }
{
    // A count says that a table stands for a side.
    let _classes = table.count();
    class != of && table.is_below(class, of)
}

// Whether the class of the new side is another than this one of the old side, and below it.
fn is_below_now(sides: &Sides<'_>, class: ClassId, of: ClassId) -> bool
    requires class { class < size sides.now.new }
    requires above { of < size sides.now.old }
    ensures { result ≡ is_below_other sides.now.new (name_at sides.now.new class) (name_at sides.now.old of) }
{
    match sides.new_id(of) {
        None => false,
        Some(of) => is_below_other(sides.new, class, of),
    }
}

// Whether the class is below the same others of these as before.
fn is_below_alike(sides: &Sides<'_>, ids: &[ClassId], before: ClassId, now: ClassId) -> bool
    requires within { All (λ id. id < size sides.now.old) ids.now }
    requires before { before < size sides.now.old }
    requires class { now < size sides.now.new }
    ensures { result ≡ alike_below sides.now ids.now before now }
{
    for id in ids {
        if is_below_other(sides.old, before, *id) != is_below_now(sides, now, *id) {
            return false;
        }
    }
    true
}

// Whether the class stays in the part as it was.
fn stays(
    sides: &Sides<'_>,
    before: &[ClassId],
    after: &[ClassId],
    key: &Key,
    class: ClassId,
) -> bool
    requires within { All (λ id. id < size sides.now.old) before.now }
    requires class { class < size sides.now.old }
    ensures { result ≡ stays_at sides.now key.now before.now after.now class }
{
    match sides.new_id(class) {
        None => false,
        Some(now) => {
            is_among(after, now)
                && is_abstract_in(sides.old, class, key) == is_abstract_in(sides.new, now, key)
                && is_below_alike(sides, before, class, now)
        }
    }
}

// Whether each class of the old part does.
fn all_stay(sides: &Sides<'_>, before: &[ClassId], after: &[ClassId], key: &Key) -> bool
    requires { All (λ id. id < size sides.now.old) before.now }
    ensures { result ≡ list_all (stays_at sides.now key.now before.now after.now) before.now }
{
    for id in before {
        if !stays(sides, before, after, key, *id) {
            return false;
        }
    }
    true
}

/// Whether the new class is the old one.
pub(crate) fn is_now(sides: &Sides<'_>, before: ClassId, class: ClassId) -> bool
    requires { before < size sides.now.old }
    ensures { result ≡ some_and (λ n. n == class) (id_of sides.now.new (name_at sides.now.old before)) }
{
    match sides.new_id(before) {
        None => false,
        Some(now) => now == class,
    }
}

// Whether the new class was in the old part.
fn was(sides: &Sides<'_>, before: &[ClassId], class: ClassId) -> bool
    requires { All (λ id. id < size sides.now.old) before.now }
    ensures { result ≡ was_at sides.now before.now class }
{
    for id in before {
        if is_now(sides, *id, class) {
            return true;
        }
    }
    false
}

// Whether each class of the new part was.
fn all_were(sides: &Sides<'_>, before: &[ClassId], after: &[ClassId]) -> bool
    requires { All (λ id. id < size sides.now.old) before.now }
    ensures { result ≡ list_all (was_at sides.now before.now) after.now }
{
    for id in after {
        if !was(sides, before, *id) {
            return false;
        }
    }
    true
}

// Whether the parts have the same classes, and these are alike.
fn agree(sides: &Sides<'_>, before: &[ClassId], after: &[ClassId], key: &Key) -> bool
    requires { All (λ id. id < size sides.now.old) before.now }
    ensures { result ≡ (list_all (stays_at sides.now key.now before.now after.now) before.now && list_all (was_at sides.now before.now) after.now) }
{
    all_stay(sides, before, after, key) && all_were(sides, before, after)
}

// Whether the class is still there, and below the same others of these.
fn stands(sides: &Sides<'_>, before: &[ClassId], after: &[ClassId], class: ClassId) -> bool
    requires within { All (λ id. id < size sides.now.old) before.now }
    requires class { class < size sides.now.old }
    ensures { result ≡ stands_at sides.now before.now after.now class }
{
    match sides.new_id(class) {
        None => false,
        Some(now) => is_among(after, now) && is_below_alike(sides, before, class, now),
    }
}

// Whether each of these is.
fn all_stand(sides: &Sides<'_>, before: &[ClassId], after: &[ClassId]) -> bool
    requires { All (λ id. id < size sides.now.old) before.now }
    ensures { result ≡ list_all (stands_at sides.now before.now after.now) before.now }
{
    for id in before {
        if !stands(sides, before, after, *id) {
            return false;
        }
    }
    true
}

/// Whether the classes of the new side are those of the old one, and stand below each other as they
/// did.
pub(crate) fn stand_alike(sides: &Sides<'_>, before: &[ClassId], after: &[ClassId]) -> bool
    requires { All (λ id. id < size sides.now.old) before.now }
    ensures { result ≡ (list_all (stands_at sides.now before.now after.now) before.now && list_all (was_at sides.now before.now) after.now) }
{
    all_stand(sides, before, after) && all_were(sides, before, after)
}

/// Whether the interfaces from the base on, that declare the key neither private nor static, or what
/// stands between them, differ on the two sides.
///
/// # Errors
///
/// `AllocError` where memory runs out.
pub fn parts_differ(
    alloc: Global,
    sides: &Sides<'_>,
    class: &Shared<'_>,
    key: &Key,
) -> Result<bool, AllocError>
    requires shared { IsShared sides.now «class».now }
    ensures { IfOk result (λ differ. differ ≡ parts_differ sides.now (name_of «class».now) key.now) }
{
    // A count says that a table stands for a side.
    let _old = sides.old.count();
    let _new = sides.new.count();
    let before = part(alloc, sides.old, class.old, key)?;
    let after = part(alloc, sides.new, class.new, key)?;
    Ok(!agree(sides, before.as_slice(), after.as_slice(), key))
}
