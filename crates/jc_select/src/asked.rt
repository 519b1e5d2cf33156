//! The keys of which something may be warned of a base: those of which a class above it has otherwise
//! than before, and where the classes above it aren't the same as before, all that these declare.
ghost use Rattle.std.specs.Prelude.{◌≡◌, ◌≤◌, ◌<◌, ◌++◌, [], IfOk, IfSome, IsTrue, OnOk, length, slice_index_or};
ghost use Rattle.std.specs.List.{All};
ghost use Rattle.jc_acts.specs.Seats.{AreSeats};
ghost use Rattle.jc_promises.specs.rule.Warnings.{is_base};
ghost use Rattle.jc_facts.specs.world.World.{size};
ghost use Rattle.jc_select.specs.steps.Asked.{HaveThose, IsMet, up_of, HaveNoRest, ChainsAgree, PartsAgree};
ghost use Rattle.jc_select.specs.steps.Changes.{AreChanges};
ghost use Rattle.jc_select.specs.steps.Warned.{warned};
ghost use Rattle.jc_sides.specs.Rules.{HasEachKey};
ghost use Rattle.jc_sides.specs.SharedOf.{IsShared, name_of};

use crate::parts::{from, is_now, stand_alike};
use crate::walks::{add_chain, add_each};
use jc_acts::seats::Seats;
use jc_base::items::Items;
use jc_facts::key::Key;
use jc_index::ids::ClassId;
use jc_sides::shared::Shared;
use jc_sides::sides::Sides;
use jc_table::table::Table;
use std::alloc::{AllocError, Global};

// Adds the keys of which the class has otherwise.
fn add_changes(
    alloc: Global,
    keys: &mut Vec<Key>,
    changes: &[Items<Key>],
    class: ClassId,
) -> Result<(), AllocError>
    requires { «class» < length changes.now }
    ensures { OnOk result (keys.new.items ≡ keys.old.items ++ slice_index_or changes.now «class» []) }
{
    for key in changes[class.number() as usize].as_slice() {
        keys.push(key.copy(alloc)?)?;
    }
    Ok(())
}

// Adds those of these classes.
fn add_changes_of(
    alloc: Global,
    keys: &mut Vec<Key>,
    changes: &[Items<Key>],
    classes: &[ClassId],
) -> Result<(), AllocError>
    requires { All (λ id. id < length changes.now) classes.now }
    ensures { OnOk result (HaveThose changes.now classes.now keys.old.items keys.new.items) }
{
    for id in classes {
        add_changes(alloc, keys, changes, *id)?;
    }
    Ok(())
}

// ---- of the chain

// The old class, where the new one is there and has its name.
fn met(sides: &Sides<'_>, before: &Option<ClassId>, now: &Option<ClassId>) -> Option<ClassId>
    requires { IfSome before.now (λ id. id < size sides.now.old) }
    ensures met { IsMet sides.now before.now now.now result }
    ensures of_table { IfSome result (λ id. id < size sides.now.old) }
{
    let Some(old) = before else {
        return None;
    };
    let Some(new) = now else {
        return None;
    };
    if is_now(sides, *old, *new) {
        Some(*old)
    } else {
        None
    }
}

// The superclass of the class, where there is one.
fn up(table: &Table, class: Option<ClassId>) -> Option<ClassId>
    requires { IfSome «class» (λ id. id < size table.now) }
    ensures value { result ≡ up_of table.now «class» }
    ensures of_table { IfSome result (λ id. id < size table.now) }
{
    match class {
        Some(class) => table.superclass(class),
        None => None,
    }
}

// The smaller of two counts.
fn smaller(one: u32, other: u32) -> u32
    ensures first { result ≤ one }
    ensures second { result ≤ other }
{
    if one < other { one } else { other }
}

// Adds all that the chains declare from here up, so many classes at most.
fn add_rest(
    alloc: Global,
    keys: &mut Vec<Key>,
    sides: &Sides<'_>,
    before: Option<ClassId>,
    now: Option<ClassId>,
    old_levels: u32,
    new_levels: u32,
) -> Result<(), AllocError>
    requires before { IfSome before (λ id. id < size sides.now.old) }
    requires now { IfSome now (λ id. id < size sides.now.new) }
    ensures { OnOk result (HaveNoRest sides.now before now old_levels new_levels keys.old.items keys.new.items) }
{
    add_chain(alloc, keys, sides.old, before, old_levels)?;
    add_chain(alloc, keys, sides.new, now, new_levels)?;
    Ok(())
}

// Those of which the chain of the class has otherwise: as long as the classes of the chain have the
// same names, those of which one has otherwise, and from there up all.
fn chain_keys(
    alloc: Global,
    sides: &Sides<'_>,
    changes: &[Items<Key>],
    class: &Shared<'_>,
) -> Result<Vec<Key>, AllocError>
    requires changes { AreChanges sides.now changes.now }
    requires shared { IsShared sides.now «class».now }
    ensures { IfOk result (λ keys. ChainsAgree sides.now (name_of «class».now) keys.items) }
{
    let old_levels = sides.old.count();
    let new_levels = sides.new.count();
    let levels = smaller(old_levels, new_levels);
    let mut keys = Vec::new(alloc);
    let mut before = Some(class.old);
    let mut now = Some(class.new);
    for done in 0..levels {
        let Some(old) = met(sides, &before, &now) else {
            let old_left = old_levels - done;
            let new_left = new_levels - done;
            add_rest(alloc, &mut keys, sides, before, now, old_left, new_left)?;
            return Ok(keys);
        };
        add_changes(alloc, &mut keys, changes, old)?;
        before = sides.old.superclass(old);
        now = up(sides.new, now);
    }
    let old_left = old_levels - levels;
    let new_left = new_levels - levels;
    add_rest(alloc, &mut keys, sides, before, now, old_left, new_left)?;
    Ok(keys)
}

// ---- of the interfaces

// Those of which its part may have changed: where the interfaces from it on are the same as before,
// and stand as before, those of which one has otherwise, and else all.
fn interface_keys(
    alloc: Global,
    sides: &Sides<'_>,
    changes: &[Items<Key>],
    class: &Shared<'_>,
) -> Result<Vec<Key>, AllocError>
    requires changes { AreChanges sides.now changes.now }
    requires shared { IsShared sides.now «class».now }
    ensures { IfOk result (λ keys. PartsAgree sides.now (name_of «class».now) keys.items) }
{
    let before = from(alloc, sides.old, class.old)?;
    let after = from(alloc, sides.new, class.new)?;
    let mut keys = Vec::new(alloc);
    if stand_alike(sides, before.as_slice(), after.as_slice()) {
        add_changes_of(alloc, &mut keys, changes, before.as_slice())?;
        return Ok(keys);
    }
    add_each(alloc, &mut keys, sides.old, before.as_slice())?;
    add_each(alloc, &mut keys, sides.new, after.as_slice())?;
    Ok(keys)
}

/// The keys of which something may be warned of the base, in any order, and maybe twice; further ones
/// may be among them. There is none where nothing from the base upwards changed.
///
/// # Errors
///
/// `AllocError` where memory runs out.
pub fn asked_keys(
    alloc: Global,
    sides: &Sides<'_>,
    seats: &Seats<'_>,
    changes: &[Items<Key>],
    class: &Shared<'_>,
) -> Result<Vec<Key>, AllocError>
    requires seats { AreSeats sides.now seats.now }
    requires changes { AreChanges sides.now changes.now }
    requires shared { IsShared sides.now «class».now }
    requires covered { IsTrue (is_base sides.now.old sides.now.new (name_of «class».now)) }
    ensures { IfOk result (λ keys. HasEachKey (warned sides.now (name_of «class».now)) keys.items) }
{
    if !seats.may_close(sides, class) {
        return Ok(Vec::new(alloc));
    }
    let mut keys = chain_keys(alloc, sides, changes, class)?;
    let mut above = interface_keys(alloc, sides, changes, class)?;
    keys.append(&mut above)?;
    Ok(keys)
}
