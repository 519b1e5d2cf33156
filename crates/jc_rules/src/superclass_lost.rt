//! The rule on superclasses that left the chain.
ghost use Rattle.std.specs.Prelude.{◌≡◌, ◌<◌, IfOk, IsTrue, option_map};
ghost use Rattle.jc_acts.specs.Seats.{AreSeats};
ghost use Rattle.jc_facts.specs.world.Hierarchy.{in_chain};
ghost use Rattle.jc_facts.specs.Names.{Bytes};
ghost use Rattle.jc_facts.specs.Orders.{finding_order};
ghost use Rattle.jc_facts.specs.Exactly.{HasExactly};
ghost use Rattle.jc_facts.specs.world.World.{size};
ghost use Rattle.jc_rules.specs.steps.Chains.{HasChain, target_finding, has_left_chain, OfChain};
ghost use Rattle.jc_rules.specs.steps.Losses.{AreLosses, loses};
ghost use Rattle.jc_sides.specs.Limit.{IsWithin};
ghost use Rattle.jc_sides.specs.Rules.{IsFinding};
ghost use Rattle.jc_index.specs.Ids.{name_at};

use crate::assigned::broken_assignment;
use crate::losses::Losses;
use jc_acts::seats::Seats;
use jc_facts::finding::Finding;
use jc_facts::flags::is_interface;
use jc_facts::rule_numbers::SUPERCLASS_LOST;
use jc_index::ids::ClassId;
use jc_sides::found::{finding, push_some};
use jc_sides::limit::is_over;
use jc_sides::sides::Sides;
use jc_table::table::Table;
use std::alloc::{AllocError, Global};
use std::collections::BTreeSet;

// The classes of the class's chain.
fn chain_of(alloc: Global, table: &Table, id: ClassId) -> Result<BTreeSet<ClassId>, AllocError>
    requires { id < size table.now }
    ensures { IfOk result (HasChain table.now (name_at table.now id)) }
{
    let mut chain = BTreeSet::new(alloc);
    let mut next = Some(id);
    for _ in 0..table.count() {
        let Some(class) = next else {
            return Ok(chain);
        };
        chain.insert(class)?;
        next = table.superclass(class);
    }
    Ok(chain)
}

// The classes of the chain that the class of the old side has on the new one: none where it is absent.
fn chain_after(
    alloc: Global,
    sides: &Sides<'_>,
    id: ClassId,
) -> Result<BTreeSet<ClassId>, AllocError>
    requires { id < size sides.now.old }
    ensures { IfOk result (HasChain sides.now.new (name_at sides.now.old id)) }
{
    let Some(after) = sides.new_id(id) else {
        return Ok(BTreeSet::new(alloc));
    };
    let chain = chain_of(alloc, sides.new, after)?;
    Ok(chain)
}

// Whether the class of the old side isn't in the new chain, and is no interface of the new side.
fn has_left(sides: &Sides<'_>, target: ClassId, chain: &BTreeSet<ClassId>) -> bool
    requires { target < size sides.now.old }
    ensures { (x : Bytes) → HasChain sides.now.new x chain.now → result ≡ has_left_chain sides.now x (name_at sides.now.old target) }
{
    match sides.new_id(target) {
        Some(after) => !chain.contains(&after) && !is_interface(sides.new.facts(after).flags),
        None => true,
    }
}

// The finding of a class that has lost some of its chain and a class of its old chain, if that has left
// the chain.
fn on_target(
    alloc: Global,
    sides: &Sides<'_>,
    seats: &Seats<'_>,
    losses: &Losses,
    class: ClassId,
    target: ClassId,
    chain: &BTreeSet<ClassId>,
) -> Result<Option<Finding>, AllocError>
    requires seats { AreSeats sides.now seats.now }
    requires losses { AreLosses sides.now losses.now }
    requires class { «class» < size sides.now.old }
    requires loses { IsTrue (loses sides.now (name_at sides.now.old «class»)) }
    requires target { target < size sides.now.old }
    requires was { IsTrue (in_chain sides.now.old (name_at sides.now.old «class») (name_at sides.now.old target)) }
    requires chain { HasChain sides.now.new (name_at sides.now.old «class») chain.now }
    ensures { IfOk result (λ found. found ≡ target_finding sides.now (name_at sides.now.old «class») (name_at sides.now.old target)) }
{
    if class == target {
        return Ok(None);
    }
    if !has_left(sides, target, chain) {
        return Ok(None);
    }
    let broken = broken_assignment(sides, seats, &losses.exposed, class, target);
    let name = &sides.old.facts(class).name;
    let above = &sides.old.facts(target).name;
    let found = finding(alloc, SUPERCLASS_LOST, name, None, Some(above), broken)?;
    Ok(found)
}

// What has left the chain of a class that has lost some of it, of those in its old chain, in byte order
// of names.
fn on_chain(
    alloc: Global,
    sides: &Sides<'_>,
    seats: &Seats<'_>,
    losses: &Losses,
    class: ClassId,
    before: &BTreeSet<ClassId>,
    after: &BTreeSet<ClassId>,
) -> Result<Vec<Finding>, AllocError>
    requires seats { AreSeats sides.now seats.now }
    requires losses { AreLosses sides.now losses.now }
    requires class { «class» < size sides.now.old }
    requires loses { IsTrue (loses sides.now (name_at sides.now.old «class»)) }
    requires before { HasChain sides.now.old (name_at sides.now.old «class») before.now }
    requires after { HasChain sides.now.new (name_at sides.now.old «class») after.now }
    ensures { IfOk result (λ found. HasExactly finding_order (OfChain sides.now (name_at sides.now.old «class»)) found.items) }
{
    let mut findings = Vec::new(alloc);
    for target in before {
        push_some(
            &mut findings,
            on_target(alloc, sides, seats, losses, class, *target, after)?,
        )?;
    }
    Ok(findings)
}

// What has left the chain of the class, in byte order of names. Nothing has of one that is neither kept
// nor hidden, or has lost none of its chain.
fn on_class(
    alloc: Global,
    sides: &Sides<'_>,
    seats: &Seats<'_>,
    losses: &Losses,
    class: ClassId,
) -> Result<Vec<Finding>, AllocError>
    requires seats { AreSeats sides.now seats.now }
    requires losses { AreLosses sides.now losses.now }
    requires class { «class» < size sides.now.old }
    ensures { IfOk result (λ found. HasExactly finding_order (OfChain sides.now (name_at sides.now.old «class»)) found.items) }
{
    if !losses.has_lost(sides, class) {
        return Ok(Vec::new(alloc));
    }
    let before = chain_of(alloc, sides.old, class)?;
    let after = chain_after(alloc, sides, class)?;
    let found = on_chain(alloc, sides, seats, losses, class, &before, &after)?;
    Ok(found)
}

/// Superclasses that left the chain of a class and are no interfaces (JVMS 4.10.1.2), where each of
/// the two is kept, or hidden and exposed by members, to one seat or to two of which clients can stand
/// beside each other, in byte order of the names of the class and of the superclass. A class that lost
/// some of its chain takes time in proportion to the lengths of its two chains, but for the logarithm of
/// a look-up and for the seats that are asked of hidden ones; any other takes hardly any. None where
/// there are more than the limit allows; no more are made then than what one class adds past it.
///
/// # Errors
///
/// `AllocError` where memory runs out.
pub fn superclass_lost(
    alloc: Global,
    sides: &Sides<'_>,
    seats: &Seats<'_>,
    losses: &Losses,
    most: Option<usize>,
) -> Result<Option<Vec<Finding>>, AllocError>
    requires seats { AreSeats sides.now seats.now }
    requires losses { AreLosses sides.now losses.now }
    ensures { IfOk result (λ found. IsWithin finding_order (IsFinding 4 sides.now) most (option_map (λ fs. fs.items) found)) }
{
    let mut findings = Vec::new(alloc);
    for n in 0..sides.old.count() {
        let id = sides.old.id(n).unwrap();
        findings.append(&mut on_class(alloc, sides, seats, losses, id)?)?;
        if is_over(findings.len(), most) {
            return Ok(None);
        }
    }
    Ok(Some(findings))
}
