//! Classes that changed between the two sides, or left the chain of a seat. Where neither a class nor
//! any above it did, and it loads on both sides, lookups from it find the same on both, and stay open
//! to the seats.
ghost use Rattle.std.specs.Prelude.{◌≡◌, ◌<◌, ◌&&◌, ◌||◌, Bool, cond, length, map, not, set, true, IfOk};
ghost use Rattle.std.specs.List.{All, list_any};
ghost use Rattle.jc_facts.specs.Names.{Bytes};
ghost use Rattle.jc_facts.specs.world.Hierarchy.{in_chain};
ghost use Rattle.jc_facts.specs.world.World.{size};
ghost use Rattle.jc_index.specs.Ids.{name_at};
ghost use Rattle.jc_sides.specs.SharedOf.{IsShared, name_of};
ghost use Rattle.jc_acts.specs.Touched.{AreFlags, AreSet, flag_at, is_changed, is_touched, left_chain_of, passes_above};
ghost use Rattle.jc_acts.specs.steps.Known.{fails_or_passes, passes_at, AreKnown};

use crate::chains::{has_lost, is_met_or_above, look_beside};
use jc_base::name::Name;
use jc_facts::records::are_same;
use jc_index::ids::ClassId;
use jc_sides::shared::Shared;
use jc_sides::sides::Sides;
use jc_table::table::Table;
use std::alloc::{AllocError, Global};

// Whether the sides don't have the same class of this name. The classes of the platform are those of
// both sides, so they aren't compared.
fn has_changed(sides: &Sides<'_>, id: ClassId) -> bool
    requires { id < size sides.now.old }
    ensures { result ≡ is_changed sides.now (name_at sides.now.old id) }
{
    if sides.old.in_platform(id) {
        return false;
    }
    let before = sides.old.facts(id);
    match sides.new_id(id) {
        Some(now) => !are_same(before, sides.new.facts(now)),
        None => true,
    }
}

// For each class of the old side, whether it changed.
fn changed(alloc: Global, sides: &Sides<'_>) -> Result<Vec<bool>, AllocError>
    ensures { IfOk result (λ flags. AreFlags sides.now.old (is_changed sides.now) flags.items) }
{
    let mut flags = Vec::new(alloc);
    for n in 0..sides.old.count() {
        let id = sides.old.id(n).unwrap();
        flags.push(has_changed(sides, id))?;
    }
    Ok(flags)
}

/// Sets the flag, where the test passed.
pub(crate) fn set_where(flags: &mut Vec<bool>, n: usize, passes: bool)
    requires { n < length flags.old.items }
    ensures { flags.new.items ≡ cond passes (set flags.old.items n true) flags.old.items }
{
    if passes {
        flags[n] = true;
    }
}

// Whether the flag of the class of this name is set, or the class is in the chain of the other one, as
// one is that was met there.
fn is_set_or_above(table: &Table, other: ClassId, set: bool, met: bool, name: &Name) -> bool
    requires other { other < size table.now }
    requires met { met ≡ true → in_chain table.now (name_at table.now other) name.now ≡ true }
    ensures { result ≡ (set || in_chain table.now (name_at table.now other) name.now) }
{
    set || is_met_or_above(table, other, met, name)
}

/// Sets the flags of the classes of the one chain that aren't in the other, by name. A class whose flag
/// is set isn't looked for; others mostly stand as far up in the other chain, or one further.
pub(crate) fn set_left(
    old: &Table,
    new: &Table,
    flags: &mut Vec<bool>,
    class: ClassId,
    other: ClassId,
)
    requires class { class < size old.now }
    requires other { other < size new.now }
    requires flags { length flags.old.items ≡ size old.now }
    ensures { AreSet old.now (λ y. in_chain old.now (name_at old.now class) y && not (in_chain new.now (name_at new.now other) y)) flags.old.items flags.new.items }
{
    let mut next = Some(class);
    let mut beside = Some(other);
    for _ in 0..old.count() {
        let Some(above) = next else {
            return;
        };
        let n = above.number() as usize;
        let name = &old.facts(above).name;
        let (met, up) = look_beside(new, beside, name);
        let stays = is_set_or_above(new, other, flags[n], met, name);
        set_where(flags, n, !stays);
        next = old.superclass(above);
        beside = up;
    }
}

// Sets the flags of those that left the seat's chain.
fn set_left_by(sides: &Sides<'_>, flags: &mut Vec<bool>, seat: &Shared<'_>)
    requires seat { IsShared sides.now seat.now }
    requires flags { length flags.old.items ≡ size sides.now.old }
    ensures { AreSet sides.now.old (λ y. left_chain_of sides.now y (name_of seat.now)) flags.old.items flags.new.items }
{
    if has_lost(sides, seat) {
        set_left(sides.old, sides.new, flags, seat.old, seat.new);
    }
}

// Sets the flags of those that left the chain of one of the seats.
fn set_left_by_any(sides: &Sides<'_>, flags: &mut Vec<bool>, seats: &[Shared<'_>])
    requires seats { All (IsShared sides.now) seats.now }
    requires flags { length flags.old.items ≡ size sides.now.old }
    ensures { AreSet sides.now.old (λ y. list_any (left_chain_of sides.now y) (map name_of seats.now)) flags.old.items flags.new.items }
{
    for seat in seats {
        set_left_by(sides, flags, seat);
    }
}

/// For each class of the old side, whether it changed or left the chain of one of the seats.
///
/// # Errors
///
/// `AllocError` where memory runs out.
pub fn touched(
    alloc: Global,
    sides: &Sides<'_>,
    seats: &[Shared<'_>],
) -> Result<Vec<bool>, AllocError>
    requires { All (IsShared sides.now) seats.now }
    ensures { IfOk result (λ flags. AreFlags sides.now.old (is_touched sides.now (map name_of seats.now)) flags.items) }
{
    let mut flags = changed(alloc, sides)?;
    set_left_by_any(sides, &mut flags, seats);
    Ok(flags)
}

// Whether one of these classes has its flag set.
fn is_any_set(flags: &[bool], ids: &[ClassId]) -> bool
    requires { All (λ n. n < length flags.now) ids.now }
    ensures { result ≡ list_any (flag_at flags.now) ids.now }
{
    for id in ids {
        if flags[id.number() as usize] {
            return true;
        }
    }
    false
}

// Whether the class has its flag set, or an interface that it names or that leads to.
fn is_set_at(table: &Table, flags: &[bool], id: ClassId) -> bool
    requires flags { length flags.now ≡ size table.now }
    requires class { id < size table.now }
    ensures { (p : Bytes → Bool) → AreFlags table.now p flags.now → result ≡ passes_at table.now p (name_at table.now id) }
{
    flags[id.number() as usize] || is_any_set(flags, table.interfaces(id))
}

// Whether the class doesn't load, or has its flag set, or an interface that it names or that leads
// to.
fn fails_or_is_set(table: &Table, flags: &[bool], id: ClassId) -> bool
    requires flags { length flags.now ≡ size table.now }
    requires class { id < size table.now }
    ensures { (p : Bytes → Bool) → AreFlags table.now p flags.now → result ≡ fails_or_passes table.now p (name_at table.now id) }
{
    table.fault_at(id).is_some() || is_set_at(table, flags, id)
}

// For each class what is known of it by itself: that it doesn't load, or has its flag set, or an
// interface that it names or that leads to; else nothing.
fn known_first(
    alloc: Global,
    table: &Table,
    flags: &[bool],
) -> Result<Vec<Option<bool>>, AllocError>
    requires { length flags.now ≡ size table.now }
    ensures count { IfOk result (λ known. length known.items ≡ size table.now) }
    ensures known { IfOk result (λ known. (p : Bytes → Bool) → AreFlags table.now p flags.now → AreKnown table.now p known.items) }
{
    let mut known = Vec::new(alloc);
    for n in 0..table.count() {
        let id = table.id(n).unwrap();
        known.push(fails_or_is_set(table, flags, id).then_some(true))?;
    }
    Ok(known)
}

// What is known of the class, or else of the first above it of which something is known; no where
// there is none.
fn answer_of(table: &Table, known: &[Option<bool>], class: ClassId) -> bool
    requires known { length known.now ≡ size table.now }
    requires class { class < size table.now }
    ensures { (p : Bytes → Bool) → AreKnown table.now p known.now → result ≡ passes_above table.now p (name_at table.now class) }
{
    let mut next = Some(class);
    for _ in 0..table.count() {
        let Some(id) = next else {
            return false;
        };
        match known[id.number() as usize] {
            Some(answer) => return answer,
            None => next = table.superclass(id),
        }
    }
    false
}

// Notes the answer of the class, which is also that of those above it up to the first of which
// something is known.
fn note(table: &Table, known: &mut Vec<Option<bool>>, class: ClassId, answer: bool)
    requires known { length known.old.items ≡ size table.now }
    requires class { class < size table.now }
    ensures count { length known.new.items ≡ size table.now }
    ensures known { (p : Bytes → Bool) → AreKnown table.now p known.old.items → answer ≡ passes_above table.now p (name_at table.now class) → AreKnown table.now p known.new.items }
{
    let mut next = Some(class);
    for _ in 0..table.count() {
        let Some(id) = next else {
            return;
        };
        let n = id.number() as usize;
        if known[n].is_some() {
            return;
        }
        known[n] = Some(answer);
        next = table.superclass(id);
    }
}

// Whether the class doesn't load, or it or one above it has its flag set. It is noted for all that
// were passed on the way up.
fn ask(table: &Table, known: &mut Vec<Option<bool>>, class: ClassId) -> bool
    requires known { length known.old.items ≡ size table.now }
    requires class { class < size table.now }
    ensures count { length known.new.items ≡ size table.now }
    ensures answer { (p : Bytes → Bool) → AreKnown table.now p known.old.items → result ≡ passes_above table.now p (name_at table.now class) }
    ensures known { (p : Bytes → Bool) → AreKnown table.now p known.old.items → AreKnown table.now p known.new.items }
{
    let answer = answer_of(table, known.as_slice(), class);
    note(table, known, class, answer);
    answer
}

/// For each class, whether it doesn't load, or it or one above it has its flag set. Each class is
/// asked once, with the interfaces that it leads to, and passed twice at most on the way up to one of
/// which the answer is known: it takes time in proportion to the classes and those interfaces.
///
/// # Errors
///
/// `AllocError` where memory runs out.
pub fn with_those_below(
    alloc: Global,
    table: &Table,
    flags: &[bool],
) -> Result<Vec<bool>, AllocError>
    requires { length flags.now ≡ size table.now }
    ensures { IfOk result (λ below. (p : Bytes → Bool) → AreFlags table.now p flags.now → AreFlags table.now (passes_above table.now p) below.items) }
{
    let mut known = known_first(alloc, table, flags)?;
    let mut below = Vec::new(alloc);
    for n in 0..table.count() {
        let id = table.id(n).unwrap();
        below.push(ask(table, &mut known, id))?;
    }
    Ok(below)
}
