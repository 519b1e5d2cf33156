//! Below which class of the new side all seats stand that stood below a class of the old one.
ghost use Rattle.std.specs.Prelude.{◌≡◌, ◌<◌, length, map, None, IfOk, IfSome};
ghost use Rattle.std.specs.List.{All};
ghost use Rattle.jc_facts.specs.world.World.{size};
ghost use Rattle.jc_facts.specs.world.Loading.{load_fault};
ghost use Rattle.jc_index.specs.Ids.{name_at};
ghost use Rattle.jc_sides.specs.SharedOf.{IsShared, name_of};
ghost use Rattle.jc_acts.specs.steps.Commons.{covers, takes_in, IsWider, Widens, AreAdded, AreCommon, AreInside};

use crate::root::root_of;
use jc_index::ids::ClassId;
use jc_sides::shared::Shared;
use jc_table::table::Table;
use std::alloc::{AllocError, Global};

// The first class of the one chain that is in the other; the root of all classes where there is none.
fn meeting(table: &Table, one: ClassId, other: ClassId) -> ClassId
    requires one { one < size table.now }
    requires other { other < size table.now }
    ensures of_table { result < size table.now }
    ensures one { IsWider table.now (name_at table.now one) (name_at table.now result) }
    ensures other { IsWider table.now (name_at table.now other) (name_at table.now result) }
{
    let mut class = one;
    for _ in 0..table.count() {
        if table.has_super(other, class) {
            return class;
        }
        class = match table.superclass(class) {
            Some(above) => above,
            None => return root_of(table),
        };
    }
    root_of(table)
}

// A class above both, or the second where there is no first.
fn widened(table: &Table, common: Option<ClassId>, class: ClassId) -> ClassId
    requires common { IfSome common (λ id. id < size table.now) }
    requires class { class < size table.now }
    ensures of_table { result < size table.now }
    ensures common { takes_in table.now common result }
    ensures class { IsWider table.now (name_at table.now class) (name_at table.now result) }
{
    match common {
        Some(other) => meeting(table, class, other),
        None => class,
    }
}

// Whether the class is there and in the chain of the other one.
fn is_above(table: &Table, above: Option<ClassId>, class: ClassId) -> bool
    requires above { IfSome above (λ id. id < size table.now) }
    requires class { class < size table.now }
    ensures { result ≡ covers table.now above (name_at table.now class) }
{
    match above {
        Some(above) => table.has_super(class, above),
        None => false,
    }
}

// Widens what is kept of the classes above a seat so that it is above the seat now. The way ends at
// a seat that was added, where this one still stands below it.
fn widen(
    old: &Table,
    new: &Table,
    common: &mut Vec<Option<ClassId>>,
    added: &[Option<ClassId>],
    before: ClassId,
    now: ClassId,
)
    requires before { before < size old.now }
    requires now { now < size new.now }
    requires name { name_at new.now now ≡ name_at old.now before }
    requires loads { load_fault new.now (name_at old.now before) ≡ None }
    requires common { AreInside old.now new.now common.old.items }
    requires added { AreAdded old.now new.now common.old.items added.now }
    ensures { Widens old.now new.now (name_at old.now before) common.old.items common.new.items }
{
    let mut next = Some(before);
    let mut wide = now;
    for _ in 0..old.count() {
        let Some(class) = next else {
            return;
        };
        let n = class.number() as usize;
        if is_above(new, added[n], now) {
            return;
        }
        wide = widened(new, common[n], wide);
        common[n] = Some(wide);
        next = old.superclass(class);
    }
}

// As many empty places.
fn nothing(alloc: Global, count: u32) -> Result<Vec<Option<ClassId>>, AllocError>
    ensures count { IfOk result (λ places. length places.items ≡ count) }
    ensures empty { IfOk result (λ places. All (λ p. p ≡ None) places.items) }
{
    let mut places = Vec::new(alloc);
    for _ in 0..count {
        places.push(None)?;
    }
    Ok(places)
}

/// For each class of the old side a class of the new one below which all these seats stand that
/// stood below the first; none where no seat did. The seats load on both sides.
///
/// # Errors
///
/// `AllocError` where memory runs out.
pub fn commons(
    alloc: Global,
    old: &Table,
    new: &Table,
    seats: &[Shared<'_>],
) -> Result<Vec<Option<ClassId>>, AllocError>
    requires seats { All (IsShared (record { old = old.now; new = new.now })) seats.now }
    requires loads { All (λ b. load_fault new.now (name_of b) ≡ None) seats.now }
    ensures { IfOk result (λ common. AreCommon old.now new.now (map name_of seats.now) common.items) }
{
    let mut common = nothing(alloc, old.count())?;
    let mut added = nothing(alloc, old.count())?;
    for seat in seats {
        widen(old, new, &mut common, added.as_slice(), seat.old, seat.new);
        added[seat.old.number() as usize] = Some(seat.new);
    }
    Ok(common)
}
