//! The row of the methods that the lookup from a class may find (JVMS 5.4.3.3, 5.4.3.4).
ghost use Rattle.std.specs.Prelude.{◌≡◌, ◌<◌, length, None, Some, IfOk, slice_get};
ghost use Rattle.jc_facts.specs.declared.key.Key.{Key as KeyOf};
ghost use Rattle.jc_facts.specs.world.World.{size};
ghost use Rattle.jc_facts.specs.world.Loading.{load_fault};
ghost use Rattle.jc_index.specs.Ids.{name_at};
ghost use Rattle.jc_index.specs.Picks.{Picks};
ghost use Rattle.jc_rows.specs.Keys.{numbered_keys};
ghost use Rattle.jc_rows.specs.Rows.{entry, IsRow, IsMethodRow};
ghost use Rattle.jc_rows.specs.steps.Fronts.{front_method};
ghost use Rattle.jc_rows.specs.steps.Gathering.{AreRising, HasAbove};
ghost use Rattle.jc_rows.specs.steps.Settling.{Settles, IsSource};

use crate::agreeing::{agreed, is_inherited};
use crate::front::push_found;
use crate::gathering::gathered;
use crate::row::{RowItem, find};
use jc_base::items::Items;
use jc_facts::key::Key;
use jc_index::choose::find_above;
use jc_index::hierarchy::Hierarchy;
use jc_index::ids::{ClassId, Found};
use std::alloc::{AllocError, Global};

// What is picked of what superinterfaces of the class declare for the key of this number: what all
// rows above the class agree on, where they do.
fn from_above(
    hierarchy: &Hierarchy,
    keys: &[Key],
    rows: &[Items<RowItem>],
    class: ClassId,
    number: usize,
) -> Option<Found>
    requires class { class < size hierarchy.now }
    requires loads { load_fault hierarchy.now (name_at hierarchy.now class) ≡ None }
    requires keys { keys.now ≡ numbered_keys hierarchy.now }
    requires rising { AreRising hierarchy.now rows.now }
    requires above { HasAbove (IsMethodRow hierarchy.now) hierarchy.now rows.now (name_at hierarchy.now class) }
    requires number { number < length keys.now }
    ensures { (k : KeyOf) → slice_get keys.now number ≡ Some k → front_method hierarchy.now (name_at hierarchy.now class) k ≡ None → Picks hierarchy.now (name_at hierarchy.now class) k result }
{
    let _classes = hierarchy.count();
    match agreed(hierarchy.index(), rows, hierarchy.facts(class), number) {
        Some(found) if is_inherited(hierarchy, &found) => Some(found),
        _ => find_above(hierarchy, class, &keys[number]),
    }
}

// What the lookup from the class finds for the key of this number: what the front has, else what the
// superinterfaces give.
fn settled(
    hierarchy: &Hierarchy,
    keys: &[Key],
    rows: &[Items<RowItem>],
    front: &[RowItem],
    class: ClassId,
    number: usize,
) -> Option<Found>
    requires class { class < size hierarchy.now }
    requires loads { load_fault hierarchy.now (name_at hierarchy.now class) ≡ None }
    requires keys { keys.now ≡ numbered_keys hierarchy.now }
    requires front { IsRow hierarchy.now (front_method hierarchy.now (name_at hierarchy.now class)) front.now }
    requires rising { AreRising hierarchy.now rows.now }
    requires above { HasAbove (IsMethodRow hierarchy.now) hierarchy.now rows.now (name_at hierarchy.now class) }
    requires number { number < length keys.now }
    ensures { (k : KeyOf) → slice_get keys.now number ≡ Some k → Settles hierarchy.now (name_at hierarchy.now class) k (entry front.now number) result }
{
    match find(front, number) {
        Some(found) => Some(found),
        None => from_above(hierarchy, keys, rows, class, number),
    }
}

// The methods for the keys of `all`.
fn settle(
    alloc: Global,
    hierarchy: &Hierarchy,
    keys: &[Key],
    rows: &[Items<RowItem>],
    front: &[RowItem],
    all: &[RowItem],
    class: ClassId,
) -> Result<Vec<RowItem>, AllocError>
    requires class { class < size hierarchy.now }
    requires loads { load_fault hierarchy.now (name_at hierarchy.now class) ≡ None }
    requires keys { keys.now ≡ numbered_keys hierarchy.now }
    requires rising { AreRising hierarchy.now rows.now }
    requires above { HasAbove (IsMethodRow hierarchy.now) hierarchy.now rows.now (name_at hierarchy.now class) }
    requires front { IsRow hierarchy.now (front_method hierarchy.now (name_at hierarchy.now class)) front.now }
    requires all { IsSource hierarchy.now (name_at hierarchy.now class) all.now }
    ensures { IfOk result (λ row. IsMethodRow hierarchy.now (name_at hierarchy.now class) row.items) }
{
    let mut row = Vec::with_capacity(alloc, all.len())?;
    for item in all {
        let found = settled(hierarchy, keys, rows, front, class, item.key);
        push_found(&mut row, item.key, found)?;
    }
    Ok(row)
}

/// The row of the methods that the lookup from the class may find, from what it finds before it
/// looks at superinterfaces and from the rows of what the class names above itself (JVMS 5.4.3.3,
/// 5.4.3.4). The class has to load.
pub(crate) fn method_row(
    alloc: Global,
    hierarchy: &Hierarchy,
    keys: &[Key],
    rows: &[Items<RowItem>],
    front: &[RowItem],
    class: ClassId,
) -> Result<Vec<RowItem>, AllocError>
    requires class { class < size hierarchy.now }
    requires loads { load_fault hierarchy.now (name_at hierarchy.now class) ≡ None }
    requires keys { keys.now ≡ numbered_keys hierarchy.now }
    requires front { IsRow hierarchy.now (front_method hierarchy.now (name_at hierarchy.now class)) front.now }
    requires rising { AreRising hierarchy.now rows.now }
    requires above { HasAbove (IsMethodRow hierarchy.now) hierarchy.now rows.now (name_at hierarchy.now class) }
    ensures { IfOk result (λ row. IsMethodRow hierarchy.now (name_at hierarchy.now class) row.items) }
{
    let first = Vec::from_slice(alloc, front)?;
    let all = gathered(
        alloc,
        hierarchy.index(),
        rows,
        hierarchy.facts(class),
        first,
    )?;
    let row = settle(alloc, hierarchy, keys, rows, front, all.as_slice(), class)?;
    Ok(row)
}
