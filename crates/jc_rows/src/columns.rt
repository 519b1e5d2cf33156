//! The rows of the classes that have some, each made after those of what its class names above itself.
ghost use Rattle.std.specs.Prelude.{◌≡◌, map, IfOk};
ghost use Rattle.jc_index.specs.Ids.{names};
ghost use Rattle.jc_index.specs.LoadOrder.{IsLoadOrder};
ghost use Rattle.jc_rows.specs.AllRows.{HasRows};
ghost use Rattle.jc_rows.specs.Rows.{IsRow, IsFieldRow, IsMethodRow};
ghost use Rattle.jc_rows.specs.WithRows.{has_rows};
ghost use Rattle.jc_rows.specs.steps.Columns.{AreEmpty};
ghost use Rattle.jc_rows.specs.steps.Fronts.{chain_method};
ghost use Rattle.jc_rows.specs.steps.Numbering.{IsNumbering};

use crate::fields::field_row;
use crate::front::{chain_row, front_row, object_row};
use crate::methods::method_row;
use crate::numbering::Numbering;
use crate::row::RowItem;
use jc_base::items::Items;
use jc_index::hierarchy::Hierarchy;
use jc_index::ids::ClassId;
use jc_index::index::Index;
use std::alloc::{AllocError, Global};

// As many empty rows as there are classes.
fn no_rows(alloc: Global, index: &Index) -> Result<Vec<Items<RowItem>>, AllocError>
    ensures { IfOk result (λ rows. AreEmpty index.now rows.items) }
{
    let mut rows = Vec::with_capacity(alloc, index.count() as usize)?;
    for _ in 0..index.count() {
        rows.push(Items::from_vec(Vec::new(alloc)))?;
    }
    Ok(rows)
}

// A copy of the row that takes no more memory than its items want.
fn kept(alloc: Global, row: &[RowItem]) -> Result<Items<RowItem>, AllocError>
    ensures { IfOk result (λ kept. kept ≡ row.now) }
{
    let items = Vec::from_slice(alloc, row)?;
    Ok(Items::from_vec(items))
}

/// The row of fields of each class that loads and has rows.
pub(crate) fn field_rows(
    alloc: Global,
    index: &Index,
    made: &[bool],
    numbering: &Numbering,
    order: &[ClassId],
) -> Result<Vec<Items<RowItem>>, AllocError>
    requires made { made.now ≡ map (has_rows index.now) (names index.now) }
    requires numbering { IsNumbering index.now numbering.now }
    requires order { IsLoadOrder index.now order.now }
    ensures { IfOk result (λ rows. HasRows (IsFieldRow index.now) index.now rows.items) }
{
    let _classes = index.count();
    let mut rows = no_rows(alloc, index)?;
    for class in order {
        let class = *class;
        let n = class.number() as usize;
        if !made[n] {
            continue;
        }
        let row = field_row(alloc, index, numbering, rows.as_slice(), class)?;
        rows[n] = kept(alloc, row.as_slice())?;
    }
    Ok(rows)
}

// The row of the methods of its chain, for each class that loads and has rows.
fn chain_rows(
    alloc: Global,
    index: &Index,
    made: &[bool],
    numbering: &Numbering,
    order: &[ClassId],
) -> Result<Vec<Items<RowItem>>, AllocError>
    requires made { made.now ≡ map (has_rows index.now) (names index.now) }
    requires numbering { IsNumbering index.now numbering.now }
    requires order { IsLoadOrder index.now order.now }
    ensures { IfOk result (λ rows. HasRows (λ x. IsRow index.now (chain_method index.now x)) index.now rows.items) }
{
    let _classes = index.count();
    let mut rows = no_rows(alloc, index)?;
    for class in order {
        let class = *class;
        let n = class.number() as usize;
        if !made[n] {
            continue;
        }
        let row = chain_row(alloc, index, numbering, rows.as_slice(), class)?;
        rows[n] = kept(alloc, row.as_slice())?;
    }
    Ok(rows)
}

/// The row of methods of each class that loads and has rows.
pub(crate) fn method_rows(
    alloc: Global,
    hierarchy: &Hierarchy,
    made: &[bool],
    numbering: &Numbering,
    order: &[ClassId],
) -> Result<Vec<Items<RowItem>>, AllocError>
    requires made { made.now ≡ map (has_rows hierarchy.now) (names hierarchy.now) }
    requires numbering { IsNumbering hierarchy.now numbering.now }
    requires order { IsLoadOrder hierarchy.now order.now }
    ensures { IfOk result (λ rows. HasRows (IsMethodRow hierarchy.now) hierarchy.now rows.items) }
{
    let index = hierarchy.index();
    let keys = numbering.keys.as_slice();
    let chains = chain_rows(alloc, index, made, numbering, order)?;
    let object = object_row(alloc, index, numbering)?;
    let _classes = hierarchy.count();
    let mut rows = no_rows(alloc, index)?;
    for class in order {
        let class = *class;
        let n = class.number() as usize;
        if !made[n] {
            continue;
        }
        let chain = chains[n].as_slice();
        let front = front_row(alloc, index, numbering, chain, object.as_slice(), class)?;
        let methods = method_row(
            alloc,
            hierarchy,
            keys,
            rows.as_slice(),
            front.as_slice(),
            class,
        )?;
        rows[n] = kept(alloc, methods.as_slice())?;
    }
    Ok(rows)
}
