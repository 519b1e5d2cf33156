//! The rows of what a class names above itself, added to its own.
ghost use Rattle.std.specs.Prelude.{◌≡◌, IfOk};
ghost use Rattle.jc_rows.specs.Rows.{Rises};
ghost use Rattle.jc_rows.specs.steps.Gathering.{AreRising, row_named, AddsRows, Gathers};

use crate::row::{RowItem, merge};
use jc_base::items::Items;
use jc_base::name::Name;
use jc_facts::class_facts::ClassFacts;
use jc_index::index::Index;
use std::alloc::{AllocError, Global};

/// The row of the class of this name; nothing where there is no such class.
pub(crate) fn row_of<'a>(index: &Index, rows: &'a [Items<RowItem>], name: &[u8]) -> &'a [RowItem]
    requires { AreRising index.now rows.now }
    ensures { result.now ≡ row_named index.now rows.now name.now }
{
    match index.get(name) {
        Some(class) => rows[class.number() as usize].as_slice(),
        None => &[],
    }
}

// What the row has, else what the rows of these classes have, in order.
fn with_rows(
    alloc: Global,
    index: &Index,
    rows: &[Items<RowItem>],
    names: &[Name],
    first: Vec<RowItem>,
) -> Result<Vec<RowItem>, AllocError>
    requires rising { AreRising index.now rows.now }
    requires rises { Rises first.items }
    ensures { IfOk result (λ row. AddsRows index.now rows.now names.now first.items row.items) }
{
    let mut row = first;
    for name in names {
        let above = row_of(index, rows, name.as_bytes());
        row = merge(alloc, row.as_slice(), above)?;
    }
    Ok(row)
}

/// What the first has, else what the rows of the interfaces that the class names have, in order, else
/// what the row of its superclass has.
pub(crate) fn gathered(
    alloc: Global,
    index: &Index,
    rows: &[Items<RowItem>],
    facts: &ClassFacts,
    first: Vec<RowItem>,
) -> Result<Vec<RowItem>, AllocError>
    requires rising { AreRising index.now rows.now }
    requires rises { Rises first.items }
    ensures { IfOk result (λ row. Gathers index.now rows.now facts.now first.items row.items) }
{
    let row = with_rows(alloc, index, rows, facts.interfaces.as_slice(), first)?;
    match &facts.superclass {
        Some(name) => {
            let above = row_of(index, rows, name.as_bytes());
            let whole = merge(alloc, row.as_slice(), above)?;
            Ok(whole)
        }
        None => Ok(row),
    }
}
