//! A row: members by the numbers of their keys, which rise.
ghost use Rattle.std.specs.Prelude.{◌≡◌, IfOk, IsTrue};
ghost use Rattle.jc_rows.specs.Rows.{entry, Rises};
ghost use Rattle.jc_rows.specs.steps.Merging.{IsMerged, IsRowOf};

use jc_index::ids::Found;
use std::alloc::{AllocError, Global};
use std::cmp::Ordering;

/// What a lookup finds for the key of a number.
#[derive(Clone, Copy, PartialEq, Eq, Debug)]
pub struct RowItem {
    pub key: usize,
    pub found: Found,
}

/// The entries of two rows; where both have one for a key, that of the first.
///
/// # Errors
///
/// `AllocError` where memory runs out.
pub fn merge(
    alloc: Global,
    first: &[RowItem],
    second: &[RowItem],
) -> Result<Vec<RowItem>, AllocError>
    requires first { Rises first.now }
    requires second { Rises second.now }
    ensures { IfOk result (λ row. IsMerged first.now second.now row.items) }
{
    let mut row = Vec::with_capacity(alloc, first.len() + second.len())?;
    let mut i = 0;
    let mut j = 0;
    while i < first.len() && j < second.len() {
        let left = first[i];
        let right = second[j];
        match left.key.cmp(&right.key) {
            Ordering::Less => {
                row.push(left)?;
                i += 1;
            }
            Ordering::Equal => {
                row.push(left)?;
                i += 1;
                j += 1;
            }
            Ordering::Greater => {
                row.push(right)?;
                j += 1;
            }
        }
    }
    row.extend_from_slice(&first[i..])?;
    row.extend_from_slice(&second[j..])?;
    Ok(row)
}

// Whether the keys of the items rise.
fn is_rising(items: &[RowItem]) -> bool
    ensures { IsTrue result → Rises items.now }
{
    for at in 1..items.len() {
        let before = items[at - 1].key;
        let key = items[at].key;
        if key <= before {
            return false;
        }
    }
    true
}

/// The items in the order of their keys; of those of one key the first.
///
/// # Errors
///
/// `AllocError` where memory runs out.
pub fn sorted(alloc: Global, items: &[RowItem]) -> Result<Vec<RowItem>, AllocError>
    ensures { IfOk result (λ row. IsRowOf items.now row.items) }
{
    if items.len() <= 1 || is_rising(items) {
        let row = Vec::from_slice(alloc, items)?;
        return Ok(row);
    }
    let (front, back) = items.split_at(items.len() / 2);
    let first = sorted(alloc, front)?;
    let second = sorted(alloc, back)?;
    let row = merge(alloc, first.as_slice(), second.as_slice())?;
    Ok(row)
}

/// The entry of the row for the key of this number; none where it has none.
pub fn find(row: &[RowItem], key: usize) -> Option<Found>
    requires { Rises row.now }
    ensures { result ≡ entry row.now key }
{
    let mut low = 0;
    let mut high = row.len();
    while low < high {
        let middle = low + (high - low) / 2;
        let item = row[middle];
        match item.key.cmp(&key) {
            Ordering::Less => low = middle + 1,
            Ordering::Equal => return Some(item.found),
            Ordering::Greater => high = middle,
        }
    }
    None
}
