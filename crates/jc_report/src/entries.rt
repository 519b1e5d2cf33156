//! The lines and the objects of a list of items.
ghost use Rattle.std.specs.Prelude.{◌≡◌, ◌+◌, ◌<◌, ◌^◌, false, length, map, IfOk};
ghost use Rattle.serde_json.specs.View.{view, items_of};
ghost use Rattle.serde_json.specs.Written.{items_have_float};
ghost use Rattle.jc_report.specs.Listing.{lines_from, values_from};

use crate::entry::Entry;
use serde_json::Value;
use std::alloc::{AllocError, Global};

/// The lines of the items, whose numbers go on from this one.
///
/// # Errors
///
/// `AllocError` where memory runs out.
pub fn lines<E: Entry>(alloc: Global, first: usize, items: &[E]) -> Result<Vec<u8>, AllocError>
    requires { first + length items.now < 2 ^ 64 }
    ensures { IfOk result (λ text. text.items ≡ lines_from E.printed first items.now) }
{
    let mut text = Vec::new(alloc);
    for (i, item) in items.iter().enumerate() {
        let line = item.line(alloc, first + i)?;
        text.extend_from_slice(line.as_slice())?;
    }
    Ok(text)
}

/// The objects of the items, whose numbers go on from this one.
///
/// # Errors
///
/// `AllocError` where memory runs out.
pub fn values<E: Entry>(alloc: Global, first: usize, items: &[E]) -> Result<Vec<Value>, AllocError>
    requires { first + length items.now < 2 ^ 64 }
    ensures exact { IfOk result (λ values. map view values.items ≡ values_from E.shaped first items.now) }
    ensures plain { IfOk result (λ values. items_have_float (items_of (values_from E.shaped first items.now)) ≡ false) }
{
    let mut values = Vec::new(alloc);
    for (i, item) in items.iter().enumerate() {
        values.push(item.value(alloc, first + i)?)?;
    }
    Ok(values)
}
