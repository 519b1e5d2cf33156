//! Putting a listing: items that have a line and an object each.
ghost use Rattle.std.specs.Prelude.{◌≡◌, ◌≤◌, ◌<◌, ◌^◌, false, length, IfOk, OnOk, OnErr, IsErrOf};
ghost use Rattle.serde_json.specs.View.{view};
ghost use Rattle.serde_json.specs.Written.{has_float};
ghost use Rattle.jc_base.specs.Causes.{Rose};
ghost use Rattle.jc_base.specs.Outside.{TakesAll, TakesFront};
ghost use Rattle.jc_report.specs.Listing.{json_line as line_of, listing_bytes, listing_json, values_from};

use crate::entries::values;
use crate::entry::Entry;
use crate::json_line::json_line;
use crate::put_text::put_each;
use jc_base::sink::{Sink, SinkError};
use serde_json::{Value, json};
use std::alloc::{AllocError, Global};

// One object, whose one key has the objects of the items.
fn listing_value<E: Entry>(alloc: Global, key: &str, items: &[E]) -> Result<Value, AllocError>
    requires { length items.now < 2 ^ 63 }
    ensures exact { IfOk result (λ v. view v ≡ listing_json key.now (values_from E.shaped 1 items.now)) }
    ensures plain { IfOk result (λ v. has_float (view v) ≡ false) }
{
    let values = values(alloc, 1, items)?;
    json!(in alloc; { key: Value::Array(values) })
}

/// Its text: one object without spaces, and a line end.
///
/// # Errors
///
/// `AllocError` where memory runs out.
pub fn listing<E: Entry>(alloc: Global, key: &str, items: &[E]) -> Result<Vec<u8>, AllocError>
    requires { length items.now < 2 ^ 63 }
    ensures { IfOk result (λ text. text.items ≡ line_of (listing_json key.now (values_from E.shaped 1 items.now))) }
{
    let value = listing_value(alloc, key, items)?;
    json_line(alloc, &value)
}

/// Puts a listing: as text one call for each line with its line end, each of which is made, put and
/// dropped; as JSON one object in one call, whose one key has the objects of the items. Items are numbered
/// from 1. Nothing is put after a failed call or where there is no memory for what is next.
///
/// # Errors
///
/// `SinkError::Fault` where a put failed, and `SinkError::Memory` where memory runs out.
pub fn put_listing<O: Sink, E: Entry>(
    alloc: Global,
    as_json: bool,
    key: &str,
    items: &[E],
    out: &mut O,
) -> Result<(), SinkError>
    requires { length items.now < 2 ^ 63 }
    ensures ok { OnOk result (TakesAll (O.state out.old).taken (O.state out.new).taken (listing_bytes as_json key.now E.printed E.shaped items.now)) }
    ensures err { OnErr result (TakesFront (O.state out.old).taken (O.state out.new).taken (listing_bytes as_json key.now E.printed E.shaped items.now)) }
    ensures never_falls { (O.state out.old).faults ≤ (O.state out.new).faults }
    ensures cause { IsErrOf result SinkError.Fault → Rose (O.state out.old).faults (O.state out.new).faults }
{
    if !as_json {
        return match put_each(alloc, &[], 1, items, out) {
            Ok(()) => Ok(()),
            Err(error) => Err(error),
        };
    }
    let Ok(bytes) = listing(alloc, key, items) else {
        return Err(SinkError::Memory);
    };
    match out.put(bytes.as_slice()) {
        Ok(()) => Ok(()),
        Err(error) => Err(error),
    }
}
