//! Lines on calls, as text and as JSON.
ghost use Rattle.std.specs.Prelude.{◌≡◌, None, IfOk};
ghost use Rattle.serde_json.specs.View.{view};
ghost use Rattle.jc_report.specs.CallForms.{word_of_call, line_of_call, call_value_of};

use crate::entry::Entry;
use crate::json_values::{key_or_null_value, name_or_null_value, name_value};
use crate::printed::{push_member, push_printed};
use jc_call_kinds::call_line::{CallKind, CallLine};
use serde_json::{Value, json};
use std::alloc::{AllocError, Global};

// The word of a kind.
fn call_word(kind: CallKind) -> &'static str
    ensures { result.now ≡ word_of_call kind }
{
    match kind {
        CallKind::Reference => "reference",
        CallKind::Access => "access",
        CallKind::Joined => "joined",
        CallKind::Constants => "constants",
    }
}

// The line of one, its line end with it.
#[tactic(auto, unfolding(crate::specs::CallForms::line_of_call))]
fn call_line(alloc: Global, call: &CallLine) -> Result<Vec<u8>, AllocError>
    ensures { IfOk result (λ line. line.items ≡ line_of_call call.now) }
{
    let mut line = Vec::from_slice(alloc, b"call ")?;
    push_printed(&mut line, call.class.as_bytes())?;
    line.extend_from_slice(b" ")?;
    push_member(&mut line, &call.key, &call.target)?;
    line.extend_from_slice(b" ")?;
    line.extend_from_slice(call_word(call.kind).as_bytes())?;
    line.extend_from_slice(b"\n")?;
    Ok(line)
}

// The object of one.
fn call_value(alloc: Global, call: &CallLine) -> Result<Value, AllocError>
    ensures { IfOk result (λ v. view v ≡ call_value_of call.now) }
{
    json!(in alloc; {
        "class": name_value(alloc, &call.class)?,
        "kind": call_word(call.kind),
        "member": key_or_null_value(alloc, &call.key)?,
        "target": name_or_null_value(alloc, &call.target)?
    })
}

impl Entry for CallLine {
    ghost printed = { λ call number. line_of_call call };

    ghost shaped = { λ call number. call_value_of call };

    fn line(&self, alloc: Global, _number: usize) -> Result<Vec<u8>, AllocError> {
        call_line(alloc, self)
    }

    fn value(&self, alloc: Global, _number: usize) -> Result<Value, AllocError> {
        call_value(alloc, self)
    }
}
