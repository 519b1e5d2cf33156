//! The JSON of a verdict.
ghost use Rattle.std.specs.Prelude.{◌≡◌, ◌≤◌, IfOk, OnOk, OnErr, IsErrOf};
ghost use Rattle.serde_json.specs.View.{view};
ghost use Rattle.jc_base.specs.Causes.{Rose};
ghost use Rattle.jc_base.specs.Outside.{TakesAll, TakesFront};
ghost use Rattle.jc_report.specs.Json.{verdict_json, json_of};

use crate::entries::values;
use crate::json_line::json_line;
use crate::printed_words::verdict_word;
use jc_base::sink::{Sink, SinkError};
use jc_facts::verdict::Verdict;
use serde_json::{Value, json};
use std::alloc::{AllocError, Global};

fn verdict_value(alloc: Global, verdict: &Verdict) -> Result<Value, AllocError>
    ensures { IfOk result (λ v. view v ≡ verdict_json verdict.now) }
{
    let findings = verdict.findings.as_slice();
    let collisions = values(alloc, findings.len() + 1, verdict.collisions.as_slice())?;
    let notes = values(alloc, 0, verdict.notes.as_slice())?;
    json!(in alloc; {
        "collisions": Value::Array(collisions),
        "findings": Value::Array(values(alloc, 1, findings)?),
        "notes": Value::Array(notes),
        "verdict": verdict_word(findings)
    })
}

/// The JSON of a verdict: one object without spaces, and a line end. Its keys are `collisions`,
/// `findings`, `notes` and `verdict`. Each finding and collision has the keys `class`, `error`,
/// `member`, `number`, `operation`, `rule` and `seat`; each note has `class`, `detail`, `kind`,
/// `member` and `side`. What isn't there is null, names are printed as in the text, and keys stand in
/// byte order.
///
/// # Errors
///
/// `AllocError` where memory runs out.
#[tactic(auto, unfolding(crate::specs::Json::json_of))]
pub fn json(alloc: Global, verdict: &Verdict) -> Result<Vec<u8>, AllocError>
    ensures exact { IfOk result (λ text. text.items ≡ json_of verdict.now) }
{
    let value = verdict_value(alloc, verdict)?;
    json_line(alloc, &value)
}

/// Puts the JSON of a verdict in one call. Nothing is put where there is no memory for it.
///
/// # Errors
///
/// `SinkError::Fault` where the put failed, and `SinkError::Memory` where memory runs out.
pub fn put_json<O: Sink>(alloc: Global, verdict: &Verdict, out: &mut O) -> Result<(), SinkError>
    ensures ok { OnOk result (TakesAll (O.state out.old).taken (O.state out.new).taken (json_of verdict.now)) }
    ensures err { OnErr result (TakesFront (O.state out.old).taken (O.state out.new).taken (json_of verdict.now)) }
    ensures never_falls { (O.state out.old).faults ≤ (O.state out.new).faults }
    ensures cause { IsErrOf result SinkError.Fault → Rose (O.state out.old).faults (O.state out.new).faults }
{
    let Ok(bytes) = json(alloc, verdict) else {
        return Err(SinkError::Memory);
    };
    match out.put(bytes.as_slice()) {
        Ok(()) => Ok(()),
        Err(error) => Err(error),
    }
}
