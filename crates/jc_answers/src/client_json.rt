//! The JSON of what is said of one client.
ghost use Rattle.std.specs.Prelude.{◌≡◌, map, IfOk};
ghost use Rattle.serde_json.specs.View.{view};
ghost use Rattle.jc_answers.specs.ClientsJson.{unread_json, refusal_json, losses_with as with_losses, losses_json, refused_json, client_json};

use crate::answer::Answer;
use jc_losses::losses::Losses;
use jc_releases::stop::{Stop, client_part_name, file_text};
use jc_report::entries::values;
use jc_report::json_values::printed_value;
use jc_trees::file_fault::TreeFault;
use serde_json::{Value, json};
use std::alloc::{AllocError, Global};

// Why a tree isn't read.
fn unread_value(alloc: Global, fault: &TreeFault) -> Result<Value, AllocError>
    ensures { IfOk result (λ v. view v ≡ unread_json fault.now) }
{
    match fault {
        TreeFault::TooManyFiles => json!(in alloc; {
            "class": null,
            "path": null,
            "reason": "limit files"
        }),
        TreeFault::LongPath => json!(in alloc; {
            "class": null,
            "path": null,
            "reason": "limit path"
        }),
        TreeFault::File(path, fault) => json!(in alloc; {
            "class": null,
            "path": printed_value(alloc, path.as_str().as_bytes())?,
            "reason": file_text(alloc, fault)?
        }),
    }
}

// Why clients aren't linked.
fn refusal_value(alloc: Global, stop: &Stop) -> Result<Value, AllocError>
    ensures { IfOk result (λ v. view v ≡ refusal_json stop.now) }
{
    match stop {
        Stop::ClientName(name, part) => json!(in alloc; {
            "class": printed_value(alloc, name.as_bytes())?,
            "path": null,
            "reason": client_part_name(*part)
        }),
        Stop::Unread(_, fault) => unread_value(alloc, fault),
        Stop::Usage(_)
        | Stop::BadRoot(_)
        | Stop::Overlap(..)
        | Stop::TooMany(_)
        | Stop::ReadFault(_)
        | Stop::Memory => Ok(Value::Null),
    }
}

/// The object of what a client loses, by the objects of its losses.
///
/// # Errors
///
/// `AllocError` where memory runs out.
pub(crate) fn losses_with(
    alloc: Global,
    number: usize,
    losses: &Losses,
    lost: Vec<Value>,
) -> Result<Value, AllocError>
    ensures { IfOk result (λ v. view v ≡ with_losses number losses.now (map view lost.items)) }
{
    json!(in alloc; {
        "classes": losses.classes,
        "errors": losses.errors,
        "lost": Value::Array(lost),
        "number": number,
        "outcomes": losses.outcomes,
        "refusal": null
    })
}

// The object of what a client loses.
fn losses_value(alloc: Global, number: usize, losses: &Losses) -> Result<Value, AllocError>
    ensures { IfOk result (λ v. view v ≡ losses_json number losses.now) }
{
    let lost = values(alloc, 0, losses.lost.as_slice())?;
    losses_with(alloc, number, losses, lost)
}

/// The object of a client of this number that isn't linked.
///
/// # Errors
///
/// `AllocError` where memory runs out.
pub(crate) fn refused_value(alloc: Global, number: usize, stop: &Stop) -> Result<Value, AllocError>
    ensures { IfOk result (λ v. view v ≡ refused_json number stop.now) }
{
    json!(in alloc; {
        "classes": null,
        "errors": null,
        "lost": null,
        "number": number,
        "outcomes": null,
        "refusal": refusal_value(alloc, stop)?
    })
}

/// The object of what is said of the client of this number.
///
/// # Errors
///
/// `AllocError` where memory runs out.
pub(crate) fn client_value(
    alloc: Global,
    number: usize,
    answer: &Answer,
) -> Result<Value, AllocError>
    ensures { IfOk result (λ v. view v ≡ client_json answer.now number) }
{
    match answer {
        Answer::Judged(losses) => losses_value(alloc, number, losses),
        Answer::Refused(stop) => refused_value(alloc, number, stop),
    }
}
