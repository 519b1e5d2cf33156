//! The JSON of what is said of clients.
ghost use Rattle.std.specs.Prelude.{◌≡◌, ◌<◌, ◌^◌, length, IfOk};
ghost use Rattle.serde_json.specs.View.{view};
ghost use Rattle.jc_answers.specs.ClientsJson.{total_json, clients_json, clients_json_of, clients_bytes as bytes_of};

use crate::answer::Answer;
use crate::clients_text::{clients_text, count_broken, count_refused};
use jc_report::entries::values;
use jc_report::json_line::json_line;
use serde_json::{Value, json};
use std::alloc::{AllocError, Global};

/// How many clients there are, how many lose something, and how many aren't linked.
///
/// # Errors
///
/// `AllocError` where memory runs out.
pub(crate) fn total_value(alloc: Global, answers: &[Answer]) -> Result<Value, AllocError>
    ensures { IfOk result (λ v. view v ≡ total_json answers.now) }
{
    json!(in alloc; {
        "broken": count_broken(answers),
        "clients": answers.len(),
        "refused": count_refused(answers)
    })
}

fn clients_value(alloc: Global, answers: &[Answer]) -> Result<Value, AllocError>
    ensures { IfOk result (λ v. view v ≡ clients_json answers.now) }
{
    let clients = values(alloc, 1, answers)?;
    json!(in alloc; {
        "clients": Value::Array(clients),
        "total": total_value(alloc, answers)?
    })
}

// One object without spaces, and a line end.
#[tactic(auto, unfolding(crate::specs::ClientsJson::clients_json_of))]
fn clients_line(alloc: Global, answers: &[Answer]) -> Result<Vec<u8>, AllocError>
    ensures { IfOk result (λ text. text.items ≡ clients_json_of answers.now) }
{
    let value = clients_value(alloc, answers)?;
    json_line(alloc, &value)
}

/// The JSON of what is said of clients where it is asked for, and else the text. The JSON is one object
/// without spaces, and a line end. Its keys are `clients` and `total`. Each client has the keys `classes`,
/// `errors`, `lost`, `number`, `outcomes` and `refusal`, of which those of what isn't there are null; each
/// loss has `class`, `error`, `member`, `name`, `operation` and `receiver`; a refusal has `class`, `path`
/// and `reason`; the total has `broken`, `clients` and `refused`. Names are printed as in the text, and keys
/// stand in byte order.
///
/// # Errors
///
/// `AllocError` where memory runs out.
pub fn clients_bytes(
    alloc: Global,
    as_json: bool,
    answers: &[Answer],
) -> Result<Vec<u8>, AllocError>
    ensures { IfOk result (λ bytes. bytes.items ≡ bytes_of as_json answers.now) }
{
    if as_json {
        clients_line(alloc, answers)
    } else {
        clients_text(alloc, answers)
    }
}
