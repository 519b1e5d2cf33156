//! The JSON of what is said of clients, with the lines of a check that explain it.
ghost use Rattle.std.specs.Prelude.{◌≡◌, map, IfOk};
ghost use Rattle.serde_json.specs.View.{view};
ghost use Rattle.jc_answers.specs.UsedJson.{with_member, number_or_null, loss_json, explained_json, explained_client_json, used_line_json, used_with as with_used, used_json as json_of, used_json_of, used_bytes as bytes_of};

use crate::answer::Answer;
use crate::client_json::{losses_with, refused_value};
use crate::clients_json::total_value;
use crate::pair::{Pair, pairs};
use crate::used::{Explained, UsedLine, used_lines};
use crate::used_text::used_text;
use jc_facts::finding::Finding;
use jc_facts::outcome::Outcome;
use jc_losses::losses::Losses;
use jc_report::entries::values;
use jc_report::entry::Entry;
use jc_report::json_line::json_line;
use serde_json::{Value, json};
use std::alloc::{AllocError, Global};

// The object with one more member.
fn with_one_more(alloc: Global, value: Value, key: &str, member: Value) -> Result<Value, AllocError>
    ensures { IfOk result (λ v. view v ≡ with_member key.now (view member) (view value)) }
{
    match value {
        Value::Object(members) => {
            let mut members = members;
            serde_json::put(&mut members, alloc, key, member)?;
            Ok(Value::Object(members))
        }
        other => Ok(other),
    }
}

fn number_value(alloc: Global, number: Option<usize>) -> Result<Value, AllocError>
    ensures { IfOk result (λ v. view v ≡ number_or_null number) }
{
    match number {
        None => Ok(Value::Null),
        Some(number) => json!(in alloc; number),
    }
}

/// The object of a loss.
///
/// # Errors
///
/// `AllocError` where memory runs out.
pub(crate) fn loss_value(
    alloc: Global,
    loss: &Pair<'_, Outcome, Option<usize>>,
) -> Result<Value, AllocError>
    ensures { IfOk result (λ v. view v ≡ loss_json loss.now 0) }
{
    let outcome = loss.first.value(alloc, 0)?;
    let number = number_value(alloc, *loss.second)?;
    with_one_more(alloc, outcome, "explained", number)
}

fn losses_value(
    alloc: Global,
    number: usize,
    losses: &Losses,
    explained: &Explained,
) -> Result<Value, AllocError>
    ensures { IfOk result (λ v. view v ≡ explained_json (Answer.Judged losses.now) explained.now number) }
{
    let numbered = pairs(alloc, losses.lost.as_slice(), explained.numbers.as_slice())?;
    let lost = values(alloc, 0, numbered.as_slice())?;
    losses_with(alloc, number, losses, lost)
}

/// The object of what is said of the client of this number.
///
/// # Errors
///
/// `AllocError` where memory runs out.
pub(crate) fn explained_client_value(
    alloc: Global,
    number: usize,
    client: &Pair<'_, Answer, Explained>,
) -> Result<Value, AllocError>
    ensures { IfOk result (λ v. view v ≡ explained_client_json client.now number) }
{
    match client.first {
        Answer::Judged(losses) => losses_value(alloc, number, losses, client.second),
        Answer::Refused(stop) => refused_value(alloc, number, stop),
    }
}

/// The object of a line that explains a loss.
///
/// # Errors
///
/// `AllocError` where memory runs out.
pub(crate) fn used_value(alloc: Global, used: &UsedLine<'_>) -> Result<Value, AllocError>
    ensures { IfOk result (λ v. view v ≡ used_line_json used.now 0) }
{
    let finding = used.finding.value(alloc, used.number)?;
    let clients = json!(in alloc; used.clients)?;
    with_one_more(alloc, finding, "clients", clients)
}

fn used_with(
    alloc: Global,
    clients: Vec<Value>,
    total: Value,
    used: Vec<Value>,
) -> Result<Value, AllocError>
    ensures { IfOk result (λ v. view v ≡ with_used (map view clients.items) (view total) (map view used.items)) }
{
    json!(in alloc; {
        "clients": Value::Array(clients),
        "total": total,
        "used": Value::Array(used)
    })
}

fn document(
    alloc: Global,
    answers: &[Answer],
    explained: &[Explained],
    entries: &[Finding],
) -> Result<Value, AllocError>
    ensures { IfOk result (λ v. view v ≡ json_of answers.now explained.now entries.now) }
{
    let clients = pairs(alloc, answers, explained)?;
    let of_clients = values(alloc, 1, clients.as_slice())?;
    let used = used_lines(alloc, explained, entries)?;
    let of_used = values(alloc, 0, used.as_slice())?;
    let total = total_value(alloc, answers)?;
    used_with(alloc, of_clients, total, of_used)
}

/// The JSON of what is said of clients, as `clients_bytes` gives it, where each loss has a further key
/// `explained`, the number of the line of the check that explains it, or null; and the object has a further
/// key `used`, whose objects are those of the check's lines that explain a loss, with a further key
/// `clients`, which says how many clients it breaks. The entries are the findings of the check and then its
/// collisions, each as the finding that is printed as it is. Clients and losses without a list of numbers,
/// or a number, of their own are left out.
///
/// # Errors
///
/// `AllocError` where memory runs out.
#[tactic(auto, unfolding(crate::specs::UsedJson::used_json_of))]
pub fn used_json(
    alloc: Global,
    answers: &[Answer],
    explained: &[Explained],
    entries: &[Finding],
) -> Result<Vec<u8>, AllocError>
    ensures { IfOk result (λ text. text.items ≡ used_json_of answers.now explained.now entries.now) }
{
    let value = document(alloc, answers, explained, entries)?;
    json_line(alloc, &value)
}

/// The same where it is asked for, and else the text.
///
/// # Errors
///
/// `AllocError` where memory runs out.
pub fn used_bytes(
    alloc: Global,
    as_json: bool,
    answers: &[Answer],
    explained: &[Explained],
    entries: &[Finding],
) -> Result<Vec<u8>, AllocError>
    ensures { IfOk result (λ bytes. bytes.items ≡ bytes_of as_json answers.now explained.now entries.now) }
{
    if as_json {
        used_json(alloc, answers, explained, entries)
    } else {
        used_text(alloc, answers, explained, entries)
    }
}
