//! The text of what is said of clients, with the lines of a check that explain it.
ghost use Rattle.std.specs.Prelude.{◌≡◌, ◌++◌, codes, IfOk, OnOk};
ghost use Rattle.jc_report.specs.LinkText.{words_of_subject, word_of_outcome};
ghost use Rattle.jc_answers.specs.UsedText.{printed_number, line_of_loss, explained_text_of, explained_client_of, line_of_used, used_text_of};

use crate::answer::Answer;
use crate::client_text::{fronted, last_of_losses};
use crate::clients_text::last_line;
use crate::pair::{Pair, pairs};
use crate::used::{Explained, UsedLine, used_lines};
use jc_facts::finding::Finding;
use jc_facts::outcome::Outcome;
use jc_losses::losses::Losses;
use jc_report::entries::lines;
use jc_report::entry::Entry;
use jc_report::printed::push_decimal;
use std::alloc::{AllocError, Global};

fn push_number(alloc: Global, line: &mut Vec<u8>, number: Option<usize>) -> Result<(), AllocError>
    ensures { OnOk result (line.new.items ≡ line.old.items ++ printed_number number) }
{
    match number {
        None => line.push(b'-')?,
        Some(number) => push_decimal(alloc, line, number)?,
    }
    Ok(())
}

// The words of an outcome, without the line end.
fn outcome_words(alloc: Global, outcome: &Outcome) -> Result<Vec<u8>, AllocError>
    ensures { IfOk result (λ words. words.items ≡ words_of_subject outcome.now.«class» outcome.now.item ++ codes " " ++ word_of_outcome outcome.now.error) }
{
    let mut line = outcome.line(alloc, 0)?;
    line.pop();
    Ok(line)
}

/// The line of a loss, its line end with it.
///
/// # Errors
///
/// `AllocError` where memory runs out.
pub(crate) fn loss_line(
    alloc: Global,
    loss: &Pair<'_, Outcome, Option<usize>>,
) -> Result<Vec<u8>, AllocError>
    ensures { IfOk result (λ line. line.items ≡ line_of_loss loss.now 0) }
{
    let mut line = outcome_words(alloc, loss.first)?;
    line.push(b' ')?;
    push_number(alloc, &mut line, *loss.second)?;
    line.push(b'\n')?;
    Ok(line)
}

fn losses_text(alloc: Global, losses: &Losses, explained: &Explained) -> Result<Vec<u8>, AllocError>
    ensures { IfOk result (λ text. text.items ≡ explained_text_of (Answer.Judged losses.now) explained.now) }
{
    let numbered = pairs(alloc, losses.lost.as_slice(), explained.numbers.as_slice())?;
    let mut text = lines(alloc, 0, numbered.as_slice())?;
    let last = last_of_losses(alloc, losses)?;
    text.extend_from_slice(last.as_slice())?;
    Ok(text)
}

fn explained_text(
    alloc: Global,
    answer: &Answer,
    explained: &Explained,
) -> Result<Vec<u8>, AllocError>
    ensures { IfOk result (λ text. text.items ≡ explained_text_of answer.now explained.now) }
{
    match answer {
        Answer::Judged(losses) => losses_text(alloc, losses, explained),
        Answer::Refused(stop) => stop.line(alloc),
    }
}

/// What is said of the client of this number, with its number before each line.
///
/// # Errors
///
/// `AllocError` where memory runs out.
pub(crate) fn explained_client(
    alloc: Global,
    number: usize,
    client: &Pair<'_, Answer, Explained>,
) -> Result<Vec<u8>, AllocError>
    ensures { IfOk result (λ text. text.items ≡ explained_client_of client.now number) }
{
    let of_client = explained_text(alloc, client.first, client.second)?;
    fronted(alloc, number, of_client.as_slice())
}

/// The line of a line that explains a loss, its line end with it.
///
/// # Errors
///
/// `AllocError` where memory runs out.
pub(crate) fn used_line(alloc: Global, used: &UsedLine<'_>) -> Result<Vec<u8>, AllocError>
    ensures { IfOk result (λ line. line.items ≡ line_of_used used.now 0) }
{
    let mut line = Vec::from_slice(alloc, b"used ")?;
    push_decimal(alloc, &mut line, used.clients)?;
    line.push(b' ')?;
    let of_finding = used.finding.line(alloc, used.number)?;
    line.extend_from_slice(of_finding.as_slice())?;
    Ok(line)
}

/// The text of what is said of clients, as `clients_text` gives it, where each loss has a further word, the
/// number of the line of the check that explains it, or `-`; and, before the last line, a line `used CLIENTS
/// LINE` for each of the check's lines that explains a loss: how many clients it breaks, and the line as
/// `check` prints it, which begins with its number. The entries are the findings of the check and then its collisions,
/// each as the finding that is printed as it is. Clients and losses without a list of numbers, or a number,
/// of their own are left out.
///
/// # Errors
///
/// `AllocError` where memory runs out.
#[tactic(auto, unfolding(crate::specs::UsedText::used_text_of))]
pub fn used_text(
    alloc: Global,
    answers: &[Answer],
    explained: &[Explained],
    entries: &[Finding],
) -> Result<Vec<u8>, AllocError>
    ensures { IfOk result (λ text. text.items ≡ used_text_of answers.now explained.now entries.now) }
{
    let clients = pairs(alloc, answers, explained)?;
    let mut text = lines(alloc, 1, clients.as_slice())?;
    let used = used_lines(alloc, explained, entries)?;
    let of_used = lines(alloc, 0, used.as_slice())?;
    text.extend_from_slice(of_used.as_slice())?;
    let last = last_line(alloc, answers)?;
    text.extend_from_slice(last.as_slice())?;
    Ok(text)
}
