//! The text of what is said of clients.
ghost use Rattle.std.specs.Prelude.{◌≡◌, ◌++◌, not, ◌==◌, length, count_by, IfOk};
ghost use Rattle.jc_answers.specs.ClientsText.{is_broken as breaks, is_refused as refuses, last_line_of_clients, clients_text_of, are_all_kept as all_kept};

use crate::answer::Answer;
use jc_report::entries::lines;
use jc_report::printed::push_decimal;
use std::alloc::{AllocError, Global};

fn is_broken(answer: &Answer) -> bool
    ensures { result ≡ breaks answer.now }
{
    match answer {
        Answer::Judged(losses) => losses.lost.as_slice().len() != 0,
        Answer::Refused(_) => false,
    }
}

fn is_refused(answer: &Answer) -> bool
    ensures { result ≡ refuses answer.now }
{
    match answer {
        Answer::Judged(_) => false,
        Answer::Refused(_) => true,
    }
}

/// How many of them lose something.
pub(crate) fn count_broken(answers: &[Answer]) -> usize
    ensures { result ≡ count_by breaks answers.now }
{
    let mut count = 0;
    for answer in answers {
        if is_broken(answer) {
            count += 1;
        }
    }
    count
}

/// How many of them aren't linked.
pub(crate) fn count_refused(answers: &[Answer]) -> usize
    ensures { result ≡ count_by refuses answers.now }
{
    let mut count = 0;
    for answer in answers {
        if is_refused(answer) {
            count += 1;
        }
    }
    count
}

/// The last line, its line end with it.
///
/// # Errors
///
/// `AllocError` where memory runs out.
pub(crate) fn last_line(alloc: Global, answers: &[Answer]) -> Result<Vec<u8>, AllocError>
    ensures { IfOk result (λ line. line.items ≡ last_line_of_clients answers.now) }
{
    let mut line = Vec::from_slice(alloc, b"clients: ")?;
    push_decimal(alloc, &mut line, answers.len())?;
    line.extend_from_slice(b" clients, ")?;
    push_decimal(alloc, &mut line, count_broken(answers))?;
    line.extend_from_slice(b" broken, ")?;
    push_decimal(alloc, &mut line, count_refused(answers))?;
    line.extend_from_slice(b" refused\n")?;
    Ok(line)
}

/// The text of what is said of clients: of each a line for each loss, as `link` prints that outcome with
/// the new release, and a line which begins with `keeps` or `breaks`, or the line that says why it isn't
/// linked, with `client N ` before each line, where N is its number from 1 on; and the last line.
///
/// # Errors
///
/// `AllocError` where memory runs out.
#[tactic(auto, unfolding(crate::specs::ClientsText::clients_text_of))]
pub fn clients_text(alloc: Global, answers: &[Answer]) -> Result<Vec<u8>, AllocError>
    ensures { IfOk result (λ text. text.items ≡ clients_text_of answers.now) }
{
    let mut text = lines(alloc, 1, answers)?;
    let last = last_line(alloc, answers)?;
    text.extend_from_slice(last.as_slice())?;
    Ok(text)
}

/// Whether each client is linked, and loses nothing.
pub fn are_all_kept(answers: &[Answer]) -> bool
    ensures { result ≡ all_kept answers.now }
{
    answers
        .iter()
        .all(|answer| !is_broken(answer) && !is_refused(answer))
}
