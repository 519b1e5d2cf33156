//! The text of what is said of one client.
ghost use Rattle.std.specs.Prelude.{◌≡◌, true, IfOk};
ghost use Rattle.jc_answers.specs.ClientsText.{word_of_losses, line_of_counts, last_line_of_losses, losses_text_of, answer_text_of, client_front, client_text_of};
ghost use Rattle.jc_report.specs.HistoryText.{with_front};

use crate::answer::Answer;
use jc_losses::losses::Losses;
use jc_report::history_text::push_lines;
use jc_report::link_text::lines;
use jc_report::printed::push_decimal;
use std::alloc::{AllocError, Global};

fn losses_word(lost: usize) -> &'static str
    ensures { result.now ≡ word_of_losses lost }
{
    if lost == 0 { "keeps" } else { "breaks" }
}

// The last line of what one client loses, its line end with it.
fn losses_line(
    alloc: Global,
    classes: usize,
    outcomes: usize,
    errors: usize,
    lost: usize,
) -> Result<Vec<u8>, AllocError>
    ensures { IfOk result (λ line. line.items ≡ line_of_counts classes outcomes errors lost) }
{
    let mut line = Vec::from_slice(alloc, losses_word(lost).as_bytes())?;
    line.extend_from_slice(b": ")?;
    push_decimal(alloc, &mut line, classes)?;
    line.extend_from_slice(b" classes, ")?;
    push_decimal(alloc, &mut line, outcomes)?;
    line.extend_from_slice(b" outcomes, ")?;
    push_decimal(alloc, &mut line, errors)?;
    line.extend_from_slice(b" errors before, ")?;
    push_decimal(alloc, &mut line, lost)?;
    line.extend_from_slice(b" lost\n")?;
    Ok(line)
}

/// The same of these losses.
///
/// # Errors
///
/// `AllocError` where memory runs out.
pub(crate) fn last_of_losses(alloc: Global, losses: &Losses) -> Result<Vec<u8>, AllocError>
    ensures { IfOk result (λ line. line.items ≡ last_line_of_losses losses.now) }
{
    losses_line(
        alloc,
        losses.classes,
        losses.outcomes,
        losses.errors,
        losses.lost.as_slice().len(),
    )
}

// The text of what one client loses.
#[tactic(auto, unfolding(crate::specs::ClientsText::losses_text_of))]
fn losses_text(alloc: Global, losses: &Losses) -> Result<Vec<u8>, AllocError>
    ensures { IfOk result (λ text. text.items ≡ losses_text_of losses.now) }
{
    let mut text = lines(alloc, losses.lost.as_slice())?;
    let last = last_of_losses(alloc, losses)?;
    text.extend_from_slice(last.as_slice())?;
    Ok(text)
}

fn answer_text(alloc: Global, answer: &Answer) -> Result<Vec<u8>, AllocError>
    ensures { IfOk result (λ text. text.items ≡ answer_text_of answer.now) }
{
    match answer {
        Answer::Judged(losses) => losses_text(alloc, losses),
        Answer::Refused(stop) => stop.line(alloc),
    }
}

// What stands before each line of the client of this number.
fn front_of(alloc: Global, number: usize) -> Result<Vec<u8>, AllocError>
    ensures { IfOk result (λ front. front.items ≡ client_front number) }
{
    let mut front = Vec::from_slice(alloc, b"client ")?;
    push_decimal(alloc, &mut front, number)?;
    front.push(b' ')?;
    Ok(front)
}

/// The lines of the client of this number, with that before each.
///
/// # Errors
///
/// `AllocError` where memory runs out.
pub(crate) fn fronted(alloc: Global, number: usize, of_client: &[u8]) -> Result<Vec<u8>, AllocError>
    ensures { IfOk result (λ text. text.items ≡ with_front (client_front number) true of_client.now) }
{
    let front = front_of(alloc, number)?;
    let mut text = Vec::new(alloc);
    push_lines(&mut text, front.as_slice(), of_client)?;
    Ok(text)
}

/// Its lines, with its number before each.
///
/// # Errors
///
/// `AllocError` where memory runs out.
pub(crate) fn client_text(
    alloc: Global,
    number: usize,
    answer: &Answer,
) -> Result<Vec<u8>, AllocError>
    ensures { IfOk result (λ text. text.items ≡ client_text_of answer.now number) }
{
    let of_client = answer_text(alloc, answer)?;
    fronted(alloc, number, of_client.as_slice())
}
