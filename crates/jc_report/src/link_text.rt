//! The text of outcomes.
ghost use Rattle.std.specs.Prelude.{◌≡◌, ◌++◌, codes, OnOk, IfOk};
ghost use Rattle.jc_report.specs.LinkText.{word_of_outcome, words_of_item, words_of_subject, line_of_outcome, lines_of_outcomes, errors_of, word_of_link, link_text_of};
ghost use Rattle.jc_report.specs.Text.{printed, printed_key, printed_name, word_of_act};

use crate::printed::{push_decimal, push_key, push_name, push_printed};
use crate::printed_words::{act_word, error_name};
use jc_base::name::Name;
use jc_facts::act::Act;
use jc_facts::client::Item;
use jc_facts::key::Key;
use jc_facts::link_error::LinkError;
use jc_facts::outcome::Outcome;
use std::alloc::{AllocError, Global};

fn outcome_word(error: Option<LinkError>) -> &'static str
    ensures { result.now ≡ word_of_outcome error }
{
    match error {
        None => "ok",
        Some(error) => error_name(error),
    }
}

// A word, a class, and an initializer of this descriptor.
fn push_init(text: &mut Vec<u8>, class: &Name, descriptor: &Name) -> Result<(), AllocError>
    ensures { OnOk result (text.new.items ≡ text.old.items ++ (printed class.now ++ codes " <init>" ++ printed descriptor.now ++ codes " -")) }
{
    push_printed(text, class.as_bytes())?;
    text.extend_from_slice(b" <init>")?;
    push_printed(text, descriptor.as_bytes())?;
    text.extend_from_slice(b" -")?;
    Ok(())
}

fn push_access(
    text: &mut Vec<u8>,
    act: Act,
    class: &Name,
    key: &Key,
    receiver: &Option<Name>,
) -> Result<(), AllocError>
    ensures { OnOk result (text.new.items ≡ text.old.items ++ (word_of_act act ++ codes " " ++ printed class.now ++ codes " " ++ printed_key key.now ++ codes " " ++ printed_name receiver.now)) }
{
    text.extend_from_slice(act_word(act).as_bytes())?;
    text.extend_from_slice(b" ")?;
    push_printed(text, class.as_bytes())?;
    text.extend_from_slice(b" ")?;
    push_key(text, key)?;
    text.extend_from_slice(b" ")?;
    push_name(text, receiver)?;
    Ok(())
}

fn push_class(text: &mut Vec<u8>, class: &Name) -> Result<(), AllocError>
    ensures { OnOk result (text.new.items ≡ text.old.items ++ (codes "class " ++ printed class.now ++ codes " - -")) }
{
    text.extend_from_slice(b"class ")?;
    push_printed(text, class.as_bytes())?;
    text.extend_from_slice(b" - -")?;
    Ok(())
}

fn push_assign(text: &mut Vec<u8>, from: &Name, to: &Name) -> Result<(), AllocError>
    ensures { OnOk result (text.new.items ≡ text.old.items ++ (codes "assign " ++ printed from.now ++ codes " " ++ printed to.now ++ codes " -")) }
{
    text.extend_from_slice(b"assign ")?;
    push_printed(text, from.as_bytes())?;
    text.extend_from_slice(b" ")?;
    push_printed(text, to.as_bytes())?;
    text.extend_from_slice(b" -")?;
    Ok(())
}

// The words of an item: act, class, member and receiver.
fn push_item(text: &mut Vec<u8>, item: &Item) -> Result<(), AllocError>
    ensures { OnOk result (text.new.items ≡ text.old.items ++ words_of_item item.now) }
{
    match item {
        Item::Class { class } => push_class(text, class)?,
        Item::New { class, descriptor } => {
            text.extend_from_slice(b"new ")?;
            push_init(text, class, descriptor)?;
        }
        Item::Init { class, descriptor } => {
            text.extend_from_slice(b"init ")?;
            push_init(text, class, descriptor)?;
        }
        Item::Access {
            act,
            class,
            key,
            receiver,
            ..
        } => push_access(text, *act, class, key, receiver)?,
        Item::Assign { from, to } => push_assign(text, from, to)?,
    }
    Ok(())
}

// The class, or an item of it.
fn push_subject(text: &mut Vec<u8>, outcome: &Outcome) -> Result<(), AllocError>
    ensures { OnOk result (text.new.items ≡ text.old.items ++ words_of_subject outcome.now.«class» outcome.now.item) }
{
    match &outcome.item {
        None => {
            text.extend_from_slice(b"class ")?;
            push_printed(text, outcome.class.as_bytes())?;
            Ok(())
        }
        Some(item) => {
            text.extend_from_slice(b"item ")?;
            push_printed(text, outcome.class.as_bytes())?;
            text.extend_from_slice(b" ")?;
            push_item(text, item)?;
            Ok(())
        }
    }
}

#[tactic(auto, unfolding(crate::specs::LinkText::line_of_outcome))]
fn push_line(text: &mut Vec<u8>, outcome: &Outcome) -> Result<(), AllocError>
    ensures { OnOk result (text.new.items ≡ text.old.items ++ line_of_outcome outcome.now) }
{
    push_subject(text, outcome)?;
    text.extend_from_slice(b" ")?;
    text.extend_from_slice(outcome_word(outcome.error).as_bytes())?;
    text.extend_from_slice(b"\n")?;
    Ok(())
}

/// The line of an outcome, its line end with it.
///
/// # Errors
///
/// `AllocError` where memory runs out.
pub(crate) fn outcome_line(alloc: Global, outcome: &Outcome) -> Result<Vec<u8>, AllocError>
    ensures { IfOk result (λ line. line.items ≡ line_of_outcome outcome.now) }
{
    let mut line = Vec::new(alloc);
    push_line(&mut line, outcome)?;
    Ok(line)
}

/// The lines of outcomes, without the last line.
///
/// # Errors
///
/// `AllocError` where memory runs out.
pub fn lines(alloc: Global, outcomes: &[Outcome]) -> Result<Vec<u8>, AllocError>
    ensures { IfOk result (λ text. text.items ≡ lines_of_outcomes outcomes.now) }
{
    let mut text = Vec::new(alloc);
    for outcome in outcomes {
        push_line(&mut text, outcome)?;
    }
    Ok(text)
}

// How many of them aren't Ok.
fn count_errors(outcomes: &[Outcome]) -> usize
    ensures { result ≡ errors_of outcomes.now }
{
    let mut errors = 0;
    for outcome in outcomes {
        if outcome.error.is_some() {
            errors += 1;
        }
    }
    errors
}

fn link_word(errors: usize) -> &'static str
    ensures { result.now ≡ word_of_link errors }
{
    if errors == 0 { "links" } else { "refused" }
}

/// The text of outcomes: a line for each, `class NAME OUTCOME` or `item NAME ACT CLASS MEMBER
/// RECEIVER OUTCOME` with `-` for what isn't there, and the last line, which begins with `links` or,
/// where there is an error, with `refused`.
///
/// # Errors
///
/// `AllocError` where memory runs out.
#[tactic(auto, unfolding(crate::specs::LinkText::link_text_of))]
pub fn link_text(alloc: Global, outcomes: &[Outcome]) -> Result<Vec<u8>, AllocError>
    ensures { IfOk result (λ text. text.items ≡ link_text_of outcomes.now) }
{
    let mut text = lines(alloc, outcomes)?;
    let errors = count_errors(outcomes);
    text.extend_from_slice(link_word(errors).as_bytes())?;
    text.extend_from_slice(b": ")?;
    push_decimal(alloc, &mut text, outcomes.len())?;
    text.extend_from_slice(b" outcomes, ")?;
    push_decimal(alloc, &mut text, errors)?;
    text.extend_from_slice(b" errors\n")?;
    Ok(text)
}
