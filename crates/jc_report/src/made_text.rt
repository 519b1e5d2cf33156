//! The text of the verdict on generated releases.
ghost use Rattle.std.specs.Prelude.{◌≡◌, ◌++◌, IfOk, OnOk};
ghost use Rattle.jc_report.specs.MadeText.{line_of_count, made_text_of};

use crate::printed::push_decimal;
use crate::printed_words::verdict_word;
use jc_facts::verdict::Verdict;
use std::alloc::{AllocError, Global};

// A line of a word and a number.
fn push_count(alloc: Global, text: &mut Vec<u8>, word: &str, count: usize) -> Result<(), AllocError>
    ensures { OnOk result (text.new.items ≡ text.old.items ++ line_of_count word.now count) }
{
    text.extend_from_slice(word.as_bytes())?;
    text.extend_from_slice(b" ")?;
    push_decimal(alloc, text, count)?;
    text.extend_from_slice(b"\n")
}

/// The text of the verdict on two releases of so many classes, five lines: how many classes there are,
/// findings, collisions and notes, and `verdict compatible` or, where there is a finding,
/// `verdict incompatible`.
///
/// # Errors
///
/// `AllocError` where memory runs out.
#[tactic(auto, unfolding(crate::specs::MadeText::made_text_of))]
pub fn made_text(alloc: Global, classes: u32, verdict: &Verdict) -> Result<Vec<u8>, AllocError>
    ensures exact { IfOk result (λ text. text.items ≡ made_text_of classes verdict.now) }
{
    let findings = verdict.findings.as_slice();
    let collisions = verdict.collisions.as_slice();
    let notes = verdict.notes.as_slice();
    let mut text = Vec::new(alloc);
    push_count(alloc, &mut text, "classes", classes as usize)?;
    push_count(alloc, &mut text, "findings", findings.len())?;
    push_count(alloc, &mut text, "collisions", collisions.len())?;
    push_count(alloc, &mut text, "notes", notes.len())?;
    text.extend_from_slice(b"verdict ")?;
    text.extend_from_slice(verdict_word(findings).as_bytes())?;
    text.extend_from_slice(b"\n")?;
    Ok(text)
}
