//! The text of a verdict.
ghost use Rattle.std.specs.Prelude.{◌≡◌, ◌++◌, codes, length, IfOk};
ghost use Rattle.std.specs.Fmt.{decimal};
ghost use Rattle.jc_report.specs.Text.{last_line_of, text_of};

use crate::entries::lines;
use crate::printed::push_decimal;
use crate::printed_words::verdict_word;
use jc_facts::verdict::Verdict;
use std::alloc::{AllocError, Global};

/// The last line, its line end with it: the word, and how many findings, collisions and notes there
/// are.
pub(crate) fn last_line(alloc: Global, verdict: &Verdict) -> Result<Vec<u8>, AllocError>
    ensures { IfOk result (λ line. line.items ≡ last_line_of verdict.now) }
{
    let findings = verdict.findings.as_slice();
    let mut line = Vec::from_slice(alloc, verdict_word(findings).as_bytes())?;
    line.extend_from_slice(b": ")?;
    push_decimal(alloc, &mut line, findings.len())?;
    line.extend_from_slice(b" findings, ")?;
    push_decimal(alloc, &mut line, verdict.collisions.as_slice().len())?;
    line.extend_from_slice(b" collisions, ")?;
    push_decimal(alloc, &mut line, verdict.notes.as_slice().len())?;
    line.extend_from_slice(b" notes\n")?;
    Ok(line)
}

/// The text of a verdict: a line for each finding and each collision, `NUMBER RULE CLASS MEMBER ACT
/// SEAT ERROR` with `-` for what isn't there and with numbers that go on; a line for each note; and
/// the last line, which begins with `compatible` or, where there is a finding, with `incompatible`.
///
/// # Errors
///
/// `AllocError` where memory runs out.
pub fn text(alloc: Global, verdict: &Verdict) -> Result<Vec<u8>, AllocError>
    ensures exact { IfOk result (λ text. text.items ≡ text_of verdict.now) }
{
    let findings = verdict.findings.as_slice();
    let mut text = lines(alloc, 1, findings)?;
    let collisions = lines(alloc, findings.len() + 1, verdict.collisions.as_slice())?;
    text.extend_from_slice(collisions.as_slice())?;
    let notes = lines(alloc, 0, verdict.notes.as_slice())?;
    text.extend_from_slice(notes.as_slice())?;
    let last = last_line(alloc, verdict)?;
    text.extend_from_slice(last.as_slice())?;
    Ok(text)
}
