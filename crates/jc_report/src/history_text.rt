//! The text of the verdicts on a row of releases.
ghost use Rattle.std.specs.Prelude.{◌≡◌, ◌++◌, ◌∷◌, true, [], IfOk, OnOk};
ghost use Rattle.jc_facts.specs.Verdicts.{is_incompatible as has_finding};
ghost use Rattle.jc_report.specs.HistoryText.{at_start, with_front, step_front, step_lines as lines_of_steps, incompatible_steps, last_line_of_history, history_text_of};

use crate::printed::push_decimal;
use crate::text::text;
use jc_facts::verdict::Verdict;
use std::alloc::{AllocError, Global};

/// What stands before each line of the step of this number.
pub(crate) fn front_of(alloc: Global, number: usize) -> Result<Vec<u8>, AllocError>
    ensures { IfOk result (λ front. front.items ≡ step_front number) }
{
    let mut front = Vec::from_slice(alloc, b"step ")?;
    push_decimal(alloc, &mut front, number)?;
    front.push(b' ')?;
    Ok(front)
}

// Adds a byte, with the front before it where a line begins there.
fn push_byte(out: &mut Vec<u8>, front: &[u8], begins: bool, byte: u8) -> Result<(), AllocError>
    ensures { OnOk result (out.new.items ≡ out.old.items ++ at_start begins front.now (byte ∷ [])) }
{
    if begins {
        out.extend_from_slice(front)?;
    }
    out.push(byte)?;
    Ok(())
}

/// Adds the lines, with the front before each.
///
/// # Errors
///
/// `AllocError` where memory runs out.
pub fn push_lines(out: &mut Vec<u8>, front: &[u8], lines: &[u8]) -> Result<(), AllocError>
    ensures { OnOk result (out.new.items ≡ out.old.items ++ with_front front.now true lines.now) }
{
    let mut begins = true;
    for byte in lines {
        push_byte(out, front, begins, *byte)?;
        begins = *byte == b'\n';
    }
    Ok(())
}

// The texts of the verdicts, with the number of its step, from 1 on, before each line.
fn step_lines(alloc: Global, verdicts: &[Verdict]) -> Result<Vec<u8>, AllocError>
    ensures { IfOk result (λ lines. lines.items ≡ lines_of_steps 1 verdicts.now) }
{
    let mut lines = Vec::new(alloc);
    for (i, verdict) in verdicts.iter().enumerate() {
        let front = front_of(alloc, i + 1)?;
        let of_verdict = text(alloc, verdict)?;
        push_lines(&mut lines, front.as_slice(), of_verdict.as_slice())?;
    }
    Ok(lines)
}

// Whether the verdict has a finding.
fn is_incompatible(verdict: &Verdict) -> bool
    ensures { result ≡ has_finding verdict.now }
{
    !verdict.findings.as_slice().is_empty()
}

/// How many of the verdicts have a finding.
pub fn count_incompatible(verdicts: &[Verdict]) -> usize
    ensures { result ≡ incompatible_steps verdicts.now }
{
    let mut count = 0;
    for verdict in verdicts {
        if is_incompatible(verdict) {
            count += 1;
        }
    }
    count
}

/// The last line, its line end with it.
pub(crate) fn last_line(alloc: Global, verdicts: &[Verdict]) -> Result<Vec<u8>, AllocError>
    ensures { IfOk result (λ line. line.items ≡ last_line_of_history verdicts.now) }
{
    let mut line = Vec::from_slice(alloc, b"history: ")?;
    push_decimal(alloc, &mut line, verdicts.len())?;
    line.extend_from_slice(b" steps, ")?;
    push_decimal(alloc, &mut line, count_incompatible(verdicts))?;
    line.extend_from_slice(b" incompatible\n")?;
    Ok(line)
}

/// The text of the verdicts on a row of releases: the text of each, with `step N ` before each line,
/// where N is the number of the step from 1 on, and the last line, which says how many steps there are
/// and how many of them are incompatible.
///
/// # Errors
///
/// `AllocError` where memory runs out.
#[tactic(auto, unfolding(crate::specs::HistoryText::history_text_of))]
pub fn history_text(alloc: Global, verdicts: &[Verdict]) -> Result<Vec<u8>, AllocError>
    ensures exact { IfOk result (λ text. text.items ≡ history_text_of verdicts.now) }
{
    let mut text = step_lines(alloc, verdicts)?;
    let last = last_line(alloc, verdicts)?;
    text.extend_from_slice(last.as_slice())?;
    Ok(text)
}
