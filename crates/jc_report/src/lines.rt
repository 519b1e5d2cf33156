//! The lines of findings, collisions, notes and warnings.
ghost use Rattle.std.specs.Prelude.{◌≡◌, ◌++◌, codes, OnOk, IfOk};
ghost use Rattle.jc_report.specs.Text.{printed, printed_key, word_of_side, name_of_error, line_of_finding, line_of_collision, line_of_note};
ghost use Rattle.jc_report.specs.WarnForms.{line_of_warning};

use crate::printed::{push_decimal, push_key, push_member, push_name, push_printed};
use crate::printed_words::{act_word, error_name, rule_text, side_word, warn_word};
use jc_base::name::Name;
use jc_facts::finding::Finding;
use jc_facts::key::Key;
use jc_facts::link_error::LinkError;
use jc_facts::verdict::{Collision, Note};
use jc_facts::warning::Warning;
use std::alloc::{AllocError, Global};

/// The line of a finding of this number, its line end with it.
///
/// # Errors
///
/// `AllocError` where memory runs out.
#[tactic(auto, unfolding(crate::specs::Text::line_of_finding))]
pub fn finding_line(alloc: Global, number: usize, finding: &Finding) -> Result<Vec<u8>, AllocError>
    ensures { IfOk result (λ line. line.items ≡ line_of_finding number finding.now) }
{
    let mut line = Vec::new(alloc);
    push_decimal(alloc, &mut line, number)?;
    line.extend_from_slice(b" ")?;
    line.extend_from_slice(rule_text(alloc, finding.rule)?.as_str().as_bytes())?;
    line.extend_from_slice(b" ")?;
    push_printed(&mut line, finding.class.as_bytes())?;
    line.extend_from_slice(b" ")?;
    push_member(&mut line, &finding.key, &finding.target)?;
    line.extend_from_slice(b" ")?;
    line.extend_from_slice(act_word(finding.act).as_bytes())?;
    line.extend_from_slice(b" ")?;
    push_name(&mut line, &finding.seat)?;
    line.extend_from_slice(b" ")?;
    line.extend_from_slice(error_name(finding.error).as_bytes())?;
    line.extend_from_slice(b"\n")?;
    Ok(line)
}

/// The line of a collision of this number, its line end with it.
///
/// # Errors
///
/// `AllocError` where memory runs out.
#[tactic(auto, unfolding(crate::specs::Text::line_of_collision))]
pub fn collision_line(
    alloc: Global,
    number: usize,
    collision: &Collision,
) -> Result<Vec<u8>, AllocError>
    ensures { IfOk result (λ line. line.items ≡ line_of_collision number collision.now) }
{
    let mut line = Vec::new(alloc);
    push_decimal(alloc, &mut line, number)?;
    line.extend_from_slice(b" ")?;
    line.extend_from_slice(rule_text(alloc, collision.rule)?.as_str().as_bytes())?;
    line.extend_from_slice(b" ")?;
    push_printed(&mut line, collision.class.as_bytes())?;
    line.extend_from_slice(b" ")?;
    push_key(&mut line, &collision.key)?;
    line.extend_from_slice(b" ")?;
    line.extend_from_slice(act_word(collision.act).as_bytes())?;
    line.extend_from_slice(b" - ")?;
    line.extend_from_slice(error_name(collision.error).as_bytes())?;
    line.extend_from_slice(b"\n")?;
    Ok(line)
}

// The line of a class that doesn't load, its line end with it.
fn unloadable_line(
    alloc: Global,
    old: bool,
    class: &Name,
    error: LinkError,
) -> Result<Vec<u8>, AllocError>
    ensures { IfOk result (λ line. line.items ≡ codes "note unloadable " ++ word_of_side old ++ codes " " ++ printed class.now ++ codes " " ++ name_of_error error ++ codes "\n") }
{
    let mut line = Vec::from_slice(alloc, b"note unloadable ")?;
    line.extend_from_slice(side_word(old).as_bytes())?;
    line.extend_from_slice(b" ")?;
    push_printed(&mut line, class.as_bytes())?;
    line.extend_from_slice(b" ")?;
    line.extend_from_slice(error_name(error).as_bytes())?;
    line.extend_from_slice(b"\n")?;
    Ok(line)
}

// The line of a constant that has changed, its line end with it.
fn constant_line(alloc: Global, class: &Name, key: &Key) -> Result<Vec<u8>, AllocError>
    ensures { IfOk result (λ line. line.items ≡ codes "note constant " ++ printed class.now ++ codes " " ++ printed_key key.now ++ codes "\n") }
{
    let mut line = Vec::from_slice(alloc, b"note constant ")?;
    push_printed(&mut line, class.as_bytes())?;
    line.extend_from_slice(b" ")?;
    push_key(&mut line, key)?;
    line.extend_from_slice(b"\n")?;
    Ok(line)
}

/// The line of a note, its line end with it.
///
/// # Errors
///
/// `AllocError` where memory runs out.
#[tactic(auto, unfolding(crate::specs::Text::line_of_note))]
pub fn note_line(alloc: Global, note: &Note) -> Result<Vec<u8>, AllocError>
    ensures { IfOk result (λ line. line.items ≡ line_of_note note.now) }
{
    match note {
        Note::Unloadable { old, class, error } => unloadable_line(alloc, *old, class, *error),
        Note::Fixed { class, key } => constant_line(alloc, class, key),
    }
}

/// The line of a warning, its line end with it.
///
/// # Errors
///
/// `AllocError` where memory runs out.
#[tactic(auto, unfolding(crate::specs::WarnForms::line_of_warning))]
pub fn warning_line(alloc: Global, warning: &Warning) -> Result<Vec<u8>, AllocError>
    ensures { IfOk result (λ line. line.items ≡ line_of_warning warning.now) }
{
    let mut line = Vec::from_slice(alloc, b"warning ")?;
    push_printed(&mut line, warning.class.as_bytes())?;
    line.extend_from_slice(b" ")?;
    push_key(&mut line, &warning.key)?;
    line.extend_from_slice(b" ")?;
    line.extend_from_slice(warn_word(warning.kind).as_bytes())?;
    line.extend_from_slice(b"\n")?;
    Ok(line)
}
