//! Notes on generic signatures, as text and as JSON.
ghost use Rattle.std.specs.Prelude.{◌≡◌, true, false, Some, IfOk};
ghost use Rattle.serde_json.specs.View.{view};
ghost use Rattle.jc_report.specs.SigForms.{word_of_change, line_of_sig_note, sig_note_json, sig_bytes};

use crate::entries::lines;
use crate::entry::Entry;
use crate::json_values::{key_or_null_value, name_value};
use crate::printed::{push_key_or_dash, push_printed};
use crate::put_listing::listing;
use jc_facts::sig_note::{SigChange, SigNote};
use serde_json::{Value, json};
use std::alloc::{AllocError, Global};

/// The word of a change.
pub fn change_word(change: SigChange) -> &'static str
    ensures { result.now ≡ word_of_change change }
{
    match change {
        SigChange::Unread => "unread",
        SigChange::Gone => "gone",
        SigChange::New => "new",
        SigChange::Parameters => "parameters",
        SigChange::Superclass => "superclass",
        SigChange::Interfaces => "interfaces",
        SigChange::Arguments => "arguments",
        SigChange::Result => "result",
        SigChange::Throws => "throws",
        SigChange::Whole => "whole",
    }
}

// The line of a note, its line end with it.
#[tactic(auto, unfolding(crate::specs::SigForms::line_of_sig_note))]
fn sig_line(alloc: Global, note: &SigNote) -> Result<Vec<u8>, AllocError>
    ensures { IfOk result (λ line. line.items ≡ line_of_sig_note note.now) }
{
    let mut line = Vec::from_slice(alloc, b"note signature ")?;
    push_printed(&mut line, note.class.as_bytes())?;
    line.extend_from_slice(b" ")?;
    push_key_or_dash(&mut line, &note.key)?;
    line.extend_from_slice(b" ")?;
    line.extend_from_slice(change_word(note.change).as_bytes())?;
    line.extend_from_slice(b"\n")?;
    Ok(line)
}

// The object of a note.
fn sig_value(alloc: Global, note: &SigNote) -> Result<Value, AllocError>
    ensures { IfOk result (λ v. view v ≡ sig_note_json note.now) }
{
    json!(in alloc; {
        "change": change_word(note.change),
        "class": name_value(alloc, &note.class)?,
        "member": key_or_null_value(alloc, &note.key)?
    })
}

impl Entry for SigNote {
    ghost printed = { λ note number. line_of_sig_note note };

    ghost shaped = { λ note number. sig_note_json note };

    fn line(&self, alloc: Global, _number: usize) -> Result<Vec<u8>, AllocError> {
        sig_line(alloc, self)
    }

    fn value(&self, alloc: Global, _number: usize) -> Result<Value, AllocError> {
        sig_value(alloc, self)
    }
}

/// The text of notes on signatures: a line for each, `note signature CLASS MEMBER CHANGE` with `-` for the
/// class itself.
///
/// # Errors
///
/// `AllocError` where memory runs out.
pub fn sig_text(alloc: Global, notes: &[SigNote]) -> Result<Vec<u8>, AllocError>
    ensures { IfOk result (λ text. text.items ≡ sig_bytes false (Some notes.now)) }
{
    let text = lines(alloc, 1, notes)?;
    Ok(text)
}

/// The JSON of notes on signatures: one object without spaces, and a line end. Its one key is
/// `signatures`, and each note has the keys `change`, `class` and `member`, which is null for the class
/// itself. Names are printed as in the text, and keys stand in byte order.
///
/// # Errors
///
/// `AllocError` where memory runs out.
pub fn sig_json(alloc: Global, notes: &[SigNote]) -> Result<Vec<u8>, AllocError>
    ensures { IfOk result (λ text. text.items ≡ sig_bytes true (Some notes.now)) }
{
    let text = listing(alloc, "signatures", notes)?;
    Ok(text)
}
