//! The JSON of findings, collisions, notes and warnings.
ghost use Rattle.std.specs.Prelude.{◌≡◌, None, IfOk};
ghost use Rattle.serde_json.specs.Data.{string};
ghost use Rattle.serde_json.specs.View.{view};
ghost use Rattle.jc_report.specs.Text.{printed, printed_key};
ghost use Rattle.jc_report.specs.Json.{name_or_null, member_or_null, finding_json, collision_json, note_with, note_json};
ghost use Rattle.jc_report.specs.WarnForms.{warning_json};

use crate::printed::{push_key, push_printed};
use crate::printed_words::{act_word, error_name, rule_text, side_word, warn_word};
use jc_base::name::Name;
use jc_facts::finding::Finding;
use jc_facts::key::Key;
use jc_facts::verdict::{Collision, Note};
use jc_facts::warning::Warning;
use serde_json::{Value, json};
use std::alloc::{AllocError, Global};

/// The printed form of bytes, as a string.
///
/// # Errors
///
/// `AllocError` where memory runs out.
pub fn printed_value(alloc: Global, bytes: &[u8]) -> Result<Value, AllocError>
    ensures { IfOk result (λ v. view v ≡ string (printed bytes.now)) }
{
    let mut text = String::new(alloc);
    push_printed(&mut text, bytes)?;
    Ok(Value::String(text))
}

pub(crate) fn name_value(alloc: Global, name: &Name) -> Result<Value, AllocError>
    ensures { IfOk result (λ v. view v ≡ string (printed name.now)) }
{
    printed_value(alloc, name.as_bytes())
}

pub(crate) fn name_or_null_value(alloc: Global, name: &Option<Name>) -> Result<Value, AllocError>
    ensures { IfOk result (λ v. view v ≡ name_or_null name.now) }
{
    match name {
        Some(name) => name_value(alloc, name),
        None => Ok(Value::Null),
    }
}

pub(crate) fn key_value(alloc: Global, key: &Key) -> Result<Value, AllocError>
    ensures { IfOk result (λ v. view v ≡ string (printed_key key.now)) }
{
    let mut text = String::new(alloc);
    push_key(&mut text, key)?;
    Ok(Value::String(text))
}

// The key of a member, or null where there is none.
pub(crate) fn key_or_null_value(alloc: Global, key: &Option<Key>) -> Result<Value, AllocError>
    ensures { IfOk result (λ v. view v ≡ member_or_null key.now None) }
{
    match key {
        Some(key) => key_value(alloc, key),
        None => Ok(Value::Null),
    }
}

fn member_value(alloc: Global, finding: &Finding) -> Result<Value, AllocError>
    ensures { IfOk result (λ v. view v ≡ member_or_null finding.now.key finding.now.target) }
{
    match &finding.key {
        Some(key) => key_value(alloc, key),
        None => name_or_null_value(alloc, &finding.target),
    }
}

/// The object of a finding of this number.
///
/// # Errors
///
/// `AllocError` where memory runs out.
pub fn finding_value(alloc: Global, number: usize, finding: &Finding) -> Result<Value, AllocError>
    ensures { IfOk result (λ v. view v ≡ finding_json number finding.now) }
{
    json!(in alloc; {
        "class": name_value(alloc, &finding.class)?,
        "error": error_name(finding.error),
        "member": member_value(alloc, finding)?,
        "number": number,
        "operation": act_word(finding.act),
        "rule": rule_text(alloc, finding.rule)?,
        "seat": name_or_null_value(alloc, &finding.seat)?
    })
}

/// The object of a collision of this number.
///
/// # Errors
///
/// `AllocError` where memory runs out.
pub fn collision_value(
    alloc: Global,
    number: usize,
    collision: &Collision,
) -> Result<Value, AllocError>
    ensures { IfOk result (λ v. view v ≡ collision_json number collision.now) }
{
    json!(in alloc; {
        "class": name_value(alloc, &collision.class)?,
        "error": error_name(collision.error),
        "member": key_value(alloc, &collision.key)?,
        "number": number,
        "operation": act_word(collision.act),
        "rule": rule_text(alloc, collision.rule)?,
        "seat": null
    })
}

/// The object of a note.
///
/// # Errors
///
/// `AllocError` where memory runs out.
pub fn note_value(alloc: Global, note: &Note) -> Result<Value, AllocError>
    ensures { IfOk result (λ v. view v ≡ note_json note.now) }
{
    match note {
        Note::Unloadable { old, class, error } => json!(in alloc; {
            "class": name_value(alloc, class)?,
            "detail": error_name(*error),
            "kind": "unloadable",
            "member": null,
            "side": side_word(*old)
        }),
        Note::Fixed { class, key } => json!(in alloc; {
            "class": name_value(alloc, class)?,
            "detail": null,
            "kind": "constant",
            "member": key_value(alloc, key)?,
            "side": null
        }),
    }
}

/// The object of a warning.
///
/// # Errors
///
/// `AllocError` where memory runs out.
pub fn warning_value(alloc: Global, warning: &Warning) -> Result<Value, AllocError>
    ensures { IfOk result (λ v. view v ≡ warning_json warning.now) }
{
    json!(in alloc; {
        "class": name_value(alloc, &warning.class)?,
        "kind": warn_word(warning.kind),
        "member": key_value(alloc, &warning.key)?
    })
}
