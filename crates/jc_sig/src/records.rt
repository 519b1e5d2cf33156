//! Notes on the signatures of one class.
ghost use Rattle.std.specs.Prelude.{◌≡◌, ◌++◌, [], Some, None, IfOk, OnOk, IsTrue};
ghost use Rattle.std.specs.List.{filter_map, cons_option};
ghost use Rattle.std.specs.List.Sorted.{IsStrictlySortedBy};
ghost use Rattle.jc_facts.specs.Exactly.{HasExactly};
ghost use Rattle.jc_facts.specs.KeyOrder.{key_cmp};
ghost use Rattle.jc_sig.specs.Notes.{sig_note_order};
ghost use Rattle.jc_sig.specs.steps.OnRecords.{note_at, note_in, OnRecords, OnMember};

use crate::change::{are_same, of_class, of_member};
use crate::signed::{class_signature, members_of, signatures_of, text_at};
use jc_base::name::Name;
use jc_facts::class_facts::{ClassFacts, Signed};
use jc_facts::key_set::KeyRef;
use jc_facts::sig_note::SigNote;
use std::alloc::{AllocError, Global};
use std::collections::{BTreeMap, BTreeSet};

// The note on the class itself, if there is one.
#[tactic(auto, unfolding(crate::specs::steps::OnRecords::note_at))]
fn on_class(
    alloc: Global,
    name: &Name,
    old: &ClassFacts,
    new: &ClassFacts,
) -> Result<Option<SigNote>, AllocError>
    ensures { IfOk result (λ note. note ≡ note_at name.now old.now new.now None) }
{
    let was = class_signature(old);
    let now = class_signature(new);
    if are_same(was, now) {
        return Ok(None);
    }
    let change = of_class(alloc, was, now)?;
    Ok(Some(SigNote {
        class: name.copy(alloc)?,
        key: None,
        change,
    }))
}

// The note on the member of the key, if there is one, by the signatures and the members of both
// records.
#[tactic(auto, unfolding(crate::specs::steps::OnRecords::note_in))]
fn on_key<'a>(
    alloc: Global,
    name: &Name,
    was: &BTreeMap<KeyRef<'a>, &'a Signed>,
    now: &BTreeMap<KeyRef<'a>, &'a Signed>,
    before: &BTreeSet<KeyRef<'a>>,
    after: &BTreeSet<KeyRef<'a>>,
    key: &KeyRef<'a>,
) -> Result<Option<SigNote>, AllocError>
    ensures { IfOk result (λ note. note ≡ note_in name.now was.now now.now before.now after.now key.now) }
{
    let old = text_at(was, key);
    let new = text_at(now, key);
    if are_same(old, new) {
        return Ok(None);
    }
    if !before.contains(key) {
        return Ok(None);
    }
    if !after.contains(key) {
        return Ok(None);
    }
    let key = key.to_key(alloc)?;
    let change = of_member(alloc, &key, old, new)?;
    Ok(Some(SigNote {
        class: name.copy(alloc)?,
        key: Some(key),
        change,
    }))
}

fn push_some(notes: &mut Vec<SigNote>, note: Option<SigNote>) -> Result<(), AllocError>
    ensures { OnOk result (notes.new.items ≡ notes.old.items ++ cons_option note []) }
{
    match note {
        Some(note) => {
            notes.push(note)?;
            Ok(())
        }
        None => Ok(()),
    }
}

// The notes on the members of the first record, in the order of their keys.
fn on_keys<'a>(
    alloc: Global,
    name: &Name,
    was: &BTreeMap<KeyRef<'a>, &'a Signed>,
    now: &BTreeMap<KeyRef<'a>, &'a Signed>,
    before: &BTreeSet<KeyRef<'a>>,
    after: &BTreeSet<KeyRef<'a>>,
) -> Result<Vec<SigNote>, AllocError>
    ensures notes { IfOk result (λ notes. notes.items ≡ filter_map (note_in name.now was.now now.now before.now after.now) before.now.keys) }
    ensures ordered { IfOk result (λ _. IsStrictlySortedBy key_cmp before.now.keys) }
{
    let mut notes = Vec::new(alloc);
    for key in before.iter() {
        push_some(
            &mut notes,
            on_key(alloc, name, was, now, before, after, key)?,
        )?;
    }
    Ok(notes)
}

fn has_no_signature(class: &ClassFacts) -> bool
    ensures { IsTrue result → «class».now.signatures ≡ [] }
{
    class.signatures.as_slice().is_empty()
}

// The notes on what both records declare.
fn on_members(
    alloc: Global,
    name: &Name,
    old: &ClassFacts,
    new: &ClassFacts,
) -> Result<Vec<SigNote>, AllocError>
    ensures { IfOk result (λ notes. HasExactly sig_note_order (OnMember name.now old.now new.now) notes.items) }
{
    // Most classes have none, and no member is looked at then.
    if has_no_signature(old) && has_no_signature(new) {
        return Ok(Vec::new(alloc));
    }
    let signatures = signatures_of(alloc, old)?;
    let new_signatures = signatures_of(alloc, new)?;
    let members = members_of(alloc, old)?;
    let new_members = members_of(alloc, new)?;
    let notes = on_keys(
        alloc,
        name,
        &signatures,
        &new_signatures,
        &members,
        &new_members,
    )?;
    Ok(notes)
}

/// The notes on the signatures of a class and of what both its records declare, the class itself
/// first, then by key. It takes time in proportion to its members and its signatures, but for the
/// logarithm of a look-up.
///
/// # Errors
///
/// `AllocError` where memory runs out.
pub(crate) fn on_records(
    alloc: Global,
    name: &Name,
    old: &ClassFacts,
    new: &ClassFacts,
) -> Result<Vec<SigNote>, AllocError>
    ensures { IfOk result (λ notes. HasExactly sig_note_order (OnRecords name.now old.now new.now) notes.items) }
{
    let mut notes = Vec::new(alloc);
    push_some(&mut notes, on_class(alloc, name, old, new)?)?;
    let mut more = on_members(alloc, name, old, new)?;
    notes.append(&mut more)?;
    Ok(notes)
}
