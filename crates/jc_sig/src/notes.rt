//! Notes on generic signatures that have changed between two releases.
ghost use Rattle.std.specs.Prelude.{◌≡◌, ◌<◌, IfOk, IfSome};
ghost use Rattle.jc_facts.specs.Exactly.{HasExactly};
ghost use Rattle.jc_facts.specs.world.World.{size};
ghost use Rattle.jc_index.specs.Ids.{name_at, id_of};
ghost use Rattle.jc_sig.specs.Notes.{sig_note_order, SigNoteStands};
ghost use Rattle.jc_sig.specs.steps.OnRecords.{OnName};

use crate::records::on_records;
use jc_facts::flags::is_public;
use jc_facts::sig_note::SigNote;
use jc_index::ids::ClassId;
use jc_table::table::Table;
use std::alloc::{AllocError, Global};

// The class of the new side that has the name of this one of the old side; none where there is none.
fn named_in(old: &Table, id: ClassId, new: &Table) -> Option<ClassId>
    requires { id < size old.now }
    ensures value { result ≡ id_of new.now (name_at old.now id) }
    ensures of_table { IfSome result (λ id. id < size new.now) }
{
    new.get(old.facts(id).name.as_bytes())
}

// The notes on the class of this number on the old side, the class itself first, then in the order
// of their keys.
fn on_class(
    alloc: Global,
    old: &Table,
    new: &Table,
    id: ClassId,
) -> Result<Vec<SigNote>, AllocError>
    requires class { id < size old.now }
    requires platform { old.now.platform ≡ new.now.platform }
    ensures { IfOk result (λ notes. HasExactly sig_note_order (OnName old.now new.now (name_at old.now id)) notes.items) }
{
    // A class of the platform has one record on both sides.
    if old.in_platform(id) {
        return Ok(Vec::new(alloc));
    }
    let Some(after) = named_in(old, id, new) else {
        return Ok(Vec::new(alloc));
    };
    let was = old.facts(id);
    let now = new.facts(after);
    if !is_public(was.flags) {
        return Ok(Vec::new(alloc));
    }
    if !is_public(now.flags) {
        return Ok(Vec::new(alloc));
    }
    let notes = on_records(alloc, &was.name, was, now)?;
    Ok(notes)
}

/// The notes on the generic signatures of the classes that both sides declare, public on both, and
/// of the fields and methods that both declare, private ones too: one for each that has another
/// signature now, or has one on one side alone (JVMS 4.7.9.1). They are in byte order of the names of
/// the classes, the class itself first, then in the order of the keys. The two sides have one
/// platform.
///
/// It takes time in proportion to the classes, their members and their signatures, but for the
/// logarithm of a look-up, and memory for what one class has.
///
/// # Errors
///
/// `AllocError` where memory runs out.
pub fn signature_notes(alloc: Global, old: &Table, new: &Table) -> Result<Vec<SigNote>, AllocError>
    requires platform { old.now.platform ≡ new.now.platform }
    ensures exact { IfOk result (λ notes. HasExactly sig_note_order (SigNoteStands old.now new.now) notes.items) }
{
    let mut notes = Vec::new(alloc);
    for n in 0..old.count() {
        let id = old.id(n).unwrap();
        notes.append(&mut on_class(alloc, old, new, id)?)?;
    }
    Ok(notes)
}
