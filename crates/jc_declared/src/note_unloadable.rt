//! Notes on classes that don't load.
ghost use Rattle.std.specs.Prelude.{◌≡◌, ◌<◌, [], IfOk};
ghost use Rattle.jc_facts.specs.world.World.{size};
ghost use Rattle.jc_facts.specs.Orders.{note_order};
ghost use Rattle.jc_facts.specs.Exactly.{HasExactly};
ghost use Rattle.jc_declared.specs.steps.Notes.{unloadable, NoteIn};
ghost use Rattle.jc_index.specs.Ids.{name_at};

use jc_facts::verdict::Note;
use jc_index::ids::ClassId;
use jc_sides::found::push_some;
use jc_table::table::Table;
use std::alloc::{AllocError, Global};

// The note on the class, if it is of the release and doesn't load.
fn note_on(
    alloc: Global,
    table: &Table,
    of_old: bool,
    id: ClassId,
) -> Result<Option<Note>, AllocError>
    requires { id < size table.now }
    ensures { IfOk result (λ note. note ≡ unloadable table.now of_old (name_at table.now id)) }
{
    if table.in_platform(id) {
        return Ok(None);
    }
    let Some(error) = table.fault_at(id) else {
        return Ok(None);
    };
    Ok(Some(Note::Unloadable {
        old: of_old,
        class: table.facts(id).name.copy(alloc)?,
        error,
    }))
}

/// The notes on classes of the old or of the new release that don't load (JVMS 5.3.5), in byte
/// order of their names.
///
/// # Errors
///
/// `AllocError` where memory runs out.
pub fn note_unloadable(alloc: Global, table: &Table, of_old: bool) -> Result<Vec<Note>, AllocError>
    requires { table.now.clients ≡ [] }
    ensures { IfOk result (λ notes. HasExactly note_order (NoteIn table.now of_old) notes.items) }
{
    let mut notes = Vec::new(alloc);
    for n in 0..table.count() {
        let id = table.id(n).unwrap();
        push_some(&mut notes, note_on(alloc, table, of_old, id)?)?;
    }
    Ok(notes)
}
