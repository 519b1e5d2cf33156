//! How long the names of wanted classes are: most names that descriptors have are told from theirs by
//! that alone, and aren't looked up.
ghost use Rattle.std.specs.Prelude.{◌≡◌, ◌<◌, IfOk, true, length};
ghost use Rattle.jc_acts.specs.Touched.{flag_at};
ghost use Rattle.jc_exposed.specs.Lengths.{HaveLengths, Keeps, may_be};
ghost use Rattle.jc_facts.specs.world.World.{size};
ghost use Rattle.jc_index.specs.Ids.{name_at};
ghost use Rattle.jc_index.specs.Sides.{IsSide};

use jc_index::ids::ClassId;
use jc_table::table::Table;
use std::alloc::{AllocError, Global};

// So many lengths have a mark. A longer name may be that of a wanted class.
const MARKED_LENGTHS: usize = 256;

/// Whether a wanted class may have a name of so many bytes.
pub fn may_be(lengths: &[bool], bytes: usize) -> bool
    ensures { result ≡ may_be lengths.now bytes }
{
    if bytes < lengths.len() {
        lengths[bytes]
    } else {
        true
    }
}

// Marks the length.
fn mark(lengths: &mut Vec<bool>, bytes: usize)
    ensures kept { Keeps lengths.old.items lengths.new.items }
    ensures marked { may_be lengths.new.items bytes ≡ true }
{
    if bytes < lengths.len() {
        lengths[bytes] = true;
    }
}

// Marks the length of the class's name, if the class is wanted.
fn mark_wanted(table: &Table, wanted: &[bool], lengths: &mut Vec<bool>, id: ClassId)
    requires wanted { length wanted.now ≡ size table.now }
    requires id { id < size table.now }
    ensures kept { Keeps lengths.old.items lengths.new.items }
    ensures marked { flag_at wanted.now id ≡ true → may_be lengths.new.items (length (name_at table.now id)) ≡ true }
{
    if wanted[id.number() as usize] {
        mark(lengths, table.facts(id).name.as_bytes().len());
    }
}

// No length is marked.
fn no_lengths(alloc: Global) -> Result<Vec<bool>, AllocError> {
    let lengths = vec![in alloc; false; MARKED_LENGTHS]?;
    Ok(lengths)
}

/// The lengths of the names of the wanted classes; there is a flag for each class.
///
/// # Errors
///
/// `AllocError` where memory runs out.
pub fn lengths_of(alloc: Global, table: &Table, wanted: &[bool]) -> Result<Vec<bool>, AllocError>
    requires side { IsSide table.now }
    requires wanted { length wanted.now ≡ size table.now }
    ensures { IfOk result (λ lengths. HaveLengths table.now wanted.now (size table.now) lengths.items) }
{
    let mut lengths = no_lengths(alloc)?;
    for n in 0..table.count() {
        let id = table.id(n).unwrap();
        mark_wanted(table, wanted, &mut lengths, id);
    }
    Ok(lengths)
}
