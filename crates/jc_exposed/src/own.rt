//! The keys of members that name wanted classes, by the class that declares them.
ghost use Rattle.std.specs.Prelude.{◌≡◌, ◌<◌, ◌&&◌, IfOk, Some, [], length};
ghost use Rattle.std.specs.List.{list_any};
ghost use Rattle.jc_acts.specs.Touched.{flag_at};
ghost use Rattle.jc_desc.specs.Classes.{descriptor_names};
ghost use Rattle.jc_exposed.specs.Exposing.{AreNamings, AreOwn, AreOwnRows};
ghost use Rattle.jc_exposed.specs.Lengths.{HaveLengths};
ghost use Rattle.jc_exposed.specs.Namings.{Gives};
ghost use Rattle.jc_facts.specs.declared.class_facts.ClassFacts.{ClassFacts as ClassOf};
ghost use Rattle.jc_facts.specs.Names.{key_of};
ghost use Rattle.jc_facts.specs.world.World.{find_class, size};
ghost use Rattle.jc_index.specs.Ids.{name_at};
ghost use Rattle.jc_index.specs.Sides.{IsSide};

use crate::lengths::lengths_of;
use crate::named::classes_named;
use crate::namings::{Naming, namings_of};
use jc_base::items::Items;
use jc_facts::class_facts::Member;
use jc_index::ids::ClassId;
use jc_table::table::Table;
use std::alloc::{AllocError, Global};

/// The keys that classes declare themselves and that name wanted classes.
pub struct Own {
    // Whether the class of each number is wanted.
    wanted: Vec<bool>,
    // The keys that it declares.
    pub(crate) rows: Vec<Items<Naming>>,
}

// One call at each exit of a function that owns it, where a derived drop is written out.
impl Drop for Own {
    fn drop(self) {
        let Own { wanted: _, rows: _ } = self;
    }
}

// The member's key with each of the wanted classes that it names.
fn own_of_member(
    alloc: Global,
    table: &Table,
    wanted: &[bool],
    lengths: &[bool],
    member: &Member,
) -> Result<Vec<Naming>, AllocError>
    requires side { IsSide table.now }
    requires wanted { length wanted.now ≡ size table.now }
    requires lengths { HaveLengths table.now wanted.now (size table.now) lengths.now }
    ensures { IfOk result (λ ns. Gives (flag_at wanted.now) (λ g t. descriptor_names member.now.descriptor (name_at table.now t) && g (key_of member.now)) ns.items) }
{
    let ids = classes_named(alloc, table, wanted, lengths, member.descriptor.as_bytes())?;
    let namings = namings_of(alloc, member, ids.as_slice())?;
    Ok(namings)
}

// The same of several members.
fn own_of_members(
    alloc: Global,
    table: &Table,
    wanted: &[bool],
    lengths: &[bool],
    members: &[Member],
) -> Result<Vec<Naming>, AllocError>
    requires side { IsSide table.now }
    requires wanted { length wanted.now ≡ size table.now }
    requires lengths { HaveLengths table.now wanted.now (size table.now) lengths.now }
    ensures { IfOk result (λ ns. Gives (flag_at wanted.now) (λ g t. list_any (λ m. descriptor_names m.descriptor (name_at table.now t) && g (key_of m)) members.now) ns.items) }
{
    let mut namings = Vec::new(alloc);
    for member in members {
        namings.append(&mut own_of_member(alloc, table, wanted, lengths, member)?)?;
    }
    Ok(namings)
}

// The same of the fields and the methods of the class.
fn own_of_class(
    alloc: Global,
    table: &Table,
    wanted: &[bool],
    lengths: &[bool],
    id: ClassId,
) -> Result<Vec<Naming>, AllocError>
    requires side { IsSide table.now }
    requires wanted { length wanted.now ≡ size table.now }
    requires lengths { HaveLengths table.now wanted.now (size table.now) lengths.now }
    requires id { id < size table.now }
    ensures { IfOk result (λ ns. (d : ClassOf) → Some d ≡ find_class table.now (name_at table.now id) → AreNamings table.now (flag_at wanted.now) d ns.items) }
{
    let facts = table.facts(id);
    let mut namings = own_of_members(alloc, table, wanted, lengths, facts.fields.as_slice())?;
    let mut calls = own_of_members(alloc, table, wanted, lengths, facts.methods.as_slice())?;
    namings.append(&mut calls)?;
    Ok(namings)
}

// The same of each class.
fn own_rows(
    alloc: Global,
    table: &Table,
    wanted: &[bool],
    lengths: &[bool],
) -> Result<Vec<Items<Naming>>, AllocError>
    requires side { IsSide table.now }
    requires wanted { length wanted.now ≡ size table.now }
    requires lengths { HaveLengths table.now wanted.now (size table.now) lengths.now }
    ensures { IfOk result (λ rows. AreOwnRows table.now (flag_at wanted.now) (size table.now) rows.items) }
{
    let mut rows = Vec::new(alloc);
    for n in 0..table.count() {
        let id = table.id(n).unwrap();
        let row = own_of_class(alloc, table, wanted, lengths, id)?;
        rows.push(Items::from_vec(row))?;
    }
    Ok(rows)
}

impl Own {
    ghost use Rattle.std.specs.Prelude.{◌≡◌, IfOk, length};
    ghost use Rattle.jc_exposed.specs.Exposing.{AreOwn, flags_of};
    ghost use Rattle.jc_facts.specs.world.World.{size};
    ghost use Rattle.jc_index.specs.Sides.{IsSide};

    /// The keys that name wanted classes: one pass over the members of all classes of the table, of
    /// which each has a flag.
    ///
    /// # Errors
    ///
    /// `AllocError` where memory runs out.
    pub fn new(alloc: Global, table: &Table, wanted: Vec<bool>) -> Result<Own, AllocError>
        requires side { IsSide table.now }
        requires wanted { length wanted.items ≡ size table.now }
        ensures own { IfOk result (λ own. AreOwn table.now own) }
        ensures wanted { IfOk result (λ own. flags_of own ≡ wanted.items) }
    {
        let lengths = lengths_of(alloc, table, wanted.as_slice())?;
        let rows = own_rows(alloc, table, wanted.as_slice(), lengths.as_slice())?;
        Ok(Own { wanted, rows })
    }

    /// Gives the flags back.
    pub fn into_wanted(self) -> Vec<bool>
        ensures { result.items ≡ flags_of self }
    {
        let Own { wanted, rows: _ } = self;
        wanted
    }
}
