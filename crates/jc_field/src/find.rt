//! Resolution of fields (JVMS 5.4.3.2).
ghost use Rattle.std.specs.Prelude.{◌≡◌, ◌<◌, None};
ghost use Rattle.jc_facts.specs.world.World.{size};
ghost use Rattle.jc_facts.specs.world.Loading.{load_fault};
ghost use Rattle.jc_facts.specs.world.Lookup.{field_found};
ghost use Rattle.jc_index.specs.Ids.{name_at};
ghost use Rattle.jc_rows.specs.Keys.{numbered_keys, IsNumber};
ghost use Rattle.jc_index.specs.Lookups.{IsAnswer};

use crate::walk::walk_field;
use jc_facts::key::Key;
use jc_index::ids::{ClassId, Found};
use jc_table::by_number::find_at;
use jc_table::table::Table;

/// The field of the key that a reference to the class finds; none where there is none: the class's
/// own, else what its superinterfaces give, in order, else what its superclass gives
/// (JVMS 5.4.3.2). The class has to load. It is looked up in the class's row; where none is made, by
/// a walk.
pub fn find_field(table: &Table, class: ClassId, key: &Key) -> Option<Found>
    requires class { class < size table.now }
    requires loads { load_fault table.now (name_at table.now class) ≡ None }
    ensures { IsAnswer table.now result (field_found table.now (name_at table.now class) key.now) }
{
    find_field_by_number(table, class, key, table.key_number(key))
}

/// The same field, of a key whose number in the table is at hand. Where the class has a row, no byte
/// of the key is looked at.
pub fn find_field_by_number(
    table: &Table,
    class: ClassId,
    key: &Key,
    number: Option<usize>,
) -> Option<Found>
    requires class { class < size table.now }
    requires loads { load_fault table.now (name_at table.now class) ≡ None }
    requires number { IsNumber (numbered_keys table.now) key.now number }
    ensures { IsAnswer table.now result (field_found table.now (name_at table.now class) key.now) }
{
    let _classes = table.count();
    match table.field_row(class) {
        Some(row) => find_at(row, number),
        None => walk_field(table, class, key),
    }
}
