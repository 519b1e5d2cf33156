//! What a class itself declares, looked up in its rows, where it has any (JVMS 4.5, 4.6). A class's
//! own lists are long where its file is, and the rules ask once for each of their keys.
ghost use Rattle.std.specs.Prelude.{◌≡◌, ◌<◌, None};
ghost use Rattle.jc_facts.specs.world.World.{size};
ghost use Rattle.jc_facts.specs.world.Loading.{load_fault};
ghost use Rattle.jc_declared.specs.steps.Own.{flags_by, field_flags_of, method_flags_of};
ghost use Rattle.jc_index.specs.Ids.{name_at};
ghost use Rattle.jc_rows.specs.Keys.{numbered_keys, IsNumber};

use jc_facts::key::Key;
use jc_facts::key_set::KeyRef;
use jc_field::find::find_field;
use jc_index::ids::{ClassId, Found};
use jc_index::members::own_method;
use jc_table::by_number::find_at;
use jc_table::table::Table;

// The flags of what a lookup finds, if the class itself declares it.
fn flags_in(class: ClassId, found: Option<Found>) -> Option<u16>
    ensures { result ≡ flags_by class found }
{
    let Some(found) = found else {
        return None;
    };
    if found.owner == class {
        Some(found.flags)
    } else {
        None
    }
}

/// The flags of the class's own field of the key; none where it declares none. The class has to
/// load.
pub fn field_flags(table: &Table, class: ClassId, key: &Key) -> Option<u16>
    requires class { class < size table.now }
    requires loads { load_fault table.now (name_at table.now class) ≡ None }
    ensures { result ≡ field_flags_of table.now (name_at table.now class) key.now }
{
    let _classes = table.count();
    flags_in(class, find_field(table, class, key))
}

// The flags of the class's own method of the key, looked up in its list.
fn listed_flags(table: &Table, class: ClassId, key: &Key) -> Option<u16>
    requires { class < size table.now }
    ensures { result ≡ method_flags_of table.now (name_at table.now class) key.now }
{
    match own_method(table.facts(class), &KeyRef::of_key(key)) {
        Some(method) => Some(method.flags),
        None => None,
    }
}

/// The flags of the class's own method of the key, an initializer too; none where it declares none.
/// The class has to load. The number is the key's in the table.
pub fn method_flags(table: &Table, class: ClassId, key: &Key, number: Option<usize>) -> Option<u16>
    requires class { class < size table.now }
    requires loads { load_fault table.now (name_at table.now class) ≡ None }
    requires number { IsNumber (numbered_keys table.now) key.now number }
    ensures { result ≡ method_flags_of table.now (name_at table.now class) key.now }
{
    let _classes = table.count();
    match table.method_row(class) {
        Some(row) => flags_in(class, find_at(row, number)),
        None => listed_flags(table, class, key),
    }
}
