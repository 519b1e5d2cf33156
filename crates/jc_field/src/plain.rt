//! A plain program for the lookup of fields: a search by the definition, level by level (JVMS 5.4.3.2).
//!
//! It looks at an interface again for each way that leads to it, so it is for small sides alone.
ghost use Rattle.std.specs.Prelude.{◌<◌};
ghost use Rattle.jc_facts.specs.world.World.{size};
ghost use Rattle.jc_facts.specs.world.Lookup.{field_found};
ghost use Rattle.jc_index.specs.Ids.{name_at};
ghost use Rattle.jc_index.specs.Lookups.{IsAnswer};
ghost use Rattle.jc_field.specs.steps.Fields.{found_to};

use crate::walk::own;
use jc_facts::key::Key;
use jc_facts::key_set::KeyRef;
use jc_index::ids::{ClassId, Found};
use jc_table::table::Table;

// The field that a search so many levels deep gives of the class of this name.
fn search(table: &Table, name: &[u8], key: &KeyRef<'_>, levels: u32) -> Option<Found>
    ensures { IsAnswer table.now result (found_to table.now key.now levels name.now) }
{
    let Some(class) = table.get(name) else {
        return None;
    };
    if levels == 0 {
        return None;
    }
    let facts = table.facts(class);
    match own(table, class, key) {
        Some(found) => return Some(found),
        None => {}
    }
    for interface in facts.interfaces.as_slice() {
        match search(table, interface.as_bytes(), key, levels - 1) {
            Some(found) => return Some(found),
            None => {}
        }
    }
    match &facts.superclass {
        Some(above) => search(table, above.as_bytes(), key, levels - 1),
        None => None,
    }
}

/// The field of the key that a reference to the class finds, as `find_field` gives it.
pub fn search_field(table: &Table, class: ClassId, key: &Key) -> Option<Found>
    requires { class < size table.now }
    ensures { IsAnswer table.now result (field_found table.now (name_at table.now class) key.now) }
{
    let name = &table.facts(class).name;
    search(table, name.as_bytes(), &KeyRef::of_key(key), table.count())
}
