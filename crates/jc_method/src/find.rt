//! Resolution of methods (JVMS 5.4.3.3, 5.4.3.4).
ghost use Rattle.std.specs.Prelude.{◌≡◌, ◌<◌, ◌&&◌, None, IsTrue, IsFalse, is_some};
ghost use Rattle.jc_facts.specs.world.World.{size};
ghost use Rattle.jc_facts.specs.world.Assignment.{is_interface_of};
ghost use Rattle.jc_facts.specs.world.Hierarchy.{chain};
ghost use Rattle.jc_facts.specs.world.Loading.{load_fault};
ghost use Rattle.jc_facts.specs.world.Lookup.{first_declared, method_choices, interface_choices};
ghost use Rattle.jc_method.specs.Inheriting.{inherits_from};
ghost use Rattle.jc_index.specs.Ids.{name_at};
ghost use Rattle.jc_rows.specs.Keys.{numbered_keys, IsNumber};
ghost use Rattle.jc_index.specs.Lookups.{IsAnswer, IsChoice};
ghost use Rattle.jc_index.specs.steps.Choosing.{candidate_at};

use crate::own::{any_candidate, candidate, declared};
use crate::walk::{walk_interface_method, walk_method};
use jc_facts::flags::is_interface;
use jc_facts::key::Key;
use jc_index::ids::{ClassId, Found};
use jc_table::by_number::find_at;
use jc_table::table::Table;

/// The method of the key that the first class of the chain to declare it declares, whatever its
/// flags; none where there is none (JVMS 5.4.3.3).
pub fn find_in_chain(table: &Table, class: ClassId, key: &Key) -> Option<Found>
    requires { class < size table.now }
    ensures { IsAnswer table.now result (first_declared key.now (chain table.now (name_at table.now class))) }
{
    let mut next = Some(class);
    for done in 0..table.count() {
        let Some(class) = next else {
            return None;
        };
        match declared(table, class, key) {
            Some(found) => return Some(found),
            None => {}
        }
        next = table.superclass(class);
    }
    None
}

/// A method of the key that a reference to the class may find (JVMS 5.4.3.3); none where there is
/// none. The class has to load, and is no interface. It is looked up in the class's row; where none
/// is made, by a walk.
pub fn find_method(table: &Table, class: ClassId, key: &Key) -> Option<Found>
    requires class { class < size table.now }
    requires loads { load_fault table.now (name_at table.now class) ≡ None }
    requires kind { IsFalse (is_interface_of table.now (name_at table.now class)) }
    ensures { IsChoice table.now result (method_choices table.now (name_at table.now class) key.now) }
{
    find_method_by_number(table, class, key, table.key_number(key))
}

/// The same method, of a key whose number in the table is at hand. Where the class has a row, no byte
/// of the key is looked at.
pub fn find_method_by_number(
    table: &Table,
    class: ClassId,
    key: &Key,
    number: Option<usize>,
) -> Option<Found>
    requires class { class < size table.now }
    requires loads { load_fault table.now (name_at table.now class) ≡ None }
    requires kind { IsFalse (is_interface_of table.now (name_at table.now class)) }
    requires number { IsNumber (numbered_keys table.now) key.now number }
    ensures { IsChoice table.now result (method_choices table.now (name_at table.now class) key.now) }
{
    let _classes = table.count();
    match table.method_row(class) {
        Some(row) => find_at(row, number),
        None => walk_method(table, class, key),
    }
}

/// A method of the key that a reference to the interface may find (JVMS 5.4.3.4); none where there
/// is none. The interface has to load. It is looked up in the interface's row; where none is made, by
/// a walk.
pub fn find_interface_method(table: &Table, class: ClassId, key: &Key) -> Option<Found>
    requires class { class < size table.now }
    requires loads { load_fault table.now (name_at table.now class) ≡ None }
    requires kind { IsTrue (is_interface_of table.now (name_at table.now class)) }
    ensures { IsChoice table.now result (interface_choices table.now (name_at table.now class) key.now) }
{
    find_interface_method_by_number(table, class, key, table.key_number(key))
}

/// The same method, of a key whose number in the table is at hand. Where the interface has a row, no
/// byte of the key is looked at.
pub fn find_interface_method_by_number(
    table: &Table,
    class: ClassId,
    key: &Key,
    number: Option<usize>,
) -> Option<Found>
    requires class { class < size table.now }
    requires loads { load_fault table.now (name_at table.now class) ≡ None }
    requires kind { IsTrue (is_interface_of table.now (name_at table.now class)) }
    requires number { IsNumber (numbered_keys table.now) key.now number }
    ensures { IsChoice table.now result (interface_choices table.now (name_at table.now class) key.now) }
{
    let _classes = table.count();
    match table.method_row(class) {
        Some(row) => find_at(row, number),
        None => walk_interface_method(table, class, key),
    }
}

// Whether the class, where it is an interface, declares the key as an instance method that isn't
// private.
fn offers_itself(table: &Table, class: ClassId, key: &Key) -> bool
    requires { class < size table.now }
    ensures { result ≡ (is_interface_of table.now (name_at table.now class) && is_some (candidate_at table.now key.now class)) }
{
    is_interface(table.facts(class).flags) && candidate(table, class, key).is_some()
}

/// Whether the class, where it is an interface, or a superinterface of it declares the key as an
/// instance method that isn't private. The class has to load.
pub fn inherits_instance(table: &Table, class: ClassId, key: &Key) -> bool
    requires class { class < size table.now }
    requires loads { load_fault table.now (name_at table.now class) ≡ None }
    ensures { result ≡ inherits_from table.now (name_at table.now class) key.now }
{
    offers_itself(table, class, key) || any_candidate(table, class, key).is_some()
}
