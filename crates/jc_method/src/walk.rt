//! Plain programs for the lookup of methods: a walk up the superclasses and the superinterfaces
//! (JVMS 5.4.3.3, 5.4.3.4).
ghost use Rattle.std.specs.Prelude.{◌≡◌, ◌<◌, None, IsTrue, IsFalse};
ghost use Rattle.jc_facts.specs.Options.{or_else, and_then};
ghost use Rattle.jc_facts.specs.world.World.{size, find_class, declared_method};
ghost use Rattle.jc_facts.specs.world.Assignment.{is_interface_of};
ghost use Rattle.jc_facts.specs.world.Loading.{load_fault};
ghost use Rattle.jc_facts.specs.world.Lookup.{method_choices, interface_choices, public_method_of_object};
ghost use Rattle.jc_index.specs.Ids.{name_at};
ghost use Rattle.jc_index.specs.Lookups.{IsAnswer, IsChoice};

use crate::find::find_in_chain;
use crate::own::{declared, find_above};
use jc_facts::flags::{is_public, is_static};
use jc_facts::key::Key;
use jc_index::ids::{ClassId, Found};
use jc_table::table::Table;

// The root of the hierarchy (JVMS 4.1).
const OBJECT: &[u8] = b"java/lang/Object";

/// A method of the key that a reference to the class may find, as `find_method` gives one: the first
/// of its chain, else what its superinterfaces give (JVMS 5.4.3.3). The class has to load, and is no
/// interface.
pub fn walk_method(table: &Table, class: ClassId, key: &Key) -> Option<Found>
    requires class { class < size table.now }
    requires loads { load_fault table.now (name_at table.now class) ≡ None }
    requires kind { IsFalse (is_interface_of table.now (name_at table.now class)) }
    ensures { IsChoice table.now result (method_choices table.now (name_at table.now class) key.now) }
{
    match find_in_chain(table, class, key) {
        Some(found) => Some(found),
        None => find_above(table, class, key),
    }
}

// The public instance method of the key that `java/lang/Object` declares.
fn object_method(table: &Table, key: &Key) -> Option<Found>
    ensures { IsAnswer table.now result (public_method_of_object table.now key.now) }
{
    let Some(object) = table.get(OBJECT) else {
        return None;
    };
    let Some(found) = declared(table, object, key) else {
        return None;
    };
    if !is_public(found.flags) {
        return None;
    }
    if is_static(found.flags) {
        return None;
    }
    Some(found)
}

// The interface's own method of the key, else that of `java/lang/Object`.
fn own_or_object(table: &Table, class: ClassId, key: &Key) -> Option<Found>
    requires { class < size table.now }
    ensures { IsAnswer table.now result (or_else (and_then (declared_method key.now) (find_class table.now (name_at table.now class))) (public_method_of_object table.now key.now)) }
{
    match declared(table, class, key) {
        Some(found) => Some(found),
        None => object_method(table, key),
    }
}

/// A method of the key that a reference to the interface may find, as `find_interface_method` gives
/// one: its own, else one of `java/lang/Object`, else what its superinterfaces give (JVMS 5.4.3.4).
/// The interface has to load.
pub fn walk_interface_method(table: &Table, class: ClassId, key: &Key) -> Option<Found>
    requires class { class < size table.now }
    requires loads { load_fault table.now (name_at table.now class) ≡ None }
    requires kind { IsTrue (is_interface_of table.now (name_at table.now class)) }
    ensures { IsChoice table.now result (interface_choices table.now (name_at table.now class) key.now) }
{
    match own_or_object(table, class, key) {
        Some(found) => Some(found),
        None => find_above(table, class, key),
    }
}
