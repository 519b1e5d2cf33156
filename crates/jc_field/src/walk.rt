//! A plain program for the lookup of fields: a walk up the superclasses and their interfaces
//! (JVMS 5.4.3.2).
ghost use Rattle.std.specs.Prelude.{◌≡◌, ◌<◌, None, IsTrue, is_some};
ghost use Rattle.std.specs.List.{All, list_any};
ghost use Rattle.jc_facts.specs.world.World.{size};
ghost use Rattle.jc_facts.specs.world.Loading.{load_fault};
ghost use Rattle.jc_facts.specs.world.Lookup.{field_found};
ghost use Rattle.jc_facts.specs.world.Assignment.{is_interface_of};
ghost use Rattle.jc_index.specs.Ids.{name_at};
ghost use Rattle.jc_index.specs.Lookups.{IsAnswer};
ghost use Rattle.jc_index.specs.Sides.{IsSide};
ghost use Rattle.jc_field.specs.steps.Fields.{declares_at, own_found, interfaces_found, here_found, AreReady, GivenBy, Gives};

use jc_base::name::Name;
use jc_facts::key::Key;
use jc_facts::key_set::KeyRef;
use jc_index::ids::{ClassId, Found};
use jc_index::members::own_field;
use jc_table::table::Table;

// The class's own field.
pub(crate) fn own(table: &Table, class: ClassId, key: &KeyRef<'_>) -> Option<Found>
    requires { class < size table.now }
    ensures { IsAnswer table.now result (own_found table.now (name_at table.now class) key.now) }
{
    match own_field(table.facts(class), key) {
        Some(field) => Some(Found {
            owner: class,
            flags: field.flags,
        }),
        None => None,
    }
}

// Whether the class itself declares the field.
fn declares(table: &Table, class: ClassId, key: &KeyRef<'_>) -> bool
    requires { class < size table.now }
    ensures { result ≡ declares_at table.now key.now class }
{
    own_field(table.facts(class), key).is_some()
}

// Whether one of these classes itself declares the field.
fn any_declares(table: &Table, classes: &[ClassId], key: &KeyRef<'_>) -> bool
    requires { All (λ id. id < size table.now) classes.now }
    ensures { result ≡ list_any (declares_at table.now key.now) classes.now }
{
    for class in classes {
        if declares(table, *class, key) {
            return true;
        }
    }
    false
}

// Whether a reference to the interface finds the field: it or one that it leads to declares it.
fn has_field(table: &Table, interface: ClassId, key: &KeyRef<'_>) -> bool
    requires side { IsSide table.now }
    requires class { interface < size table.now }
    requires kind { IsTrue (is_interface_of table.now (name_at table.now interface)) }
    requires loads { load_fault table.now (name_at table.now interface) ≡ None }
    ensures { result ≡ is_some (field_found table.now (name_at table.now interface) key.now) }
{
    declares(table, interface, key) || any_declares(table, table.interfaces(interface), key)
}

// The first of the interfaces by which the field is found.
fn first_of(table: &Table, names: &[Name], key: &KeyRef<'_>) -> Option<ClassId>
    requires side { IsSide table.now }
    requires ready { AreReady table.now names.now }
    ensures { GivenBy table.now key.now names.now result }
{
    for name in names {
        let Some(interface) = table.get(name.as_bytes()) else {
            return None;
        };
        if has_field(table, interface, key) {
            return Some(interface);
        }
    }
    None
}

// The first interface that the class names by which the field is found.
fn first_interface(table: &Table, class: ClassId, key: &KeyRef<'_>) -> Option<ClassId>
    requires side { IsSide table.now }
    requires class { class < size table.now }
    requires loads { load_fault table.now (name_at table.now class) ≡ None }
    ensures { Gives table.now key.now (name_at table.now class) result }
{
    first_of(table, table.facts(class).interfaces.as_slice(), key)
}

// The field that the interfaces which the class names give, in order. It never comes back from an
// interface that it goes down into.
fn in_interfaces(table: &Table, class: ClassId, key: &KeyRef<'_>) -> Option<Found>
    requires side { IsSide table.now }
    requires class { class < size table.now }
    requires loads { load_fault table.now (name_at table.now class) ≡ None }
    ensures { IsAnswer table.now result (interfaces_found table.now (name_at table.now class) key.now) }
{
    let mut class = class;
    for _ in 0..table.count() {
        let Some(interface) = first_interface(table, class, key) else {
            return None;
        };
        match own(table, interface, key) {
            Some(found) => return Some(found),
            None => class = interface,
        }
    }
    None
}

// The class's own field, or else what its interfaces give.
fn here(table: &Table, class: ClassId, key: &KeyRef<'_>) -> Option<Found>
    requires side { IsSide table.now }
    requires class { class < size table.now }
    requires loads { load_fault table.now (name_at table.now class) ≡ None }
    ensures { IsAnswer table.now result (here_found table.now (name_at table.now class) key.now) }
{
    match own(table, class, key) {
        Some(found) => Some(found),
        None => in_interfaces(table, class, key),
    }
}

/// The field of the key that a reference to the class finds, as `find_field` gives it: the class's
/// own, else what its superinterfaces give, in order, else what its superclass gives
/// (JVMS 5.4.3.2). The class has to load.
pub fn walk_field(table: &Table, class: ClassId, key: &Key) -> Option<Found>
    requires class { class < size table.now }
    requires loads { load_fault table.now (name_at table.now class) ≡ None }
    ensures { IsAnswer table.now result (field_found table.now (name_at table.now class) key.now) }
{
    let key = KeyRef::of_key(key);
    let mut class = class;
    for _ in 0..table.count() {
        match here(table, class, &key) {
            Some(found) => return Some(found),
            None => {}
        }
        class = match table.superclass(class) {
            Some(above) => above,
            None => return None,
        };
    }
    None
}
