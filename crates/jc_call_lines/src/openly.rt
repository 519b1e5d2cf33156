//! What a reference finds: whether javac makes a handle of it, and whether clients can name the classes that declare it.
ghost use Rattle.std.specs.Prelude.{◌≡◌, ◌<◌, ◌==◌, ◌||◌, None, Some, not, true, IsTrue};
ghost use Rattle.std.specs.List.{list_all};
ghost use Rattle.jc_calls.specs.Handles.{is_referable};
ghost use Rattle.jc_facts.specs.Names.{Bytes};
ghost use Rattle.jc_facts.specs.world.Assignment.{is_interface_of};
ghost use Rattle.jc_facts.specs.world.Hierarchy.{in_chain};
ghost use Rattle.jc_facts.specs.world.Loading.{load_fault};
ghost use Rattle.jc_facts.specs.world.Lookup.{superinterface_choices};
ghost use Rattle.jc_facts.specs.world.World.{size};
ghost use Rattle.jc_index.specs.Ids.{name_at};
ghost use Rattle.jc_index.specs.Lookups.{IsChoice};
ghost use Rattle.jc_index.specs.Picks.{Picks};
ghost use Rattle.jc_rows.specs.Keys.{numbered_keys, IsNumber};
ghost use Rattle.jc_rows.specs.Rows.{lookup_choices};
ghost use Rattle.jc_call_lines.specs.steps.Openly.{open_class, is_owner_open, owners_open, choices_open, finds_referable, AreOpenAbove};

use crate::choice::{are_flags_fit, chosen_beside, hidden_above, offered_hidden, offered_unfit};
use jc_facts::flags::{is_abstract, is_interface};
use jc_facts::key::Key;
use jc_index::choose;
use jc_index::ids::{ClassId, Found};
use jc_method::find::{find_interface_method_by_number, find_method_by_number};
use jc_table::naming::is_nameable;
use jc_table::table::Table;

// Whether the class is an interface.
fn is_of_interface(table: &Table, class: ClassId) -> bool
    requires { class < size table.now }
    ensures { result ≡ is_interface_of table.now (name_at table.now class) }
{
    is_interface(table.facts(class).flags)
}

// ---- all classes above one

// Whether clients can name the class and its superclasses.
fn is_chain_open(table: &Table, class: ClassId) -> bool
    requires { class < size table.now }
    ensures { IsTrue result → (y : Bytes) → in_chain table.now (name_at table.now class) y ≡ true → open_class table.now y ≡ true }
{
    let mut at = class;
    for _ in 0..table.count() {
        if !is_nameable(table, at) {
            return false;
        }
        at = match table.superclass(at) {
            Some(above) => above,
            None => return true,
        };
    }
    true
}

/// Whether clients can name the class and its superclasses and, where it is an interface, its
/// superinterfaces: one of them is said to declare what a reference to it finds.
pub(crate) fn are_open_above(table: &Table, class: ClassId) -> bool
    requires { class < size table.now }
    ensures { IsTrue result → AreOpenAbove table.now (name_at table.now class) }
{
    if !is_chain_open(table, class) {
        return false;
    }
    if !is_of_interface(table, class) {
        return true;
    }
    hidden_above(table, class).is_none()
}

// ---- what a reference may find

// A method of the key that a reference to the class or the interface may find; none where there is none
// (JVMS 5.4.3.3, 5.4.3.4). The number is the key's in the table.
fn found(table: &Table, class: ClassId, key: &Key, number: Option<usize>) -> Option<Found>
    requires class { class < size table.now }
    requires loads { load_fault table.now (name_at table.now class) ≡ None }
    requires number { IsNumber (numbered_keys table.now) key.now number }
    ensures { IsChoice table.now result (lookup_choices table.now (name_at table.now class) key.now) }
{
    if is_of_interface(table, class) {
        return find_interface_method_by_number(table, class, key, number);
    }
    find_method_by_number(table, class, key, number)
}

// Whether the method found is of the class itself or of no interface. Nothing else may be found then.
fn is_front(table: &Table, class: ClassId, found: Found) -> bool
    requires owner { found.owner < size table.now }
    ensures { result ≡ (found.owner == «class» || not (is_interface_of table.now (name_at table.now found.owner))) }
{
    found.owner == class || !is_of_interface(table, found.owner)
}

// What the superinterfaces give: a maximally specific method that isn't abstract, else one that is.
fn picked(table: &Table, class: ClassId, key: &Key) -> Option<Found>
    requires class { class < size table.now }
    requires loads { load_fault table.now (name_at table.now class) ≡ None }
    ensures choice { IsChoice table.now result (superinterface_choices table.now (name_at table.now class) key.now) }
    ensures pick { Picks table.now (name_at table.now class) key.now result }
{
    choose::find_above(table.hierarchy(), class, key)
}

// Whether clients can name each class that declares what the superinterfaces give. Where they can name
// all that declare the key, they can; else the method that is picked decides: it alone is found where it
// isn't abstract and no other one is chosen before others, and otherwise any may be.
fn is_open_above(table: &Table, class: ClassId, key: &Key) -> bool
    requires class { class < size table.now }
    requires loads { load_fault table.now (name_at table.now class) ≡ None }
    ensures { result ≡ list_all (is_owner_open table.now) (superinterface_choices table.now (name_at table.now class) key.now) }
{
    // A count says that the table stands for a side.
    let _classes = table.count();
    let Some(_hidden) = offered_hidden(table, class, key) else {
        return true;
    };
    let Some(found) = picked(table, class, key) else {
        return true;
    };
    if is_abstract(found.flags) {
        return false;
    }
    let None = chosen_beside(table, class, key, found.owner) else {
        return false;
    };
    is_nameable(table, found.owner)
}

// Whether clients can name each class that declares what a reference may find, of which this is one.
fn are_owners_open(table: &Table, class: ClassId, key: &Key, found: Found) -> bool
    requires class { class < size table.now }
    requires loads { load_fault table.now (name_at table.now class) ≡ None }
    requires owner { found.owner < size table.now }
    requires found { IsChoice table.now (Some found) (lookup_choices table.now (name_at table.now class) key.now) }
    ensures { result ≡ owners_open table.now (name_at table.now class) key.now }
{
    // A count says that the table stands for a side.
    let _classes = table.count();
    if !is_nameable(table, found.owner) {
        return false;
    }
    if is_front(table, class, found) {
        return true;
    }
    is_open_above(table, class, key)
}

// Whether clients can name the class that is said to declare what a reference to a class finds in the
// owner: it is the class named where that is an interface.
fn is_said_open(table: &Table, owner: ClassId) -> bool
    requires { owner < size table.now }
    ensures { result ≡ (is_interface_of table.now (name_at table.now owner) || open_class table.now (name_at table.now owner)) }
{
    is_of_interface(table, owner) || is_nameable(table, owner)
}

// Whether clients can name each class that is said to declare what a reference may find, of which this
// is one.
fn is_found_open(table: &Table, class: ClassId, key: &Key, found: Found) -> bool
    requires class { class < size table.now }
    requires loads { load_fault table.now (name_at table.now class) ≡ None }
    requires owner { found.owner < size table.now }
    requires found { IsChoice table.now (Some found) (lookup_choices table.now (name_at table.now class) key.now) }
    ensures { result ≡ choices_open table.now (name_at table.now class) key.now }
{
    if is_of_interface(table, class) {
        return are_owners_open(table, class, key, found);
    }
    is_said_open(table, found.owner)
}

/// Whether clients can name each class that is said to declare a method of the key which a reference to
/// the class or the interface may find. The class has to load, and the number is the key's in the table.
/// Mostly one method is found, of which the row tells the class.
pub(crate) fn are_choices_open(
    table: &Table,
    class: ClassId,
    key: &Key,
    number: Option<usize>,
) -> bool
    requires class { class < size table.now }
    requires loads { load_fault table.now (name_at table.now class) ≡ None }
    requires number { IsNumber (numbered_keys table.now) key.now number }
    ensures { result ≡ choices_open table.now (name_at table.now class) key.now }
{
    match found(table, class, key, number) {
        None => true,
        Some(found) => is_found_open(table, class, key, found),
    }
}

// Whether javac makes handles of all that the superinterfaces give. Where it does of all that declare the
// key, it does; else the method that is picked decides, as above.
fn are_fit_above(table: &Table, class: ClassId, key: &Key) -> bool
    requires class { class < size table.now }
    requires loads { load_fault table.now (name_at table.now class) ≡ None }
    ensures { result ≡ list_all is_referable (superinterface_choices table.now (name_at table.now class) key.now) }
{
    // A count says that the table stands for a side.
    let _classes = table.count();
    let Some(_unfit) = offered_unfit(table, class, key) else {
        return true;
    };
    let Some(found) = picked(table, class, key) else {
        return true;
    };
    if is_abstract(found.flags) {
        return false;
    }
    let None = chosen_beside(table, class, key, found.owner) else {
        return false;
    };
    are_flags_fit(found.flags)
}

// Whether javac makes handles of all that a reference may find, of which this is one.
fn is_found_referable(table: &Table, class: ClassId, key: &Key, found: Found) -> bool
    requires class { class < size table.now }
    requires loads { load_fault table.now (name_at table.now class) ≡ None }
    requires owner { found.owner < size table.now }
    requires found { IsChoice table.now (Some found) (lookup_choices table.now (name_at table.now class) key.now) }
    ensures { result ≡ finds_referable table.now (name_at table.now class) key.now }
{
    // A count says that the table stands for a side.
    let _classes = table.count();
    if !are_flags_fit(found.flags) {
        return false;
    }
    if is_front(table, class, found) {
        return true;
    }
    are_fit_above(table, class, key)
}

/// Whether a reference to the class or the interface finds a method of the key, and javac makes a handle
/// of each that it may find. The class has to load, and the number is the key's in the table. Mostly one
/// method is found, of which the row tells the flags.
pub(crate) fn finds_referable(
    table: &Table,
    class: ClassId,
    key: &Key,
    number: Option<usize>,
) -> bool
    requires class { class < size table.now }
    requires loads { load_fault table.now (name_at table.now class) ≡ None }
    requires number { IsNumber (numbered_keys table.now) key.now number }
    ensures { result ≡ finds_referable table.now (name_at table.now class) key.now }
{
    match found(table, class, key, number) {
        None => false,
        Some(found) => is_found_referable(table, class, key, found),
    }
}
