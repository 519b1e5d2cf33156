//! What the lookup of an act finds, by the form of its reference (JVMS 5.4.3.2 to 5.4.3.4).
ghost use Rattle.std.specs.Prelude.{◌≡◌, ◌<◌, None, IsTrue, IsFalse, ◌||◌, not};
ghost use Rattle.jc_desc.specs.Names.{is_clinit_name};
ghost use Rattle.jc_facts.specs.declared.act.Act.{Act};
ghost use Rattle.jc_facts.specs.client.Acts.{FieldForm, MethodForm, InterfaceForm, form_of, is_act_on_field};
ghost use Rattle.jc_facts.specs.world.Loading.{load_fault};
ghost use Rattle.jc_facts.specs.world.World.{size};
ghost use Rattle.jc_index.specs.Ids.{name_at};
ghost use Rattle.jc_index.specs.Sides.{IsSide};
ghost use Rattle.jc_link.specs.steps.ItemSteps.{LooksUp};

use jc_facts::act::{Act, Form};
use jc_facts::flags::is_interface;
use jc_facts::key::Key;
use jc_facts::link_error::LinkError;
use jc_field::find::find_field;
use jc_index::ids::{ClassId, Found};
use jc_method::find::{find_interface_method, find_method};
use jc_table::table::Table;

// What acts on fields find (JVMS 5.4.3.2).
fn field(table: &Table, class: ClassId, key: &Key) -> Result<Found, LinkError>
    requires class { class < size table.now }
    requires loads { load_fault table.now (name_at table.now class) ≡ None }
    ensures { (act : Act) → form_of act ≡ FieldForm → LooksUp table.now act (name_at table.now class) key.now result }
{
    match find_field(table, class, key) {
        Some(found) => Ok(found),
        None => Err(LinkError::NoSuchFieldError),
    }
}

// What acts on methods of classes find (JVMS 5.4.3.3).
fn method(table: &Table, class: ClassId, key: &Key) -> Result<Found, LinkError>
    requires side { IsSide table.now }
    requires class { class < size table.now }
    requires loads { load_fault table.now (name_at table.now class) ≡ None }
    requires key { IsFalse (is_clinit_name key.now.name) }
    ensures { (act : Act) → form_of act ≡ MethodForm → LooksUp table.now act (name_at table.now class) key.now result }
{
    if is_interface(table.facts(class).flags) {
        return Err(LinkError::IncompatibleClassChangeError);
    }
    match find_method(table, class, key) {
        Some(found) => Ok(found),
        None => Err(LinkError::NoSuchMethodError),
    }
}

// What acts on methods of interfaces find (JVMS 5.4.3.4).
fn interface_method(table: &Table, class: ClassId, key: &Key) -> Result<Found, LinkError>
    requires side { IsSide table.now }
    requires class { class < size table.now }
    requires loads { load_fault table.now (name_at table.now class) ≡ None }
    requires key { IsFalse (is_clinit_name key.now.name) }
    ensures { (act : Act) → form_of act ≡ InterfaceForm → LooksUp table.now act (name_at table.now class) key.now result }
{
    if !is_interface(table.facts(class).flags) {
        return Err(LinkError::IncompatibleClassChangeError);
    }
    match find_interface_method(table, class, key) {
        Some(found) => Ok(found),
        None => Err(LinkError::NoSuchMethodError),
    }
}

/// What the act's lookup finds from the class, which loads; no act on a method names `<clinit>`.
///
/// # Errors
///
/// `IncompatibleClassChangeError` where the act names a method of a class and this is an interface, or of an
/// interface and this is a class; where nothing is found `NoSuchFieldError` or `NoSuchMethodError` (JVMS
/// 5.4.3.2 to 5.4.3.4).
pub fn look_up(table: &Table, act: Act, class: ClassId, key: &Key) -> Result<Found, LinkError>
    requires side { IsSide table.now }
    requires class { class < size table.now }
    requires loads { load_fault table.now (name_at table.now class) ≡ None }
    requires key { IsTrue (is_act_on_field act || not (is_clinit_name key.now.name)) }
    ensures { LooksUp table.now act (name_at table.now class) key.now result }
{
    match act.form() {
        Form::Field => field(table, class, key),
        Form::Method => method(table, class, key),
        Form::Interface => interface_method(table, class, key),
    }
}
