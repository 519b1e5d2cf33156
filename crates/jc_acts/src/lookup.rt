//! What references to a member find (JVMS 5.4.3.2 to 5.4.3.4).
ghost use Rattle.std.specs.Prelude.{◌≡◌, ◌<◌, None, IsTrue};
ghost use Rattle.jc_facts.specs.client.Acts.{FieldForm, MethodForm, InterfaceForm};
ghost use Rattle.jc_facts.specs.client.Forms.{form_view};
ghost use Rattle.jc_facts.specs.world.World.{size};
ghost use Rattle.jc_facts.specs.world.Loading.{load_fault};
ghost use Rattle.jc_promises.specs.rule.Bases.{is_key_of_method};
ghost use Rattle.jc_index.specs.Ids.{name_at};
ghost use Rattle.jc_rows.specs.Keys.{numbered_keys, IsNumber};
ghost use Rattle.jc_index.specs.Sides.{IsSide};
ghost use Rattle.jc_acts.specs.steps.LookedUp.{LooksUp, IsInside};
ghost use Rattle.jc_acts.specs.steps.References.{acts_of, MayName};

use jc_facts::act::{Act, Form};
use jc_facts::flags::is_interface;
use jc_facts::key::Key;
use jc_facts::link_error::LinkError;
use jc_field::find::find_field_by_number;
use jc_index::ids::{ClassId, Found};
use jc_method::find::{find_interface_method_by_number, find_method_by_number};
use jc_table::table::Table;

/// What a reference finds on both sides, where it finds a member on the old one.
#[derive(Drop)]
pub struct Looked {
    pub before: Found,
    /// The member, or the error of the lookup.
    pub after: Result<Found, LinkError>,
}

/// The acts by references of the form that a rule looks at, in this order.
pub fn acts(form: Form) -> &'static [Act]
    ensures { result.now ≡ acts_of form }
{
    match form {
        Form::Field => &[Act::GetStatic, Act::PutStatic, Act::GetField, Act::PutField],
        Form::Method => &[Act::InvokeVirtual, Act::InvokeStatic],
        Form::Interface => &[Act::InvokeInterface, Act::InvokeStaticInterface],
    }
}

// What references to fields find (JVMS 5.4.3.2).
fn look_up_field(
    table: &Table,
    class: ClassId,
    key: &Key,
    number: Option<usize>,
) -> Result<Found, LinkError>
    requires class { class < size table.now }
    requires loads { load_fault table.now (name_at table.now class) ≡ None }
    requires number { IsNumber (numbered_keys table.now) key.now number }
    ensures found { LooksUp table.now (name_at table.now class) key.now FieldForm result }
    ensures inside { IsInside table.now result }
{
    match find_field_by_number(table, class, key, number) {
        Some(found) => Ok(found),
        None => Err(LinkError::NoSuchFieldError),
    }
}

// What references to methods of classes find (JVMS 5.4.3.3).
fn look_up_method(
    table: &Table,
    class: ClassId,
    key: &Key,
    number: Option<usize>,
) -> Result<Found, LinkError>
    requires side { IsSide table.now }
    requires class { class < size table.now }
    requires loads { load_fault table.now (name_at table.now class) ≡ None }
    requires key { IsTrue (is_key_of_method key.now) }
    requires number { IsNumber (numbered_keys table.now) key.now number }
    ensures found { LooksUp table.now (name_at table.now class) key.now MethodForm result }
    ensures inside { IsInside table.now result }
{
    if is_interface(table.facts(class).flags) {
        return Err(LinkError::IncompatibleClassChangeError);
    }
    match find_method_by_number(table, class, key, number) {
        Some(found) => Ok(found),
        None => Err(LinkError::NoSuchMethodError),
    }
}

// What references to methods of interfaces find (JVMS 5.4.3.4).
fn look_up_interface_method(
    table: &Table,
    class: ClassId,
    key: &Key,
    number: Option<usize>,
) -> Result<Found, LinkError>
    requires side { IsSide table.now }
    requires class { class < size table.now }
    requires loads { load_fault table.now (name_at table.now class) ≡ None }
    requires key { IsTrue (is_key_of_method key.now) }
    requires number { IsNumber (numbered_keys table.now) key.now number }
    ensures found { LooksUp table.now (name_at table.now class) key.now InterfaceForm result }
    ensures inside { IsInside table.now result }
{
    if !is_interface(table.facts(class).flags) {
        return Err(LinkError::IncompatibleClassChangeError);
    }
    match find_interface_method_by_number(table, class, key, number) {
        Some(found) => Ok(found),
        None => Err(LinkError::NoSuchMethodError),
    }
}

/// What references of the form to a key of the class find: a member, or the error of the lookup. The
/// number is the key's in the table.
///
/// # Errors
///
/// `IncompatibleClassChangeError` where the form is that of a method of a class and this is an interface, or
/// of an interface and this is a class; where nothing is found `NoSuchFieldError` or `NoSuchMethodError`
/// (JVMS 5.4.3.2 to 5.4.3.4).
pub fn look_up(
    table: &Table,
    form: Form,
    class: ClassId,
    key: &Key,
    number: Option<usize>,
) -> Result<Found, LinkError>
    requires side { IsSide table.now }
    requires class { class < size table.now }
    requires loads { load_fault table.now (name_at table.now class) ≡ None }
    requires key { MayName (form_view form) key.now }
    requires number { IsNumber (numbered_keys table.now) key.now number }
    ensures found { LooksUp table.now (name_at table.now class) key.now (form_view form) result }
    ensures inside { IsInside table.now result }
{
    match form {
        Form::Field => look_up_field(table, class, key, number),
        Form::Method => look_up_method(table, class, key, number),
        Form::Interface => look_up_interface_method(table, class, key, number),
    }
}
