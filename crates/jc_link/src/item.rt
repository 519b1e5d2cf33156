//! The outcome of an item (JVMS 5.4.3, 5.4.4, 6.5).
ghost use Rattle.std.specs.Prelude.{◌≡◌, ◌<◌, ◌||◌, not, IsTrue};
ghost use Rattle.jc_desc.specs.Names.{is_clinit_name};
ghost use Rattle.jc_facts.specs.declared.client.Item.TheVariants as items;
ghost use Rattle.jc_facts.specs.client.Acts.{form_of, is_act_on_field};
ghost use Rattle.jc_facts.specs.client.Outcome.{outcome, array_fault};
ghost use Rattle.jc_facts.specs.world.World.{size};
ghost use Rattle.jc_index.specs.Ids.{name_at};
ghost use Rattle.jc_index.specs.Sides.{IsSide};
ghost use Rattle.jc_link.specs.steps.Asked.{names_no_clinit};

use crate::class_step::{named_class, step_error};
use crate::creation::{init_error, new_error};
use crate::lookup::look_up;
use crate::member_use::use_error;
use jc_access::assigning::assignable;
use jc_base::name::Name;
use jc_facts::act::{Act, Form};
use jc_facts::client::{Item, Place};
use jc_facts::key::Key;
use jc_facts::link_error::LinkError;
use jc_index::ids::ClassId;
use jc_table::table::Table;

// An array class has no members, and is no interface.
fn array_error(act: Act) -> LinkError
    ensures { result ≡ array_fault (form_of act) }
{
    match act.form() {
        Form::Field => LinkError::NoSuchFieldError,
        Form::Method => LinkError::NoSuchMethodError,
        Form::Interface => LinkError::IncompatibleClassChangeError,
    }
}

// What an act on a field or a method gives.
fn access_error(
    table: &Table,
    from: ClassId,
    act: Act,
    class: &Name,
    key: &Key,
    receiver: &Option<Name>,
    place: Place,
) -> Option<LinkError>
    requires side { IsSide table.now }
    requires from { from < size table.now }
    requires key { IsTrue (is_act_on_field act || not (is_clinit_name key.now.name)) }
    ensures { result ≡ outcome table.now (name_at table.now from) (items.Access act class.now key.now receiver.now place) }
{
    let id = match named_class(table, from, class, array_error(act)) {
        Ok(id) => id,
        Err(error) => return Some(error),
    };
    match look_up(table, act, id, key) {
        Ok(found) => use_error(table, from, act, id, receiver, place, &found),
        Err(error) => Some(error),
    }
}

// What an assignment gives.
#[tactic(auto, unfolding(jc_facts::specs::client::Outcome::outcome))]
fn assign_error(table: &Table, from: ClassId, one: &Name, other: &Name) -> Option<LinkError>
    ensures { result ≡ outcome table.now (name_at table.now from) (items.Assign one.now other.now) }
{
    if assignable(table, one, other) {
        None
    } else {
        Some(LinkError::VerifyError)
    }
}

/// The outcome of an item of the class: none where it is Ok, or the error of the first of its steps
/// that fails: class, lookup, access, kind, final, assignment. No act on a method names `<clinit>`.
#[tactic(auto, unfolding(jc_facts::specs::client::Outcome::outcome))]
pub fn item_error(table: &Table, from: ClassId, item: &Item) -> Option<LinkError>
    requires side { IsSide table.now }
    requires from { from < size table.now }
    requires item { IsTrue (names_no_clinit item.now) }
    ensures { result ≡ outcome table.now (name_at table.now from) item.now }
{
    match item {
        Item::Class { class } => step_error(table, from, class),
        Item::New { class, descriptor } => new_error(table, from, class, descriptor),
        Item::Init { class, descriptor } => init_error(table, from, class, descriptor),
        Item::Access {
            act,
            class,
            key,
            receiver,
            place,
        } => access_error(table, from, *act, class, key, receiver, *place),
        Item::Assign { from: one, to } => assign_error(table, from, one, to),
    }
}
