//! The making of objects (JVMS 2.9.1, 6.5).
ghost use Rattle.std.specs.Prelude.{◌≡◌, ◌<◌, None};
ghost use Rattle.jc_facts.specs.declared.client.Item.TheVariants as items;
ghost use Rattle.jc_facts.specs.world.Loading.{load_fault};
ghost use Rattle.jc_facts.specs.client.Outcome.{outcome};
ghost use Rattle.jc_facts.specs.world.World.{size};
ghost use Rattle.jc_index.specs.Ids.{name_at};
ghost use Rattle.jc_index.specs.Lookups.{member_of};
ghost use Rattle.jc_link.specs.steps.ItemSteps.{FindsInit, new_use_fault, init_use_fault, makes_none};

use crate::class_step::named_class;
use crate::member_use::{is_accessible, passes_protected};
use jc_base::name::Name;
use jc_facts::flags::{is_abstract, is_interface};
use jc_facts::key_set::KeyRef;
use jc_facts::link_error::LinkError;
use jc_index::ids::{ClassId, Found};
use jc_index::members::own_method;
use jc_table::table::Table;

// The instance initializer that the class itself declares, or why there is none.
fn find_init(table: &Table, class: ClassId, descriptor: &Name) -> Result<Found, LinkError>
    requires class { class < size table.now }
    requires loads { load_fault table.now (name_at table.now class) ≡ None }
    ensures { FindsInit table.now (name_at table.now class) descriptor.now result }
{
    let facts = table.facts(class);
    if is_interface(facts.flags) {
        return Err(LinkError::IncompatibleClassChangeError);
    }
    match own_method(facts, &KeyRef::new(b"<init>", descriptor.as_bytes())) {
        Some(method) => Ok(Found {
            owner: class,
            flags: method.flags,
        }),
        None => Err(LinkError::NoSuchMethodError),
    }
}

// What the initializer found gives a `new` of the class.
#[tactic(auto, unfolding(jc_facts::specs::Options::or_else))]
fn new_use(
    table: &Table,
    from: ClassId,
    id: ClassId,
    found: &Found,
    class: &Name,
) -> Option<LinkError>
    requires from { from < size table.now }
    requires class { id < size table.now }
    requires owner { found.now.owner < size table.now }
    ensures { result ≡ new_use_fault table.now (name_at table.now from) (name_at table.now id) (member_of table.now found.now) class.now }
{
    if !is_accessible(table, from, id, found) {
        return Some(LinkError::IllegalAccessError);
    }
    if !passes_protected(table, from, id, found, class) {
        return Some(LinkError::VerifyError);
    }
    None
}

// Whether no object of the class can be made.
fn is_uninstantiable(table: &Table, class: ClassId) -> bool
    requires { class < size table.now }
    ensures { result ≡ makes_none table.now (name_at table.now class) }
{
    let flags = table.facts(class).flags;
    is_abstract(flags) || is_interface(flags)
}

/// What a `new` of the class with a call of its initializer gives.
pub fn new_error(table: &Table, from: ClassId, class: &Name, descriptor: &Name) -> Option<LinkError>
    requires { from < size table.now }
    ensures { result ≡ outcome table.now (name_at table.now from) (items.New class.now descriptor.now) }
{
    let id = match named_class(table, from, class, LinkError::NoSuchMethodError) {
        Ok(id) => id,
        Err(error) => return Some(error),
    };
    if is_uninstantiable(table, id) {
        return Some(LinkError::InstantiationError);
    }
    match find_init(table, id, descriptor) {
        Ok(found) => new_use(table, from, id, &found, class),
        Err(error) => Some(error),
    }
}

// What the initializer found gives a call from another one.
fn init_use(table: &Table, from: ClassId, id: ClassId, found: &Found) -> Option<LinkError>
    requires from { from < size table.now }
    requires class { id < size table.now }
    requires owner { found.now.owner < size table.now }
    ensures { result ≡ init_use_fault table.now (name_at table.now from) (name_at table.now id) (member_of table.now found.now) }
{
    if is_accessible(table, from, id, found) {
        None
    } else {
        Some(LinkError::IllegalAccessError)
    }
}

/// What a call of an initializer from another one gives.
pub fn init_error(
    table: &Table,
    from: ClassId,
    class: &Name,
    descriptor: &Name,
) -> Option<LinkError>
    requires { from < size table.now }
    ensures { result ≡ outcome table.now (name_at table.now from) (items.Init class.now descriptor.now) }
{
    let id = match named_class(table, from, class, LinkError::NoSuchMethodError) {
        Ok(id) => id,
        Err(error) => return Some(error),
    };
    match find_init(table, id, descriptor) {
        Ok(found) => init_use(table, from, id, &found),
        Err(error) => Some(error),
    }
}
