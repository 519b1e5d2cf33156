//! The class that an item names (JVMS 5.4.3.1).
ghost use Rattle.std.specs.Prelude.{◌≡◌, ◌<◌, Some};
ghost use Rattle.jc_facts.specs.client.Outcome.{class_fault, element_fault, class_step};
ghost use Rattle.jc_facts.specs.world.World.{size};
ghost use Rattle.jc_index.specs.Ids.{name_at};
ghost use Rattle.jc_access.specs.TypeTexts.{element_view};
ghost use Rattle.jc_link.specs.steps.ItemSteps.{IsNamed, IsReached};

use jc_access::access::{Seat, class_access};
use jc_access::assigning::{Element, is_array, read_type};
use jc_base::name::Name;
use jc_facts::link_error::LinkError;
use jc_index::ids::ClassId;
use jc_table::table::Table;

/// The class of this name, which loads and is accessible from the other class; or why it isn't so.
fn class_of(table: &Table, from: ClassId, name: &[u8]) -> Result<ClassId, LinkError>
    requires { from < size table.now }
    ensures { IsNamed table.now (name_at table.now from) name.now result }
{
    let Some(class) = table.get(name) else {
        return Err(LinkError::NoClassDefFoundError);
    };
    match table.fault_at(class) {
        Some(error) => return Err(error),
        None => {}
    }
    if !class_access(table, Seat::Inside(from), class) {
        return Err(LinkError::IllegalAccessError);
    }
    Ok(class)
}

// Why the class isn't there for the other one; none where it is.
fn class_error(table: &Table, from: ClassId, name: &[u8]) -> Option<LinkError>
    requires { from < size table.now }
    ensures { result ≡ class_fault table.now (name_at table.now from) name.now }
{
    match class_of(table, from, name) {
        Ok(_) => None,
        Err(error) => Some(error),
    }
}

// The same of an element of arrays: a primitive one is always there.
fn element_error(table: &Table, from: ClassId, element: Element<'_>) -> Option<LinkError>
    requires { from < size table.now }
    ensures { result ≡ element_fault table.now (name_at table.now from) (element_view element.entry) }
{
    match element {
        Element::Primitive(_) => None,
        Element::Class(name) => class_error(table, from, name),
    }
}

/// What the class step gives: the load fault of the class that the text names, an array by its
/// elements, or `IllegalAccessError` where it isn't accessible; none where the step is Ok.
#[tactic(auto, unfolding(jc_facts::specs::client::Outcome::class_step))]
pub fn step_error(table: &Table, from: ClassId, text: &Name) -> Option<LinkError>
    requires { from < size table.now }
    ensures { result ≡ class_step table.now (name_at table.now from) text.now }
{
    match read_type(text.as_bytes()) {
        None => Some(LinkError::NoClassDefFoundError),
        Some(t) => element_error(table, from, t.element),
    }
}

/// The class that the text names, where the steps behind the class step are reached.
///
/// # Errors
///
/// The error of the class step, where it has one; else `array`, where the text names an array.
pub fn named_class(
    table: &Table,
    from: ClassId,
    text: &Name,
    array: LinkError,
) -> Result<ClassId, LinkError>
    requires { from < size table.now }
    ensures { IsReached table.now (name_at table.now from) text.now array result }
{
    if is_array(text.as_bytes()) {
        return match step_error(table, from, text) {
            Some(error) => Err(error),
            None => Err(array),
        };
    }
    match class_of(table, from, text.as_bytes()) {
        Ok(class) => Ok(class),
        Err(error) => Err(error),
    }
}
