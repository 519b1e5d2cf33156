//! What the rows of what a class names above itself agree on.
ghost use Rattle.std.specs.Prelude.{◌≡◌, ◌<◌, ◌||◌, true, false, IfSome};
ghost use Rattle.jc_facts.specs.Flags.{private_flag, static_flag};
ghost use Rattle.jc_facts.specs.Options.{or_else};
ghost use Rattle.jc_facts.specs.world.Assignment.{is_interface_of};
ghost use Rattle.jc_facts.specs.world.World.{size};
ghost use Rattle.jc_index.specs.Ids.{name_at};
ghost use Rattle.jc_rows.specs.Rows.{entry};
ghost use Rattle.jc_rows.specs.steps.Agreeing.{agrees, all_agree, IsAgreed};
ghost use Rattle.jc_rows.specs.steps.Gathering.{AreRising, row_named, first_entry, super_entry};

use crate::gathering::row_of;
use crate::row::{RowItem, find};
use jc_base::items::Items;
use jc_base::name::Name;
use jc_facts::class_facts::ClassFacts;
use jc_facts::flags::{is_interface, is_private, is_static};
use jc_index::hierarchy::Hierarchy;
use jc_index::ids::Found;
use jc_index::index::Index;

// Whether there is no entry, or the same.
fn agrees_with(found: &Found, entry: Option<Found>) -> bool
    ensures { result ≡ agrees found.now entry }
{
    match entry {
        Some(other) => other.owner == found.owner && other.flags == found.flags,
        None => true,
    }
}

// The entry that the row of the class of this name has for the number.
fn entry_of(index: &Index, rows: &[Items<RowItem>], name: &Name, number: usize) -> Option<Found>
    requires { AreRising index.now rows.now }
    ensures { result ≡ entry (row_named index.now rows.now name.now) number }
{
    find(row_of(index, rows, name.as_bytes()), number)
}

// The one that the first of the rows of these classes has.
#[tactic(auto, unfolding(jc_facts::specs::Options::first_some))]
fn first_of(index: &Index, rows: &[Items<RowItem>], names: &[Name], number: usize) -> Option<Found>
    requires { AreRising index.now rows.now }
    ensures { result ≡ first_entry index.now rows.now names.now number }
{
    for name in names {
        match entry_of(index, rows, name, number) {
            Some(found) => return Some(found),
            None => {}
        }
    }
    None
}

// Whether the row of each of these classes has none, or this one.
fn agree_all(
    index: &Index,
    rows: &[Items<RowItem>],
    names: &[Name],
    number: usize,
    found: &Found,
) -> bool
    requires { AreRising index.now rows.now }
    ensures { result ≡ all_agree index.now rows.now number found.now names.now }
{
    for name in names {
        if !agrees_with(found, entry_of(index, rows, name, number)) {
            return false;
        }
    }
    true
}

// The one that the row of the superclass has.
#[tactic(auto, unfolding(jc_facts::specs::Options::and_then))]
fn of_superclass(
    index: &Index,
    rows: &[Items<RowItem>],
    facts: &ClassFacts,
    number: usize,
) -> Option<Found>
    requires { AreRising index.now rows.now }
    ensures { result ≡ super_entry index.now rows.now facts.now.superclass number }
{
    match &facts.superclass {
        Some(name) => entry_of(index, rows, name, number),
        None => None,
    }
}

// The one that the first of the rows of what the class names above itself has.
#[tactic(auto, unfolding(jc_facts::specs::Options::or_else))]
fn first_above(
    index: &Index,
    rows: &[Items<RowItem>],
    facts: &ClassFacts,
    number: usize,
) -> Option<Found>
    requires { AreRising index.now rows.now }
    ensures { result ≡ or_else (first_entry index.now rows.now facts.now.interfaces number) (super_entry index.now rows.now facts.now.superclass number) }
{
    match first_of(index, rows, facts.interfaces.as_slice(), number) {
        Some(found) => Some(found),
        None => of_superclass(index, rows, facts, number),
    }
}

/// What all rows of what the class names above itself have for the number, where each has that or
/// nothing.
pub(crate) fn agreed(
    index: &Index,
    rows: &[Items<RowItem>],
    facts: &ClassFacts,
    number: usize,
) -> Option<Found>
    requires { AreRising index.now rows.now }
    ensures { IfSome result (IsAgreed index.now rows.now facts.now number) }
{
    let Some(found) = first_above(index, rows, facts, number) else {
        return None;
    };
    if !agrees_with(&found, of_superclass(index, rows, facts, number)) {
        return None;
    }
    if !agree_all(index, rows, facts.interfaces.as_slice(), number, &found) {
        return None;
    }
    Some(found)
}

/// Whether the member is an interface's, and neither private nor static.
pub(crate) fn is_inherited(hierarchy: &Hierarchy, found: &Found) -> bool
    requires { found.now.owner < size hierarchy.now }
    ensures interface { result ≡ true → is_interface_of hierarchy.now (name_at hierarchy.now found.now.owner) ≡ true }
    ensures counts { result ≡ true → (private_flag found.now.flags || static_flag found.now.flags) ≡ false }
{
    if is_private(found.flags) || is_static(found.flags) {
        return false;
    }
    is_interface(hierarchy.facts(found.owner).flags)
}
