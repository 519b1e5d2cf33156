//! The check on protected members.
ghost use Rattle.std.specs.Prelude.{◌≡◌, ◌<◌};
ghost use Rattle.jc_facts.specs.world.Assignment.{passes_protected_check};
ghost use Rattle.jc_facts.specs.world.World.{DeclaredMember, size};
ghost use Rattle.jc_index.specs.Ids.{name_at};
ghost use Rattle.jc_index.specs.Lookups.{IsFound};
ghost use Rattle.jc_access.specs.steps.Parts.{asks_receiver};

use crate::assigning::assignable;
use crate::names::{in_one_package, name_of};
use jc_base::name::Name;
use jc_facts::flags::is_protected;
use jc_index::ids::{ClassId, Found};
use jc_table::table::Table;

// Whether the check is made of the receiver.
fn is_asked(table: &Table, current: ClassId, named: ClassId, owner: ClassId, flags: u16) -> bool
    requires current { current < size table.now }
    requires named { named < size table.now }
    requires owner { owner < size table.now }
    ensures { result ≡ asks_receiver table.now (name_at table.now current) (name_at table.now named) (name_at table.now owner) flags }
{
    table.has_super(current, named) && is_protected(flags) && !in_one_package(table, owner, current)
}

/// Whether a receiver of this type may be used in the class for the member, which is named through
/// a class: where that one is in the class's chain and the member is protected and of another
/// package, the receiver has to be assignable to the class (after JVMS 4.10.1.8).
pub fn protected_ok(
    table: &Table,
    current: ClassId,
    named: ClassId,
    found: Found,
    receiver: &Name,
) -> bool
    requires current { current < size table.now }
    requires named { named < size table.now }
    requires owner { found.owner < size table.now }
    ensures { (m : DeclaredMember) → IsFound table.now found m → result ≡ passes_protected_check table.now (name_at table.now current) (name_at table.now named) m receiver.now }
{
    if !is_asked(table, current, named, found.owner, found.flags) {
        return true;
    }
    assignable(table, receiver, name_of(table, current))
}
