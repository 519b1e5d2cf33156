//! Access to classes and members (JVMS 5.4.4).
ghost use Rattle.std.specs.Prelude.{◌≡◌, ◌<◌, Some};
ghost use Rattle.jc_facts.specs.declared.class_facts.ClassFacts.{ClassFacts as ClassOf};
ghost use Rattle.jc_facts.specs.Flags.{package_private};
ghost use Rattle.jc_facts.specs.world.Access.{is_class_accessible, is_member_accessible};
ghost use Rattle.jc_facts.specs.world.World.{DeclaredMember, find_class, size};
ghost use Rattle.jc_index.specs.Ids.{name_at};
ghost use Rattle.jc_index.specs.Lookups.{IsFound};
ghost use Rattle.jc_access.specs.SeatAccess.{class_open, member_open, IsSeatOf};
ghost use Rattle.jc_access.specs.Speaking.{SpeaksFor};
ghost use Rattle.jc_access.specs.steps.Parts.{inherited_at, inside_at, client_at};

use crate::names::in_one_package;
use crate::nests::same_nest;
use jc_facts::flags::{is_private, is_protected, is_public, is_static};
use jc_index::ids::{ClassId, Found};
use jc_table::naming::{is_nameable, is_nameable_from};
use jc_table::table::Table;

/// Who uses a class or a member.
#[derive(Clone, Copy, PartialEq, Eq, Debug)]
pub enum Seat {
    /// The class of the table itself.
    Inside(ClassId),
    /// Any client that loads, has an allowed name, and whose first superclass that is no client is
    /// this class.
    Client(ClassId),
}

// Whether the class is accessible from the other one.
fn is_accessible_from(table: &Table, class: ClassId, from: ClassId) -> bool
    requires class { class < size table.now }
    requires from { from < size table.now }
    ensures { (d : ClassOf) → find_class table.now (name_at table.now class) ≡ Some d → result ≡ is_class_accessible table.now (name_at table.now from) d }
{
    is_nameable_from(table, class, from) || in_one_package(table, from, class)
}

/// Whether the class is accessible: it is public, and visible from the class of the seat `Inside`; or
/// it is of that one's package (JVMS 5.4.4). For the seat `Client` the answer is that of each client
/// that loads, has an allowed name and has this seat.
pub fn class_access(table: &Table, from: Seat, class: ClassId) -> bool
    requires from { IsSeatOf table.now from }
    requires class { class < size table.now }
    ensures value { (d : ClassOf) → find_class table.now (name_at table.now class) ≡ Some d → result ≡ class_open table.now from d }
    ensures clients { (d : ClassOf) → find_class table.now (name_at table.now class) ≡ Some d → SpeaksFor table.now from (λ V x. is_class_accessible V x d) result }
{
    match from {
        Seat::Inside(id) => is_accessible_from(table, class, id),
        Seat::Client(_) => is_nameable(table, class),
    }
}

// Whether a protected member of this class is accessible as one of a superclass.
fn inherited(table: &Table, from: ClassId, owner: ClassId, flags: u16, named: ClassId) -> bool
    requires from { from < size table.now }
    requires owner { owner < size table.now }
    requires named { named < size table.now }
    ensures { result ≡ inherited_at table.now (name_at table.now from) (name_at table.now named) (name_at table.now owner) flags }
{
    is_protected(flags)
        && table.has_super(from, owner)
        && (is_static(flags) || table.has_super(from, named) || table.has_super(named, from))
}

// Whether a member with these flags has no access flag (JVMS 4.5, 4.6).
fn is_package_private(flags: u16) -> bool
    ensures { result ≡ package_private flags }
{
    !(is_public(flags) || is_private(flags) || is_protected(flags))
}

// Whether the member is accessible from the class.
fn inside(table: &Table, from: ClassId, found: Found, named: ClassId) -> bool
    requires from { from < size table.now }
    requires owner { found.owner < size table.now }
    requires named { named < size table.now }
    ensures { result ≡ inside_at table.now (name_at table.now from) (name_at table.now named) (name_at table.now found.owner) found.flags }
{
    is_public(found.flags)
        || (in_one_package(table, from, found.owner)
            && (is_protected(found.flags) || is_package_private(found.flags)))
        || inherited(table, from, found.owner, found.flags, named)
        || (is_private(found.flags) && same_nest(table, from, found.owner))
}

// Whether the member is accessible from clients of the seat: public, or protected in a superclass
// of theirs, and an instance member then only by a class in line with the seat.
fn from_clients(table: &Table, seat: ClassId, found: Found, named: ClassId) -> bool
    requires seat { seat < size table.now }
    requires owner { found.owner < size table.now }
    requires named { named < size table.now }
    ensures { result ≡ client_at table.now (name_at table.now seat) (name_at table.now named) (name_at table.now found.owner) found.flags }
{
    is_public(found.flags)
        || (is_protected(found.flags)
            && table.has_super(seat, found.owner)
            && (is_static(found.flags) || table.has_super(seat, named)))
}

/// Whether the member, named through the class, is accessible (JVMS 5.4.4). For the seat `Client` the
/// answer is that of each client that loads, has an allowed name and has this seat.
pub fn accessible(table: &Table, from: Seat, found: Found, named: ClassId) -> bool
    requires from { IsSeatOf table.now from }
    requires owner { found.owner < size table.now }
    requires named { named < size table.now }
    ensures value { (m : DeclaredMember) → IsFound table.now found m → result ≡ member_open table.now from (name_at table.now named) m }
    ensures clients { (m : DeclaredMember) → IsFound table.now found m → SpeaksFor table.now from (λ V x. is_member_accessible V x (name_at table.now named) m) result }
{
    match from {
        Seat::Inside(id) => inside(table, id, found, named),
        Seat::Client(seat) => from_clients(table, seat, found, named),
    }
}
