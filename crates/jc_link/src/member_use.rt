//! What the use of a member gives, once it is found (JVMS 5.4.4, 6.5).
ghost use Rattle.std.specs.Prelude.{◌≡◌, ◌<◌, ◌&&◌, not};
ghost use Rattle.jc_facts.specs.Flags.{final_flag};
ghost use Rattle.jc_facts.specs.Names.{same};
ghost use Rattle.jc_facts.specs.client.Acts.{is_put_act};
ghost use Rattle.jc_facts.specs.client.Outcome.{puts_own, is_direct_super, receiver_ok, assignment_ok, use_fault};
ghost use Rattle.jc_facts.specs.world.Access.{is_member_accessible};
ghost use Rattle.jc_facts.specs.world.Assignment.{passes_protected_check};
ghost use Rattle.jc_facts.specs.world.World.{size};
ghost use Rattle.jc_index.specs.Ids.{name_at};
ghost use Rattle.jc_index.specs.Lookups.{member_of};

use jc_access::access::{Seat, accessible};
use jc_access::assigning::assignable;
use jc_access::names::name_of;
use jc_access::protection::protected_ok;
use jc_base::name::Name;
use jc_facts::act::Act;
use jc_facts::client::Place;
use jc_facts::flags::is_final;
use jc_facts::link_error::LinkError;
use jc_index::among::is_among;
use jc_index::ids::{ClassId, Found};
use jc_table::table::Table;

// Whether the place is the initializer in which the act may write a final field of its own class: an
// instance initializer for `putfield`, a class initializer for `putstatic` (JVMS 6.5).
fn is_own_put(act: Act, place: Place) -> bool
    ensures { result ≡ puts_own act place }
{
    match act {
        Act::PutField => match place {
            Place::Init => true,
            _ => false,
        },
        Act::PutStatic => match place {
            Place::Clinit => true,
            _ => false,
        },
        _ => false,
    }
}

// Whether the act writes a final field, and not as the class that declares it in its initializer.
fn is_foreign_put(table: &Table, from: ClassId, act: Act, place: Place, found: &Found) -> bool
    requires from { from < size table.now }
    requires owner { found.now.owner < size table.now }
    ensures { result ≡ (is_put_act act && final_flag found.now.flags && not (same (name_at table.now found.now.owner) (name_at table.now from) && puts_own act place)) }
{
    act.is_put()
        && is_final(found.flags)
        && !(name_of(table, found.owner) == name_of(table, from) && is_own_put(act, place))
}

// Whether the other class is in the class's chain, or one of the interfaces that it names.
#[tactic(auto, unfolding(jc_facts::specs::client::Outcome::is_direct_super))]
fn is_above(table: &Table, from: ClassId, class: ClassId) -> bool
    requires from { from < size table.now }
    requires class { class < size table.now }
    ensures { result ≡ is_direct_super table.now (name_at table.now from) (name_at table.now class) }
{
    table.has_super(from, class)
        || is_among(
            table.facts(from).interfaces.as_slice(),
            name_of(table, class),
        )
}

/// Whether the member, named through the class, is accessible in the class `from`.
pub fn is_accessible(table: &Table, from: ClassId, class: ClassId, found: &Found) -> bool
    requires from { from < size table.now }
    requires class { class < size table.now }
    requires owner { found.now.owner < size table.now }
    ensures { result ≡ is_member_accessible table.now (name_at table.now from) (name_at table.now class) (member_of table.now found.now) }
{
    accessible(table, Seat::Inside(from), *found, class)
}

/// Whether a receiver of this type passes the check on protected members.
pub fn passes_protected(
    table: &Table,
    from: ClassId,
    class: ClassId,
    found: &Found,
    receiver: &Name,
) -> bool
    requires from { from < size table.now }
    requires class { class < size table.now }
    requires owner { found.now.owner < size table.now }
    ensures { result ≡ passes_protected_check table.now (name_at table.now from) (name_at table.now class) (member_of table.now found.now) receiver.now }
{
    protected_ok(table, from, class, *found, receiver)
}

// Whether the receiver may be used for the member, where it is known.
#[tactic(auto, unfolding(jc_facts::specs::client::Outcome::receiver_ok))]
fn passes_receiver(
    table: &Table,
    from: ClassId,
    act: Act,
    class: ClassId,
    found: &Found,
    receiver: &Option<Name>,
) -> bool
    requires from { from < size table.now }
    requires class { class < size table.now }
    requires owner { found.now.owner < size table.now }
    ensures { result ≡ receiver_ok table.now (name_at table.now from) act (name_at table.now class) (member_of table.now found.now) receiver.now }
{
    let Some(receiver) = receiver else {
        return true;
    };
    assignable(table, receiver, name_of(table, class))
        && passes_protected(table, from, class, found, receiver)
        && (!act.is_invokespecial() || assignable(table, receiver, name_of(table, from)))
}

// Whether all is assigned as the act asks: `invokespecial` names a direct super, and an act that isn't
// static has its receiver checked.
#[tactic(auto, unfolding(jc_facts::specs::client::Outcome::assignment_ok))]
fn passes_assignment(
    table: &Table,
    from: ClassId,
    act: Act,
    class: ClassId,
    found: &Found,
    receiver: &Option<Name>,
) -> bool
    requires from { from < size table.now }
    requires class { class < size table.now }
    requires owner { found.now.owner < size table.now }
    ensures { result ≡ assignment_ok table.now (name_at table.now from) act (name_at table.now class) (member_of table.now found.now) receiver.now }
{
    (!act.is_invokespecial() || is_above(table, from, class))
        && (act.is_on_static() || passes_receiver(table, from, act, class, found, receiver))
}

/// What the use of the member in the class `from` gives, where it is named through `class`: the
/// error of access, of kind, of a write to a final field or of assignment, in this order; none where
/// all of these are Ok.
#[tactic(auto, unfolding(jc_facts::specs::client::Outcome::use_fault, jc_facts::specs::Options::or_else))]
pub fn use_error(
    table: &Table,
    from: ClassId,
    act: Act,
    class: ClassId,
    receiver: &Option<Name>,
    place: Place,
    found: &Found,
) -> Option<LinkError>
    requires from { from < size table.now }
    requires class { class < size table.now }
    requires owner { found.now.owner < size table.now }
    ensures { result ≡ use_fault table.now (name_at table.now from) act (name_at table.now class) receiver.now place (member_of table.now found.now) }
{
    if !is_accessible(table, from, class, found) {
        return Some(LinkError::IllegalAccessError);
    }
    if act.is_other_kind(found.flags) {
        return Some(LinkError::IncompatibleClassChangeError);
    }
    if is_foreign_put(table, from, act, place, found) {
        return Some(LinkError::IllegalAccessError);
    }
    if !passes_assignment(table, from, act, class, found, receiver) {
        return Some(LinkError::VerifyError);
    }
    None
}
