//! Two seats, to one of which the one hidden class is exposed and to the other the other: of which two
//! clients can hand values of the first class on, each below one of the seats and under a name of its
//! own.
ghost use Rattle.std.specs.Prelude.{◌≡◌, ◌<◌, ◌&&◌, ◌||◌, IfOk, IsTrue, is_some, map, not, option_map};
ghost use Rattle.std.specs.List.{All, list_any, find as first_where};
ghost use Rattle.std.specs.Option.{option_copied};
ghost use Rattle.jc_acts.specs.Seats.{AreSeats};
ghost use Rattle.jc_exposed.specs.Apart.{hands_on, is_other_for};
ghost use Rattle.jc_exposed.specs.Exposed.{AreExposed, is_wanted};
ghost use Rattle.jc_facts.specs.Names.{same};
ghost use Rattle.jc_facts.specs.world.World.{size};
ghost use Rattle.jc_index.specs.Ids.{name_at};
ghost use Rattle.jc_promises.specs.rule.Apart.{are_apart, has_other, other_seat, permit_two};
ghost use Rattle.jc_promises.specs.rule.Bases.{allowed};
ghost use Rattle.jc_promises.specs.rule.Exposed.{is_exposed, is_hidden};
ghost use Rattle.jc_promises.specs.rule.OpenActs.{first_seat};
ghost use Rattle.jc_sides.specs.SharedOf.{IsShared, name_of};

use crate::exposed::{Exposed, is_exposed_to, seats_from};
use crate::first_act::flag_of;
use jc_acts::seats::Seats;
use jc_base::items::Items;
use jc_base::name::Name;
use jc_index::ids::ClassId;
use jc_sides::classes::base_classes;
use jc_sides::clients::is_allowed_on_both;
use jc_sides::kept::is_hidden_class;
use jc_sides::shared::Shared;
use jc_sides::sides::Sides;
use std::alloc::{AllocError, Global};

// ---- names for two clients

// The first of the names that clients may have.
fn first_allowed<'a>(sides: &Sides<'_>, names: &'a [Name]) -> Option<&'a Name>
    ensures { option_copied result ≡ first_where (allowed sides.now.old sides.now.new) names.now }
{
    for name in names {
        if is_allowed_on_both(sides, name) {
            return Some(name);
        }
    }
    None
}

// Whether clients may have the name, and it isn't this one.
fn is_other(sides: &Sides<'_>, name: &Name, other: &Name) -> bool
    ensures { result ≡ (allowed sides.now.old sides.now.new other.now && not (same name.now other.now)) }
{
    is_allowed_on_both(sides, other) && name != other
}

// Whether such a name is among these.
fn has_other(sides: &Sides<'_>, name: &Name, names: &[Name]) -> bool
    ensures { result ≡ has_other sides.now.old sides.now.new name.now names.now }
{
    names.iter().any(|other| is_other(sides, name, other))
}

// Whether one of the lists has such a name, where the first has this one too.
fn have_other(sides: &Sides<'_>, name: &Name, names: &[Name], others: &[Name]) -> bool
    ensures { result ≡ (has_other sides.now.old sides.now.new name.now others.now || (has_other sides.now.old sides.now.new name.now names.now && is_some (first_where (allowed sides.now.old sides.now.new) others.now))) }
{
    has_other(sides, name, others)
        || (has_other(sides, name, names) && first_allowed(sides, others).is_some())
}

// Whether clients may have a name of the first list and another one of the second. Each list is gone
// over at most twice.
fn name_two(sides: &Sides<'_>, names: &[Name], others: &[Name]) -> bool
    ensures { result ≡ list_any (λ x. allowed sides.now.old sides.now.new x && has_other sides.now.old sides.now.new x others.now) names.now }
{
    match first_allowed(sides, names) {
        None => false,
        Some(name) => have_other(sides, name, names, others),
    }
}

// The same, where a class without such a list permits each name.
fn permit_two(sides: &Sides<'_>, names: &Option<Items<Name>>, others: &Option<Items<Name>>) -> bool
    ensures { result ≡ permit_two sides.now.old sides.now.new names.now others.now }
{
    match (names, others) {
        (None, _) => true,
        (Some(_), None) => true,
        (Some(names), Some(others)) => name_two(sides, names.as_slice(), others.as_slice()),
    }
}

// Whether two clients, one below each of the classes, can have names that differ.
fn are_apart(sides: &Sides<'_>, seat: ClassId, other: ClassId) -> bool
    requires seat { seat < size sides.now.old }
    requires other { other < size sides.now.old }
    ensures { result ≡ are_apart sides.now.old sides.now.new (name_at sides.now.old seat) (name_at sides.now.old other) }
{
    permit_two(
        sides,
        &sides.old.facts(seat).permits,
        &sides.old.facts(other).permits,
    )
}

// ---- the other seat

// Whether the wanted hidden class is exposed to clients of the other seat, and that is apart from the
// first.
fn is_other_seat(
    sides: &Sides<'_>,
    exposed: &Exposed,
    seat: ClassId,
    class: ClassId,
    other: &Shared<'_>,
) -> bool
    requires exposed { AreExposed sides.now exposed.now }
    requires seat { seat < size sides.now.old }
    requires id { «class» < size sides.now.old }
    requires hidden { IsTrue (is_hidden sides.now.old (name_at sides.now.old «class»)) }
    requires wanted { IsTrue (is_wanted exposed.now «class») }
    requires other { IsShared sides.now other.now }
    ensures { result ≡ is_other_for sides.now (name_at sides.now.old seat) «class» (name_of other.now) }
{
    is_exposed_to(sides, exposed, class, other) && are_apart(sides, seat, other.old)
}

// The first such seat of these.
fn first_other<'a>(
    sides: &Sides<'_>,
    exposed: &Exposed,
    seat: ClassId,
    class: ClassId,
    others: &[Shared<'a>],
) -> Option<&'a Name>
    requires exposed { AreExposed sides.now exposed.now }
    requires seat { seat < size sides.now.old }
    requires id { «class» < size sides.now.old }
    requires hidden { IsTrue (is_hidden sides.now.old (name_at sides.now.old «class»)) }
    requires wanted { IsTrue (is_wanted exposed.now «class») }
    requires others { All (IsShared sides.now) others.now }
    ensures { option_map (λ n. n.now) result ≡ first_where (is_other_for sides.now (name_at sides.now.old seat) «class») (map name_of others.now) }
{
    for other in others {
        if is_other_seat(sides, exposed, seat, class, other) {
            return Some(other.name);
        }
    }
    None
}

/// The first seat to which the wanted hidden class is exposed and of which a client can stand beside
/// one of this seat, each under a name of its own: of two seats that permit one and the same name
/// alone, none can.
pub fn first_apart<'a>(
    sides: &Sides<'_>,
    seats: &Seats<'a>,
    exposed: &Exposed,
    seat: ClassId,
    class: ClassId,
) -> Option<&'a Name>
    requires seats { AreSeats sides.now seats.now }
    requires exposed { AreExposed sides.now exposed.now }
    requires seat { seat < size sides.now.old }
    requires id { «class» < size sides.now.old }
    requires hidden { IsTrue (is_hidden sides.now.old (name_at sides.now.old «class»)) }
    requires wanted { IsTrue (is_wanted exposed.now «class») }
    ensures { option_map (λ n. n.now) result ≡ other_seat sides.now.old sides.now.new (name_at sides.now.old seat) (name_at sides.now.old «class») }
{
    let others = seats_from(sides, seats, exposed, class);
    first_other(sides, exposed, seat, class, others)
}

/// The same of any class, by the sides alone: none where the class isn't hidden. It makes the seats
/// anew, and takes one pass over the members of all classes.
///
/// # Errors
///
/// `AllocError` where memory runs out.
pub fn other_seat<'a>(
    alloc: Global,
    sides: &Sides<'a>,
    seat: ClassId,
    class: ClassId,
) -> Result<Option<&'a Name>, AllocError>
    requires seat { seat < size sides.now.old }
    requires id { «class» < size sides.now.old }
    ensures { IfOk result (λ other. option_copied other ≡ other_seat sides.now.old sides.now.new (name_at sides.now.old seat) (name_at sides.now.old «class»)) }
{
    if !is_hidden_class(sides.old, class) {
        return Ok(None);
    }
    let seats = Seats::new(alloc, sides, base_classes(alloc, sides)?)?;
    let wanted = flag_of(alloc, sides.old, class)?;
    let exposed = Exposed::new(alloc, sides, &seats, wanted)?;
    let other = first_apart(sides, &seats, &exposed, seat, class);
    Ok(other)
}

// ---- the seat of the client that hands on

// Whether the one wanted hidden class is exposed to clients of the seat, and the other one to those of
// one of the others that is apart from it.
fn is_handing(
    sides: &Sides<'_>,
    exposed: &Exposed,
    from: ClassId,
    to: ClassId,
    seat: &Shared<'_>,
    others: &[Shared<'_>],
) -> bool
    requires exposed { AreExposed sides.now exposed.now }
    requires from { from < size sides.now.old }
    requires to { to < size sides.now.old }
    requires from_hidden { IsTrue (is_hidden sides.now.old (name_at sides.now.old from)) }
    requires to_hidden { IsTrue (is_hidden sides.now.old (name_at sides.now.old to)) }
    requires from_wanted { IsTrue (is_wanted exposed.now from) }
    requires to_wanted { IsTrue (is_wanted exposed.now to) }
    requires seat { IsShared sides.now seat.now }
    requires others { All (IsShared sides.now) others.now }
    ensures { result ≡ hands_on sides.now from to (map name_of others.now) (name_of seat.now) }
{
    is_exposed_to(sides, exposed, from, seat)
        && first_other(sides, exposed, seat.old, to, others).is_some()
}

// The first such seat of these.
fn first_handing<'a>(
    sides: &Sides<'_>,
    exposed: &Exposed,
    from: ClassId,
    to: ClassId,
    seats: &[Shared<'a>],
    others: &[Shared<'_>],
) -> Option<&'a Name>
    requires exposed { AreExposed sides.now exposed.now }
    requires from { from < size sides.now.old }
    requires to { to < size sides.now.old }
    requires from_hidden { IsTrue (is_hidden sides.now.old (name_at sides.now.old from)) }
    requires to_hidden { IsTrue (is_hidden sides.now.old (name_at sides.now.old to)) }
    requires from_wanted { IsTrue (is_wanted exposed.now from) }
    requires to_wanted { IsTrue (is_wanted exposed.now to) }
    requires seats { All (IsShared sides.now) seats.now }
    requires others { All (IsShared sides.now) others.now }
    ensures { option_map (λ n. n.now) result ≡ first_where (hands_on sides.now from to (map name_of others.now)) (map name_of seats.now) }
{
    for seat in seats {
        if is_handing(sides, exposed, from, to, seat, others) {
            return Some(seat.name);
        }
    }
    None
}

/// The first seat to which the first of two wanted hidden classes is exposed and beside which stands
/// one to which the second is, as `first_apart` finds it: clients of it can hand values of the first
/// class on to clients of the other. Where a class is exposed to no seat, no seat is asked.
pub fn first_handed<'a>(
    sides: &Sides<'_>,
    seats: &Seats<'a>,
    exposed: &Exposed,
    from: ClassId,
    to: ClassId,
) -> Option<&'a Name>
    requires seats { AreSeats sides.now seats.now }
    requires exposed { AreExposed sides.now exposed.now }
    requires from { from < size sides.now.old }
    requires to { to < size sides.now.old }
    requires from_hidden { IsTrue (is_hidden sides.now.old (name_at sides.now.old from)) }
    requires to_hidden { IsTrue (is_hidden sides.now.old (name_at sides.now.old to)) }
    requires from_wanted { IsTrue (is_wanted exposed.now from) }
    requires to_wanted { IsTrue (is_wanted exposed.now to) }
    ensures { option_map (λ n. n.now) result ≡ first_seat sides.now.old sides.now.new (λ a. is_exposed sides.now.old a (name_at sides.now.old from) && is_some (other_seat sides.now.old sides.now.new a (name_at sides.now.old to))) }
{
    let others = seats_from(sides, seats, exposed, to);
    if others.is_empty() {
        return None;
    }
    let first = seats_from(sides, seats, exposed, from);
    first_handing(sides, exposed, from, to, first, others)
}
