//! The plain program: each act is tried with each seat on both sides, as the definition says.
ghost use Rattle.std.specs.Prelude.{◌≡◌, ◌<◌, None, IsTrue, map, option_map};
ghost use Rattle.std.specs.List.{All};
ghost use Rattle.jc_facts.specs.client.Acts.{form_of};
ghost use Rattle.jc_facts.specs.world.Loading.{load_fault};
ghost use Rattle.jc_promises.specs.rule.OpenActs.{act_fault, field_acts, method_acts};
ghost use Rattle.jc_promises.specs.rule.Bases.{is_key_of_method, is_steady};
ghost use Rattle.jc_facts.specs.world.World.{size};
ghost use Rattle.jc_index.specs.Ids.{name_at};
ghost use Rattle.jc_index.specs.Sides.{IsSide};
ghost use Rattle.jc_sides.specs.SharedOf.{IsShared, name_of};
ghost use Rattle.jc_acts.specs.ClosedActs.{IsFirstClosed};
ghost use Rattle.jc_acts.specs.Seats.{AreSeats};
ghost use Rattle.jc_acts.specs.steps.Firsts.{closed_on, first_at};
ghost use Rattle.jc_acts.specs.steps.References.{MayName};

use crate::closed_act::ClosedAct;
use crate::lookup::look_up;
use crate::open::use_fault;
use crate::seats::Seats;
use jc_base::name::Name;
use jc_facts::act::Act;
use jc_facts::key::Key;
use jc_facts::link_error::LinkError;
use jc_index::ids::ClassId;
use jc_sides::shared::Shared;
use jc_sides::sides::Sides;
use jc_table::table::Table;

/// The error of the act on one side, for clients with the seat (JVMS 5.4.3, 5.4.4, 6.5); none where it is
/// open to them.
pub fn fault_on(
    table: &Table,
    seat: ClassId,
    class: ClassId,
    key: &Key,
    act: Act,
) -> Option<LinkError>
    requires side { IsSide table.now }
    requires seat { seat < size table.now }
    requires class { class < size table.now }
    requires loads { load_fault table.now (name_at table.now class) ≡ None }
    requires key { MayName (form_of act) key.now }
    ensures { result ≡ act_fault table.now (name_at table.now seat) (name_at table.now class) key.now act }
{
    match look_up(table, act.form(), class, key, table.key_number(key)) {
        Err(error) => Some(error),
        Ok(found) => use_fault(table, seat, class, act, found),
    }
}

// The error of the act on the new side, where it is open to the seat on the old one.
fn closed_to(
    sides: &Sides<'_>,
    class: &Shared<'_>,
    key: &Key,
    act: Act,
    seat: &Shared<'_>,
) -> Option<LinkError>
    requires class { IsShared sides.now «class».now }
    requires steady { IsTrue (is_steady sides.now.old sides.now.new (name_of «class».now)) }
    requires key { MayName (form_of act) key.now }
    requires seat { IsShared sides.now seat.now }
    ensures { result ≡ closed_on sides.now (name_of «class».now) key.now act (name_of seat.now) }
{
    match fault_on(sides.old, seat.old, class.old, key, act) {
        Some(_) => None,
        None => fault_on(sides.new, seat.new, class.new, key, act),
    }
}

// The first of the seats to which the act is closed now, and its error there.
fn first_seat<'a>(
    sides: &Sides<'_>,
    class: &Shared<'_>,
    key: &Key,
    act: Act,
    seats: &[Shared<'a>],
) -> Option<(&'a Name, LinkError)>
    requires class { IsShared sides.now «class».now }
    requires steady { IsTrue (is_steady sides.now.old sides.now.new (name_of «class».now)) }
    requires key { MayName (form_of act) key.now }
    requires seats { All (IsShared sides.now) seats.now }
    ensures { option_map (λ p. (p.0.now, p.1)) result ≡ first_at (closed_on sides.now (name_of «class».now) key.now act) (map name_of seats.now) }
{
    for seat in seats {
        let Some(error) = closed_to(sides, class, key, act, seat) else {
            continue;
        };
        return Some((seat.name, error));
    }
    None
}

// The first of these acts on a member of the key, named through the steady class, that was open to
// a seat and isn't any more, with the first such seat and the error there. A key of an act on
// methods is no initializer's.
fn first_closed<'a>(
    sides: &Sides<'_>,
    seats: &Seats<'a>,
    class: &Shared<'_>,
    key: &Key,
    acts: &[Act],
) -> Option<ClosedAct<'a>>
    requires seats { AreSeats sides.now seats.now }
    requires class { IsShared sides.now «class».now }
    requires steady { IsTrue (is_steady sides.now.old sides.now.new (name_of «class».now)) }
    requires acts { All (λ what. MayName (form_of what) key.now) acts.now }
    ensures { IsFirstClosed sides.now (name_of «class».now) key.now acts.now result }
{
    let all = seats.all.as_slice();
    for act in acts {
        let act = *act;
        let Some((seat, error)) = first_seat(sides, class, key, act, all) else {
            continue;
        };
        return Some(ClosedAct { act, seat, error });
    }
    None
}

/// What `members::field_closed` says.
pub fn field_closed<'a>(
    sides: &Sides<'_>,
    seats: &Seats<'a>,
    class: &Shared<'_>,
    key: &Key,
) -> Option<ClosedAct<'a>>
    requires seats { AreSeats sides.now seats.now }
    requires class { IsShared sides.now «class».now }
    requires steady { IsTrue (is_steady sides.now.old sides.now.new (name_of «class».now)) }
    ensures { IsFirstClosed sides.now (name_of «class».now) key.now field_acts result }
{
    let acts = &[Act::GetStatic, Act::PutStatic, Act::GetField, Act::PutField];
    first_closed(sides, seats, class, key, acts)
}

/// What `members::method_closed` says.
pub fn method_closed<'a>(
    sides: &Sides<'_>,
    seats: &Seats<'a>,
    class: &Shared<'_>,
    key: &Key,
) -> Option<ClosedAct<'a>>
    requires seats { AreSeats sides.now seats.now }
    requires class { IsShared sides.now «class».now }
    requires steady { IsTrue (is_steady sides.now.old sides.now.new (name_of «class».now)) }
    requires key { IsTrue (is_key_of_method key.now) }
    ensures { IsFirstClosed sides.now (name_of «class».now) key.now method_acts result }
{
    let acts = &[
        Act::InvokeVirtual,
        Act::InvokeStatic,
        Act::InvokeInterface,
        Act::InvokeStaticInterface,
    ];
    first_closed(sides, seats, class, key, acts)
}
