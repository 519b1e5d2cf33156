//! The first act, and the first of some seats, to which what references find is closed now.
ghost use Rattle.std.specs.Prelude.{◌≡◌, map, option_map};
ghost use Rattle.std.specs.List.{All};
ghost use Rattle.jc_sides.specs.SharedOf.{IsShared, name_of};
ghost use Rattle.jc_acts.specs.steps.Firsts.{first_at, first_pair, closed_view};
ghost use Rattle.jc_acts.specs.steps.LookedUp.{IsLooked, closed_use};

use crate::closed_act::ClosedAct;
use crate::lookup::Looked;
use crate::open::use_fault;
use jc_base::name::Name;
use jc_facts::act::Act;
use jc_facts::link_error::LinkError;
use jc_sides::shared::Shared;
use jc_sides::sides::Sides;

// The error of the act on the new side, where it was open to the seat on the old one.
fn closed_to(
    sides: &Sides<'_>,
    class: &Shared<'_>,
    looked: &Looked,
    act: Act,
    seat: &Shared<'_>,
) -> Option<LinkError>
    requires class { IsShared sides.now «class».now }
    requires looked { IsLooked sides.now looked.now }
    requires seat { IsShared sides.now seat.now }
    ensures { result ≡ closed_use sides.now (name_of «class».now) looked.now act (name_of seat.now) }
{
    if use_fault(sides.old, seat.old, class.old, act, looked.before).is_some() {
        return None;
    }
    match &looked.after {
        Err(error) => Some(*error),
        Ok(found) => use_fault(sides.new, seat.new, class.new, act, *found),
    }
}

// The first of the seats to which the act was open and isn't any more, and its error there. An act on a
// member of the other kind was open to none, so that none is asked.
fn first_seat<'a>(
    sides: &Sides<'_>,
    class: &Shared<'_>,
    looked: &Looked,
    act: Act,
    seats: &[Shared<'a>],
) -> Option<(&'a Name, LinkError)>
    requires class { IsShared sides.now «class».now }
    requires looked { IsLooked sides.now looked.now }
    requires seats { All (IsShared sides.now) seats.now }
    ensures { option_map (λ p. (p.0.now, p.1)) result ≡ first_at (closed_use sides.now (name_of «class».now) looked.now act) (map name_of seats.now) }
{
    if act.is_other_kind(looked.before.flags) {
        return None;
    }
    for seat in seats {
        let Some(error) = closed_to(sides, class, looked, act, seat) else {
            continue;
        };
        return Some((seat.name, error));
    }
    None
}

/// The first of the acts that was open to one of the seats and isn't any more, with the first such
/// seat and its error there.
pub fn first_closed<'a>(
    sides: &Sides<'_>,
    class: &Shared<'_>,
    looked: &Looked,
    acts: &[Act],
    seats: &[Shared<'a>],
) -> Option<ClosedAct<'a>>
    requires class { IsShared sides.now «class».now }
    requires looked { IsLooked sides.now looked.now }
    requires seats { All (IsShared sides.now) seats.now }
    ensures { option_map closed_view result ≡ first_pair (closed_use sides.now (name_of «class».now) looked.now) (map name_of seats.now) acts.now }
{
    for act in acts {
        let act = *act;
        let Some((seat, error)) = first_seat(sides, class, looked, act, seats) else {
            continue;
        };
        return Some(ClosedAct { act, seat, error });
    }
    None
}
