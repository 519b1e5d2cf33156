//! Assignments that clients could make and can't any more, where hidden classes may take part.
ghost use Rattle.std.specs.Prelude.{◌≡◌, ◌<◌, ◌∷◌, [], Some};
ghost use Rattle.std.specs.List.{All, list_all};
ghost use Rattle.jc_acts.specs.Seats.{AreSeats};
ghost use Rattle.jc_exposed.specs.Exposed.{AreExposed, are_all_exposed};
ghost use Rattle.jc_facts.specs.Options.{and_then, or_else};
ghost use Rattle.jc_facts.specs.declared.act.Act.TheVariants.{Assignment};
ghost use Rattle.jc_facts.specs.declared.link_error.LinkError.TheVariants.{VerifyError};
ghost use Rattle.jc_promises.specs.rule.Exposed.{is_hidden};
ghost use Rattle.jc_promises.specs.rule.Findings.{Subject, assign_finding, handed_finding, report};
ghost use Rattle.jc_promises.specs.rule.OpenActs.{first_seat};
ghost use Rattle.jc_facts.specs.world.World.{size};
ghost use Rattle.jc_rules.specs.steps.Losses.{IsCovered};
ghost use Rattle.jc_sides.specs.BrokenOf.{found};
ghost use Rattle.jc_index.specs.Ids.{name_at};

use jc_acts::seats::Seats;
use jc_exposed::apart::first_handed;
use jc_exposed::exposed::{Exposed, first_exposed};
use jc_facts::act::Act;
use jc_facts::link_error::LinkError;
use jc_index::ids::ClassId;
use jc_sides::broken::BrokenAct;
use jc_sides::kept::{is_hidden_class, kept};
use jc_sides::sides::Sides;
use jc_table::table::Table;

// Whether all of the classes are hidden.
fn are_hidden(table: &Table, ids: &[ClassId]) -> bool
    requires { All (λ id. id < size table.now) ids.now }
    ensures { result ≡ list_all (λ id. is_hidden table.now (name_at table.now id)) ids.now }
{
    for id in ids {
        if !is_hidden_class(table, *id) {
            return false;
        }
    }
    true
}

/// The assignment as one that is broken from the first seat to which members expose all of the
/// classes, of which none is kept; none where there is no such seat.
pub fn assigned_by<'a>(
    sides: &Sides<'_>,
    seats: &Seats<'a>,
    exposed: &Exposed,
    ids: &[ClassId],
) -> Option<BrokenAct<'a>>
    requires seats { AreSeats sides.now seats.now }
    requires exposed { AreExposed sides.now exposed.now }
    requires ids { All (λ id. id < size sides.now.old) ids.now }
    requires covered { All (IsCovered sides.now.old exposed.now) ids.now }
    ensures { (on : Subject) → found on result ≡ and_then (λ a. report on Assignment (Some a) VerifyError) (first_seat sides.now.old sides.now.new (are_all_exposed sides.now.old ids.now)) }
{
    if !are_hidden(sides.old, ids) {
        return None;
    }
    match first_exposed(sides, seats, exposed, ids) {
        Some(seat) => Some(BrokenAct {
            act: Act::Assignment,
            seat: Some(seat),
            error: LinkError::VerifyError,
        }),
        None => None,
    }
}

// The assignment of a value of the first class to the second as one that is broken, where each of them
// is kept, or hidden and exposed: of kept ones without a seat, else from the first seat to which members
// expose each hidden one.
fn assigned<'a>(
    sides: &Sides<'_>,
    seats: &Seats<'a>,
    exposed: &Exposed,
    from: ClassId,
    to: ClassId,
) -> Option<BrokenAct<'a>>
    requires seats { AreSeats sides.now seats.now }
    requires exposed { AreExposed sides.now exposed.now }
    requires from { from < size sides.now.old }
    requires to { to < size sides.now.old }
    requires from_covered { IsCovered sides.now.old exposed.now from }
    requires to_covered { IsCovered sides.now.old exposed.now to }
    ensures { (on : Subject) → found on result ≡ assign_finding sides.now.old sides.now.new on (name_at sides.now.old from ∷ name_at sides.now.old to ∷ []) }
{
    let from_is_kept = kept(sides, from).is_some();
    let to_is_kept = kept(sides, to).is_some();
    if from_is_kept {
        if to_is_kept {
            return Some(BrokenAct {
                act: Act::Assignment,
                seat: None,
                error: LinkError::VerifyError,
            });
        }
        return assigned_by(sides, seats, exposed, &[to]);
    }
    if to_is_kept {
        return assigned_by(sides, seats, exposed, &[from]);
    }
    assigned_by(sides, seats, exposed, &[from, to])
}

// The same where both are hidden and no one seat serves both: from the first seat to which members
// expose the first class, and whose clients can hand a value of it on to those of another seat, to which
// members expose the second.
fn handed<'a>(
    sides: &Sides<'_>,
    seats: &Seats<'a>,
    exposed: &Exposed,
    from: ClassId,
    to: ClassId,
) -> Option<BrokenAct<'a>>
    requires seats { AreSeats sides.now seats.now }
    requires exposed { AreExposed sides.now exposed.now }
    requires from { from < size sides.now.old }
    requires to { to < size sides.now.old }
    requires from_covered { IsCovered sides.now.old exposed.now from }
    requires to_covered { IsCovered sides.now.old exposed.now to }
    ensures { (on : Subject) → on.«class» ≡ name_at sides.now.old from → found on result ≡ handed_finding sides.now.old sides.now.new on (name_at sides.now.old to) }
{
    if !is_hidden_class(sides.old, from) {
        return None;
    }
    if !is_hidden_class(sides.old, to) {
        return None;
    }
    match first_handed(sides, seats, exposed, from, to) {
        Some(seat) => Some(BrokenAct {
            act: Act::Assignment,
            seat: Some(seat),
            error: LinkError::VerifyError,
        }),
        None => None,
    }
}

/// The assignment of a value of the first class to the second as one that is broken, where clients
/// could make it: each class is kept, or hidden and exposed. Of kept ones it has no seat; else it is
/// from the first seat to which members expose each hidden one, and where there is none, from the first
/// to which they expose the first class, if clients of another one take the second.
pub fn broken_assignment<'a>(
    sides: &Sides<'_>,
    seats: &Seats<'a>,
    exposed: &Exposed,
    from: ClassId,
    to: ClassId,
) -> Option<BrokenAct<'a>>
    requires seats { AreSeats sides.now seats.now }
    requires exposed { AreExposed sides.now exposed.now }
    requires from { from < size sides.now.old }
    requires to { to < size sides.now.old }
    requires from_covered { IsCovered sides.now.old exposed.now from }
    requires to_covered { IsCovered sides.now.old exposed.now to }
    ensures { (on : Subject) → on.«class» ≡ name_at sides.now.old from → found on result ≡ or_else (assign_finding sides.now.old sides.now.new on (name_at sides.now.old from ∷ name_at sides.now.old to ∷ [])) (handed_finding sides.now.old sides.now.new on (name_at sides.now.old to)) }
{
    match assigned(sides, seats, exposed, from, to) {
        Some(broken) => Some(broken),
        None => handed(sides, seats, exposed, from, to),
    }
}
