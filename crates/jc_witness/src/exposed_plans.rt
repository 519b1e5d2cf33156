//! Planned clients for assignments of hidden classes, which members expose to them.
ghost use Rattle.std.specs.Prelude.{◌≡◌, ◌≤◌, ◌++◌, ◌∷◌, [], None, length, IfOk};
ghost use Rattle.std.specs.List.{All, cons_option};
ghost use Rattle.jc_facts.specs.world.Loading.{load_fault};
ghost use Rattle.jc_promises.specs.plan.Planned.{a_class, acts_exposing, assigns_behind, assigns_exposed, assigns_from, class_behind, receivers_exposed};
ghost use Rattle.jc_promises.specs.plan.PlannedBodies.{assigns_bodies, behind_bodies, blueprint, exposed_bodies, init_body};
ghost use Rattle.jc_promises.specs.plan.PlannedNames.{constructor};
ghost use Rattle.jc_witness.specs.Exposing.{CanExpose, CanReceive, CanTake};
ghost use Rattle.jc_witness.specs.steps.MoreInits.{items_of_act, items_of_acts};
ghost use Rattle.jc_witness.specs.steps.PlanFiles.{package_of, files_of_plan};

use crate::class_plans::assigning;
use crate::initializers::with_calls;
use crate::planned_files::{PlannedFiles, static_use};
use crate::planner::Planner;
use jc_base::name::Name;
use jc_drafts::bodies::{expose_and_return, takes_receiver};
use jc_drafts::draft::{Draft, PUBLIC_CLASS, body};
use jc_drafts::texts::from_behind;
use jc_facts::act::Act;
use jc_facts::blueprint::Blueprint;
use jc_facts::class_facts::Member;
use jc_facts::member_act::MemberAct;
use jc_facts::verdict::Spot;
use jc_sides::found::push_some;
use std::alloc::{AllocError, Global};

// The receivers that the acts of a client of this name take.
fn receivers(
    alloc: Global,
    planner: &Planner<'_>,
    acts: &[MemberAct],
    own: &Name,
) -> Result<Vec<Name>, AllocError>
    requires { All (CanReceive planner.now.old) acts.now }
    ensures { IfOk result (λ names. names.items ≡ receivers_exposed planner.now.old own.now acts.now) }
{
    let mut names = Vec::new(alloc);
    for exposed in acts {
        if takes_receiver(exposed.act) {
            let receiver = planner.receiver(exposed.act, &exposed.class, &exposed.key, own);
            names.push(receiver.copy(alloc)?)?;
        }
    }
    Ok(names)
}

// The acts that expose the one class and the other to clients of the seat, where these are hidden.
fn exposing_both(
    alloc: Global,
    planner: &Planner<'_>,
    seat: &Name,
    from: &Name,
    to: &Name,
) -> Result<Vec<MemberAct>, AllocError>
    requires { load_fault planner.now.old seat.now ≡ None }
    ensures { IfOk result (λ acts. acts.items ≡ acts_exposing planner.now.old seat.now from.now ++ acts_exposing planner.now.old seat.now to.now) }
{
    let mut acts = Vec::new(alloc);
    push_some(&mut acts, planner.exposing(alloc, seat, from)?)?;
    push_some(&mut acts, planner.exposing(alloc, seat, to)?)?;
    Ok(acts)
}

// How many items the act has.
fn item_count(act: Act) -> u32
    ensures value { result ≡ items_of_act act }
    ensures few { result ≤ 2 }
{
    match act {
        Act::NewObject => 2,
        _ => 1,
    }
}

/// How many items these acts have.
pub(crate) fn count_items(acts: &[MemberAct]) -> u32
    requires { length acts.now ≤ 2 }
    ensures value { result ≡ items_of_acts acts.now }
    ensures few { result ≤ 4 }
{
    let mut count = 0;
    for exposed in acts {
        count += item_count(exposed.act);
    }
    count
}

// A class of this name extends the seat and has this field, if any.
fn below_seat(
    alloc: Global,
    planner: &Planner<'_>,
    name: Name,
    seat: &Name,
    field: Option<Member>,
) -> Result<Draft, AllocError>
    ensures { IfOk result (λ draft. draft ≡ blueprint (a_class name 0x0021 seat.now (constructor planner.now.old seat.now) [] (cons_option field []) [] []) (init_body seat.now (constructor planner.now.old seat.now) ∷ [])) }
{
    let above = seat.copy(alloc)?;
    let constructor = planner.constructor(seat);
    let draft = Draft::class(alloc, name, PUBLIC_CLASS, above, constructor)?;
    match field {
        Some(field) => draft.field(field),
        None => Ok(draft),
    }
}

/// A class of this name extends the seat and has this field, if any; it takes these acts, and returns
/// an object of one class as one of another.
pub(crate) fn client_behind(
    alloc: Global,
    planner: &Planner<'_>,
    name: &Name,
    seat: &Name,
    field: Option<Member>,
    acts: &[MemberAct],
    from: &Name,
    to: &Name,
) -> Result<Blueprint, AllocError>
    requires few { length acts.now ≤ 2 }
    requires receive { All (CanReceive planner.now.old) acts.now }
    ensures { IfOk result (λ file. file ≡ blueprint (class_behind planner.now.old name.now seat.now (cons_option field []) acts.now from.now to.now []) (behind_bodies planner.now.old acts.now seat.now)) }
{
    let before = receivers(alloc, planner, acts, name)?;
    let descriptor = from_behind(alloc, before.as_slice(), from, to)?;
    let draft = below_seat(alloc, planner, name.copy(alloc)?, seat, field)?;
    let draft = with_calls(alloc, draft, seat, acts)?;
    let steps = expose_and_return(alloc, acts)?;
    let draft = draft.method(static_use(alloc, descriptor)?, body(steps))?;
    Ok(draft.finish(alloc))
}

// A class extends the seat, takes these acts, and returns an object of one class as one of another.
fn assigning_behind(
    alloc: Global,
    planner: &Planner<'_>,
    acts: &[MemberAct],
    from: &Name,
    to: &Name,
    seat: &Name,
) -> Result<PlannedFiles, AllocError>
    requires few { length acts.now ≤ 2 }
    requires receive { All (CanReceive planner.now.old) acts.now }
    ensures { IfOk result (λ files. files ≡ files_of_plan (assigns_behind planner.now.old planner.now.new (package_of planner.now) acts.now from.now to.now seat.now) (behind_bodies planner.now.old acts.now seat.now ∷ [])) }
{
    let name = planner.own_name(alloc, b"Y", seat)?;
    let file = client_behind(alloc, planner, &name, seat, None, acts, from, to)?;
    PlannedFiles::one(alloc, file, Spot::Item(count_items(acts) + 1))
}

/// The class returns an object of one class as one of another, below the seat to whose clients members
/// expose those that are hidden.
pub(crate) fn assigning_exposed(
    alloc: Global,
    planner: &Planner<'_>,
    from: &Name,
    to: &Name,
    seat: &Name,
) -> Result<PlannedFiles, AllocError>
    requires { CanTake planner.now.old seat.now (acts_exposing planner.now.old seat.now from.now ++ acts_exposing planner.now.old seat.now to.now) }
    ensures { IfOk result (λ files. files ≡ files_of_plan (assigns_exposed planner.now.old planner.now.new (package_of planner.now) from.now to.now seat.now) (exposed_bodies planner.now.old from.now to.now seat.now ∷ [])) }
{
    let acts = exposing_both(alloc, planner, seat, from, to)?;
    assigning_behind(alloc, planner, acts.as_slice(), from, to, seat)
}

/// A class returns an object of one class as one of another: one without a seat where it may name
/// both, and else one below the seat.
pub(crate) fn assigning_from(
    alloc: Global,
    planner: &Planner<'_>,
    from: &Name,
    to: &Name,
    seat: &Option<Name>,
) -> Result<PlannedFiles, AllocError>
    requires { CanExpose planner.now.old seat.now from.now to.now }
    ensures { IfOk result (λ files. files ≡ files_of_plan (assigns_from planner.now.old planner.now.new (package_of planner.now) from.now to.now seat.now) (assigns_bodies planner.now.old from.now to.now seat.now ∷ [])) }
{
    match seat {
        None => assigning(alloc, planner, from, to),
        Some(seat) => assigning_exposed(alloc, planner, from, to, seat),
    }
}
