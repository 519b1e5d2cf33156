//! Planned clients for hidden classes that one seat exposes and another takes: one client hands a value
//! of the first class on to the other.
ghost use Rattle.std.specs.Prelude.{◌≡◌, ◌++◌, ◌∷◌, [], None, Some, IfOk, IsTrue};
ghost use Rattle.jc_facts.specs.world.Loading.{load_fault};
ghost use Rattle.jc_promises.specs.rule.Apart.{other_seat};
ghost use Rattle.jc_promises.specs.plan.Planned.{acts_exposing, class_behind, field_of_hidden, hands_on, hands_on_to, is_out_of, loses_from, reads_hidden, static_field};
ghost use Rattle.jc_promises.specs.plan.PlannedBodies.{behind_bodies, blueprint, handed_bodies, handed_to_bodies, loses_bodies};
ghost use Rattle.jc_witness.specs.Exposing.{CanHand, CanLose, CanTake};
ghost use Rattle.jc_witness.specs.steps.PlanFiles.{package_of, files_of_plan};

use crate::class_plans::assigning;
use crate::exposed_plans::{assigning_exposed, client_behind, count_items};
use crate::planned_files::{PlannedFiles, single};
use crate::planner::Planner;
use jc_base::name::Name;
use jc_drafts::draft::PUBLIC_STATIC;
use jc_drafts::texts::of_class;
use jc_facts::act::Act;
use jc_facts::blueprint::Blueprint;
use jc_facts::class_facts::Member;
use jc_facts::key::Key;
use jc_facts::member_act::MemberAct;
use jc_facts::verdict::Spot;
use jc_sides::found::push_some;
use std::alloc::{AllocError, Global};

// The field of the hidden class in which one client leaves a value to another.
fn hidden_field(alloc: Global, class: &Name) -> Result<Member, AllocError>
    ensures { IfOk result (λ field. field ≡ static_field (field_of_hidden «class».now)) }
{
    Ok(Member {
        name: Name::from_bytes(alloc, b"val")?,
        descriptor: of_class(alloc, class)?,
        flags: PUBLIC_STATIC,
    })
}

// The read of that field of the client.
fn hidden_read(alloc: Global, client: &Name, class: &Name) -> Result<MemberAct, AllocError>
    ensures { IfOk result (λ read. read ≡ reads_hidden client.now «class».now) }
{
    Ok(MemberAct {
        class: client.copy(alloc)?,
        key: Key {
            name: Name::from_bytes(alloc, b"val")?,
            descriptor: of_class(alloc, class)?,
        },
        act: Act::GetStatic,
    })
}

// The act that exposes the class to clients of the seat, where the class is hidden.
fn exposing_one(
    alloc: Global,
    planner: &Planner<'_>,
    seat: &Name,
    class: &Name,
) -> Result<Vec<MemberAct>, AllocError>
    requires { load_fault planner.now.old seat.now ≡ None }
    ensures { IfOk result (λ acts. acts.items ≡ acts_exposing planner.now.old seat.now «class».now) }
{
    let mut acts = Vec::new(alloc);
    push_some(&mut acts, planner.exposing(alloc, seat, class)?)?;
    Ok(acts)
}

// The client of this name below the seat holds values of the class, and has a field for one.
fn holding(
    alloc: Global,
    planner: &Planner<'_>,
    name: &Name,
    class: &Name,
    seat: &Name,
) -> Result<Blueprint, AllocError>
    requires { CanTake planner.now.old seat.now (acts_exposing planner.now.old seat.now «class».now) }
    ensures { IfOk result (λ file. file ≡ blueprint (class_behind planner.now.old name.now seat.now (static_field (field_of_hidden «class».now) ∷ []) (acts_exposing planner.now.old seat.now «class».now) «class».now «class».now []) (behind_bodies planner.now.old (acts_exposing planner.now.old seat.now «class».now) seat.now)) }
{
    let acts = exposing_one(alloc, planner, seat, class)?;
    let field = hidden_field(alloc, class)?;
    client_behind(
        alloc,
        planner,
        name,
        seat,
        Some(field),
        acts.as_slice(),
        class,
        class,
    )
}

// The acts of the client that takes the value from the other one, which has the first class.
fn exposing_and_reading(
    alloc: Global,
    planner: &Planner<'_>,
    seat: &Name,
    class: &Name,
    first: &Name,
    from: &Name,
) -> Result<Vec<MemberAct>, AllocError>
    requires { load_fault planner.now.old seat.now ≡ None }
    ensures { IfOk result (λ acts. acts.items ≡ acts_exposing planner.now.old seat.now «class».now ++ reads_hidden first.now from.now ∷ []) }
{
    let mut acts = exposing_one(alloc, planner, seat, class)?;
    acts.push(hidden_read(alloc, first, from)?)?;
    Ok(acts)
}

// A client below the seat hands a value of one class on to a client below the other, which returns it
// as an object of another class.
fn handing(
    alloc: Global,
    planner: &Planner<'_>,
    from: &Name,
    to: &Name,
    seat: &Name,
    other: &Name,
) -> Result<PlannedFiles, AllocError>
    requires first { CanTake planner.now.old seat.now (acts_exposing planner.now.old seat.now from.now) }
    requires second { CanTake planner.now.old other.now (acts_exposing planner.now.old other.now to.now) }
    ensures { IfOk result (λ files. files ≡ files_of_plan (hands_on planner.now.old planner.now.new (package_of planner.now) from.now to.now seat.now other.now) (handed_bodies planner.now.old planner.now.new (package_of planner.now) from.now to.now seat.now other.now)) }
{
    let first = planner.first_name(alloc, b"Z", seat, other)?;
    let name = planner.second_name(alloc, b"Y", &first, other)?;
    let acts = exposing_and_reading(alloc, planner, other, to, &first, from)?;
    let taker = client_behind(
        alloc,
        planner,
        &name,
        other,
        None,
        acts.as_slice(),
        from,
        to,
    )?;
    let holder = holding(alloc, planner, &first, from, seat)?;
    let spot = Spot::Item(count_items(acts.as_slice()) + 1);
    PlannedFiles::ending_with(alloc, single(alloc, holder)?, taker, spot)
}

// The same to the clients of the first other seat that exposes the class and is apart from this one.
fn handing_on(
    alloc: Global,
    planner: &Planner<'_>,
    from: &Name,
    to: &Name,
    seat: &Name,
) -> Result<PlannedFiles, AllocError>
    requires out { IsTrue (is_out_of planner.now.old seat.now to.now) }
    requires hand { CanHand planner.now.old planner.now.new seat.now from.now to.now }
    ensures { IfOk result (λ files. files ≡ files_of_plan (hands_on_to planner.now.old planner.now.new (package_of planner.now) from.now to.now seat.now (other_seat planner.now.old planner.now.new seat.now to.now)) (handed_to_bodies planner.now.old planner.now.new (package_of planner.now) from.now to.now seat.now (other_seat planner.now.old planner.now.new seat.now to.now))) }
{
    match planner.other_seat(alloc, seat, to)? {
        None => PlannedFiles::none(alloc),
        Some(other) => handing(alloc, planner, from, to, seat, other),
    }
}

// Below the seat, and where the class that is lost is out of it, below another one.
fn losing_behind(
    alloc: Global,
    planner: &Planner<'_>,
    from: &Name,
    to: &Name,
    seat: &Name,
) -> Result<PlannedFiles, AllocError>
    requires { CanHand planner.now.old planner.now.new seat.now from.now to.now }
    ensures { IfOk result (λ files. files ≡ files_of_plan (loses_from planner.now.old planner.now.new (package_of planner.now) from.now to.now (Some seat.now)) (loses_bodies planner.now.old planner.now.new (package_of planner.now) from.now to.now (Some seat.now))) }
{
    if planner.is_out_of(alloc, seat, to)? {
        return handing_on(alloc, planner, from, to, seat);
    }
    assigning_exposed(alloc, planner, from, to, seat)
}

/// A class returns an object of one class as one of a superclass that it has lost: one without a seat
/// where it may name both, else one below the seat, to which another one hands the object on where no
/// one seat serves both.
pub(crate) fn losing_from(
    alloc: Global,
    planner: &Planner<'_>,
    from: &Name,
    to: &Name,
    seat: &Option<Name>,
) -> Result<PlannedFiles, AllocError>
    requires { CanLose planner.now.old planner.now.new seat.now from.now to.now }
    ensures { IfOk result (λ files. files ≡ files_of_plan (loses_from planner.now.old planner.now.new (package_of planner.now) from.now to.now seat.now) (loses_bodies planner.now.old planner.now.new (package_of planner.now) from.now to.now seat.now)) }
{
    match seat {
        None => assigning(alloc, planner, from, to),
        Some(seat) => losing_behind(alloc, planner, from, to, seat),
    }
}
