//! Planned clients for rules on members.
ghost use Rattle.std.specs.Prelude.{◌≡◌, ◌∷◌, [], IfOk, if◌then◌else◌};
ghost use Rattle.jc_promises.specs.plan.Planned.{abstract_method, acts_from, an_interface, calls_constructor, calls_inherited, makes_object, overrides_method, receiver_for, takes, takes_nothing, user};
ghost use Rattle.jc_promises.specs.plan.PlannedBodies.{act_steps, acts_bodies, blueprint, inherited_bodies, init_body, make_steps, overrides_bodies, user_bodies};
ghost use Rattle.jc_facts.specs.client.Acts.{is_act_on_static};
ghost use Rattle.jc_witness.specs.Ground.{CanRefer};
ghost use Rattle.jc_witness.specs.steps.PlanFiles.{package_of, files_of_plan};

use crate::planned_files::{PlannedFiles, static_use, user_of};
use crate::planner::Planner;
use jc_base::name::Name;
use jc_drafts::bodies::{act_on, make_object};
use jc_drafts::draft::{ABSTRACT_CLASS, Draft, PUBLIC_ABSTRACT, PUBLIC_CLASS, body};
use jc_drafts::texts::{with_parameter, without_parameters};
use jc_facts::act::Act;
use jc_facts::blueprint::Blueprint;
use jc_facts::class_facts::Member;
use jc_facts::key::Key;
use jc_facts::verdict::Spot;
use std::alloc::{AllocError, Global};

/// A public abstract method of the key.
pub(crate) fn abstract_of(alloc: Global, key: &Key) -> Result<Member, AllocError>
    ensures { IfOk result (λ method. method ≡ abstract_method key.now) }
{
    Ok(Member {
        name: key.name.copy(alloc)?,
        descriptor: key.descriptor.copy(alloc)?,
        flags: PUBLIC_ABSTRACT,
    })
}

/// A class makes an object by this initializer.
pub(crate) fn making(
    alloc: Global,
    planner: &Planner<'_>,
    class: &Name,
    descriptor: &Name,
) -> Result<PlannedFiles, AllocError>
    ensures { IfOk result (λ files. files ≡ files_of_plan (makes_object (package_of planner.now) class.now descriptor.now) (user_bodies (make_steps class.now descriptor.now) ∷ [])) }
{
    let steps = make_object(alloc, class, descriptor.as_bytes())?;
    let user = user_of(alloc, planner, without_parameters(alloc)?, steps)?;
    PlannedFiles::one(alloc, user, Spot::Item(2))
}

/// A class extends another and calls this initializer of it.
pub(crate) fn constructing(
    alloc: Global,
    planner: &Planner<'_>,
    class: &Name,
    descriptor: &Name,
) -> Result<PlannedFiles, AllocError>
    ensures { IfOk result (λ files. files ≡ files_of_plan (calls_constructor planner.now.old planner.now.new (package_of planner.now) class.now descriptor.now) ((init_body class.now descriptor.now ∷ []) ∷ [])) }
{
    let name = planner.own_name(alloc, b"Y", class)?;
    let above = class.copy(alloc)?;
    let draft = Draft::class(alloc, name, PUBLIC_CLASS, above, descriptor.as_bytes())?;
    PlannedFiles::one(alloc, draft.finish(alloc), Spot::Item(0))
}

/// An abstract class extends another and declares the key.
pub(crate) fn overriding(
    alloc: Global,
    planner: &Planner<'_>,
    class: &Name,
    key: &Key,
) -> Result<PlannedFiles, AllocError>
    ensures { IfOk result (λ files. files ≡ files_of_plan (overrides_method planner.now.old planner.now.new (package_of planner.now) class.now key.now) (overrides_bodies planner.now.old class.now ∷ [])) }
{
    let name = planner.own_name(alloc, b"Y", class)?;
    let above = class.copy(alloc)?;
    let constructor = planner.constructor(class);
    let draft = Draft::class(alloc, name, ABSTRACT_CLASS, above, constructor)?;
    let draft = draft.method(abstract_of(alloc, key)?, None)?;
    PlannedFiles::one(alloc, draft.finish(alloc), Spot::Load)
}

// What the method takes that acts from the class of this name.
fn taken_by_act(
    alloc: Global,
    planner: &Planner<'_>,
    act: Act,
    class: &Name,
    key: &Key,
    own: &Name,
) -> Result<Name, AllocError>
    requires { CanRefer planner.now.old act class.now key.now }
    ensures { IfOk result (λ descriptor. descriptor ≡ (if is_act_on_static act then takes_nothing else takes (receiver_for planner.now.old act class.now key.now own.now))) }
{
    match act {
        Act::GetStatic | Act::PutStatic | Act::InvokeStatic | Act::InvokeStaticInterface => {
            without_parameters(alloc)
        }
        _ => with_parameter(alloc, planner.receiver(act, class, key, own)),
    }
}

/// A class extends the seat and acts on the key of the class.
pub(crate) fn acting(
    alloc: Global,
    planner: &Planner<'_>,
    class: &Name,
    key: &Key,
    act: Act,
    seat: &Name,
) -> Result<PlannedFiles, AllocError>
    requires { CanRefer planner.now.old act class.now key.now }
    ensures { IfOk result (λ files. files ≡ files_of_plan (acts_from planner.now.old planner.now.new (package_of planner.now) class.now key.now act seat.now) (acts_bodies planner.now.old class.now key.now act seat.now ∷ [])) }
{
    let name = planner.own_name(alloc, b"Y", seat)?;
    let descriptor = taken_by_act(alloc, planner, act, class, key, &name)?;
    let above = seat.copy(alloc)?;
    let constructor = planner.constructor(seat);
    let draft = Draft::class(alloc, name, PUBLIC_CLASS, above, constructor)?;
    let steps = act_on(alloc, act, class, key)?;
    let draft = draft.method(static_use(alloc, descriptor)?, body(steps))?;
    PlannedFiles::one(alloc, draft.finish(alloc), Spot::Item(1))
}

/// The class U acts on the key of the class, by an object of it.
pub(crate) fn user_acting(
    alloc: Global,
    planner: &Planner<'_>,
    act: Act,
    class: &Name,
    key: &Key,
) -> Result<Blueprint, AllocError>
    ensures { IfOk result (λ file. file ≡ blueprint (user (package_of planner.now) (takes class.now) []) (user_bodies (act_steps act class.now key.now))) }
{
    let descriptor = with_parameter(alloc, class)?;
    user_of(alloc, planner, descriptor, act_on(alloc, act, class, key)?)
}

// The interface of this name, which extends the class.
fn interface_below(alloc: Global, name: Name, class: &Name) -> Result<Blueprint, AllocError>
    ensures { IfOk result (λ file. file ≡ blueprint (an_interface name (class.now ∷ []) []) []) }
{
    let draft = Draft::interface(alloc, name)?;
    Ok(draft.implements(class.copy(alloc)?)?.finish(alloc))
}

/// An interface extends another, and U calls the key on it.
pub(crate) fn inheriting(
    alloc: Global,
    planner: &Planner<'_>,
    class: &Name,
    key: &Key,
) -> Result<PlannedFiles, AllocError>
    ensures { IfOk result (λ files. files ≡ files_of_plan (calls_inherited planner.now.old planner.now.new (package_of planner.now) class.now key.now) (inherited_bodies planner.now.old planner.now.new (package_of planner.now) class.now key.now)) }
{
    let name = planner.own_name(alloc, b"J", class)?;
    let user = user_acting(alloc, planner, Act::InvokeInterface, &name, key)?;
    let mut before = Vec::new(alloc);
    before.push(interface_below(alloc, name, class)?)?;
    PlannedFiles::ending_with(alloc, before, user, Spot::Item(1))
}
