//! Planned clients for collisions.
ghost use Rattle.std.specs.Prelude.{◌≡◌, ◌∷◌, [], IfOk, None, codes};
ghost use Rattle.jc_promises.specs.plan.Planned.{a_class, abstract_method, an_interface, calls_captured, field_class, reads_field};
ghost use Rattle.jc_promises.specs.plan.PlannedBodies.{blueprint, captured_bodies, init_body, object_init, reads_bodies};
ghost use Rattle.jc_promises.specs.plan.PlannedNames.{constructor, in_package};
ghost use Rattle.jc_witness.specs.steps.PlanFiles.{package_of, files_of_plan};

use crate::member_plans::{abstract_of, user_acting};
use crate::planned_files::{PlannedFiles, both};
use crate::planner::Planner;
use jc_base::name::Name;
use jc_drafts::draft::{ABSTRACT_CLASS, Draft, PUBLIC, PUBLIC_CLASS};
use jc_facts::act::Act;
use jc_facts::blueprint::Blueprint;
use jc_facts::class_facts::Member;
use jc_facts::key::Key;
use jc_facts::verdict::Spot;
use std::alloc::{AllocError, Global};

// The class Z, with a public field of the key.
fn field_owner(alloc: Global, planner: &Planner<'_>, key: &Key) -> Result<Blueprint, AllocError>
    ensures { IfOk result (λ file. file ≡ blueprint (field_class (package_of planner.now) key.now) (object_init ∷ [])) }
{
    let field = Member {
        name: key.name.copy(alloc)?,
        descriptor: key.descriptor.copy(alloc)?,
        flags: PUBLIC,
    };
    let draft = Draft::plain(alloc, planner.in_package(alloc, b"Z")?)?;
    Ok(draft.field(field)?.finish(alloc))
}

// The class of this name, which extends Z and implements the interface.
fn implementing(
    alloc: Global,
    planner: &Planner<'_>,
    name: Name,
    interface: &Name,
) -> Result<Blueprint, AllocError>
    ensures { IfOk result (λ file. file ≡ blueprint (a_class name 0x0021 (in_package (package_of planner.now) (codes "Z")) (codes "()V") (interface.now ∷ []) [] [] []) (init_body (in_package (package_of planner.now) (codes "Z")) (codes "()V") ∷ [])) }
{
    let owner = planner.in_package(alloc, b"Z")?;
    let draft = Draft::class(alloc, name, PUBLIC_CLASS, owner, b"()V")?;
    Ok(draft.implements(interface.copy(alloc)?)?.finish(alloc))
}

/// A class extends one that has a field of the key and implements the interface, and U reads the
/// field.
pub(crate) fn reading(
    alloc: Global,
    planner: &Planner<'_>,
    interface: &Name,
    key: &Key,
) -> Result<PlannedFiles, AllocError>
    ensures { IfOk result (λ files. files ≡ files_of_plan (reads_field planner.now.old planner.now.new (package_of planner.now) interface.now key.now) (reads_bodies planner.now.old planner.now.new (package_of planner.now) interface.now key.now)) }
{
    let name = planner.own_name(alloc, b"Y", interface)?;
    let user = user_acting(alloc, planner, Act::GetField, &name, key)?;
    let owner = field_owner(alloc, planner, key)?;
    let below = implementing(alloc, planner, name, interface)?;
    PlannedFiles::ending_with(alloc, both(alloc, owner, below)?, user, Spot::Item(1))
}

// The interface J, which declares the key.
fn declaring(alloc: Global, planner: &Planner<'_>, key: &Key) -> Result<Blueprint, AllocError>
    ensures { IfOk result (λ file. file ≡ blueprint (an_interface (in_package (package_of planner.now) (codes "J")) [] (abstract_method key.now ∷ [])) (None ∷ [])) }
{
    let draft = Draft::interface(alloc, planner.in_package(alloc, b"J")?)?;
    Ok(draft.method(abstract_of(alloc, key)?, None)?.finish(alloc))
}

// The abstract class of this name, which extends the class and implements J.
fn extending_with_interface(
    alloc: Global,
    planner: &Planner<'_>,
    name: Name,
    class: &Name,
) -> Result<Blueprint, AllocError>
    ensures { IfOk result (λ file. file ≡ blueprint (a_class name 0x0421 class.now (constructor planner.now.old class.now) (in_package (package_of planner.now) (codes "J") ∷ []) [] [] []) (init_body class.now (constructor planner.now.old class.now) ∷ [])) }
{
    let above = class.copy(alloc)?;
    let constructor = planner.constructor(class);
    let draft = Draft::class(alloc, name, ABSTRACT_CLASS, above, constructor)?;
    let joined = planner.in_package(alloc, b"J")?;
    Ok(draft.implements(joined)?.finish(alloc))
}

/// An abstract class extends another and implements an interface that declares the key, and U calls
/// the key on it.
pub(crate) fn capturing(
    alloc: Global,
    planner: &Planner<'_>,
    class: &Name,
    key: &Key,
) -> Result<PlannedFiles, AllocError>
    ensures { IfOk result (λ files. files ≡ files_of_plan (calls_captured planner.now.old planner.now.new (package_of planner.now) class.now key.now) (captured_bodies planner.now.old planner.now.new (package_of planner.now) class.now key.now)) }
{
    let name = planner.own_name(alloc, b"Y", class)?;
    let user = user_acting(alloc, planner, Act::InvokeVirtual, &name, key)?;
    let declared = declaring(alloc, planner, key)?;
    let below = extending_with_interface(alloc, planner, name, class)?;
    PlannedFiles::ending_with(alloc, both(alloc, declared, below)?, user, Spot::Item(1))
}
