//! Planned clients for rules on classes and their hierarchies.
ghost use Rattle.std.specs.Prelude.{◌≡◌, ◌∷◌, [], IfOk};
ghost use Rattle.jc_promises.specs.plan.Planned.{assigns, names_above, names_class};
ghost use Rattle.jc_promises.specs.plan.PlannedBodies.{above_bodies, cast_steps, turn_steps, user_bodies};
ghost use Rattle.jc_witness.specs.steps.PlanFiles.{package_of, files_of_plan};

use crate::planned_files::{PlannedFiles, user_of};
use crate::planner::Planner;
use jc_base::name::Name;
use jc_drafts::bodies::{cast_to, return_parameter};
use jc_drafts::draft::{Draft, PUBLIC_CLASS};
use jc_drafts::texts::{from_to, root_name, with_parameter};
use jc_facts::verdict::Spot;
use std::alloc::{AllocError, Global};

/// A class casts an object to one that is gone.
pub(crate) fn naming(
    alloc: Global,
    planner: &Planner<'_>,
    class: &Name,
) -> Result<PlannedFiles, AllocError>
    ensures { IfOk result (λ files. files ≡ files_of_plan (names_class (package_of planner.now) class.now) (user_bodies (cast_steps class.now) ∷ [])) }
{
    let descriptor = with_parameter(alloc, &root_name(alloc)?)?;
    let user = user_of(alloc, planner, descriptor, cast_to(alloc, class)?)?;
    PlannedFiles::one(alloc, user, Spot::Item(1))
}

/// A class extends one that is closed now, or implements an interface that is closed now.
pub(crate) fn extending(
    alloc: Global,
    planner: &Planner<'_>,
    class: &Name,
) -> Result<PlannedFiles, AllocError>
    ensures { IfOk result (λ files. files ≡ files_of_plan (names_above planner.now.old planner.now.new (package_of planner.now) class.now) (above_bodies planner.now.old class.now ∷ [])) }
{
    let name = planner.closed_name(alloc, b"Y", class)?;
    let above = class.copy(alloc)?;
    let draft = if planner.is_interface(class) {
        Draft::plain(alloc, name)?.implements(above)?
    } else {
        let constructor = planner.constructor(class);
        Draft::class(alloc, name, PUBLIC_CLASS, above, constructor)?
    };
    PlannedFiles::one(alloc, draft.finish(alloc), Spot::Load)
}

/// A class returns an object of one class as one of another.
pub(crate) fn assigning(
    alloc: Global,
    planner: &Planner<'_>,
    from: &Name,
    to: &Name,
) -> Result<PlannedFiles, AllocError>
    ensures { IfOk result (λ files. files ≡ files_of_plan (assigns (package_of planner.now) from.now to.now) (user_bodies turn_steps ∷ [])) }
{
    let descriptor = from_to(alloc, from, to)?;
    let user = user_of(alloc, planner, descriptor, return_parameter(alloc)?)?;
    PlannedFiles::one(alloc, user, Spot::Item(1))
}
