//! Class files of planned clients, and which of them fails where.
ghost use Rattle.std.specs.Prelude.{◌≡◌, ◌∷◌, [], IfOk, OnOk};
ghost use Rattle.jc_facts.specs.ByName.{by_name};
ghost use Rattle.jc_facts.specs.Exactly.{NamesRise};
ghost use Rattle.jc_promises.specs.plan.Planned.{no_plan, use_method, user};
ghost use Rattle.jc_promises.specs.plan.PlannedBodies.{blueprint, user_bodies};
ghost use Rattle.jc_witness.specs.steps.PlanFiles.{class_of_file, ending_with, in_order, package_of, files_of_plan};

use crate::planner::Planner;
use jc_base::items::Items;
use jc_base::name::Name;
use jc_drafts::draft::{Draft, PUBLIC_STATIC, body};
use jc_facts::blueprint::{Blueprint, Step};
use jc_facts::class_facts::Member;
use jc_facts::verdict::Spot;
use std::alloc::{AllocError, Global};

/// Class files, the name of the one that fails with the new release, and its spot.
#[derive(Drop)]
pub(crate) struct PlannedFiles {
    pub(crate) files: Items<Blueprint>,
    pub(crate) name: Name,
    pub(crate) spot: Spot,
}

// Sorts class files by the names of their classes.
fn sort_by_name(files: &mut Vec<Blueprint>) -> Result<(), AllocError>
    requires { NamesRise class_of_file (by_name class_of_file files.old.items) }
    ensures { OnOk result (files.new.items ≡ by_name class_of_file files.old.items) }
{
    files.sort_by(|a, b| a.facts.name.cmp(&b.facts.name))?;
    Ok(())
}

impl PlannedFiles {
    /// No class files.
    pub(crate) fn none(alloc: Global) -> Result<PlannedFiles, AllocError>
        ensures { IfOk result (λ files. files ≡ files_of_plan no_plan []) }
    {
        Ok(PlannedFiles {
            files: Items::from_vec(Vec::new(alloc)),
            name: Name::from_bytes(alloc, b"")?,
            spot: Spot::Load,
        })
    }

    /// These class files, and one more, which has the spot.
    pub(crate) fn ending_with(
        alloc: Global,
        before: Vec<Blueprint>,
        last: Blueprint,
        spot: Spot,
    ) -> Result<PlannedFiles, AllocError>
        ensures { IfOk result (λ files. files ≡ ending_with before.items last spot) }
    {
        let name = last.facts.name.copy(alloc)?;
        let mut files = before;
        files.push(last)?;
        Ok(PlannedFiles {
            files: Items::from_vec(files),
            name,
            spot,
        })
    }

    /// This class file, which has the spot.
    pub(crate) fn one(
        alloc: Global,
        file: Blueprint,
        spot: Spot,
    ) -> Result<PlannedFiles, AllocError>
        ensures { IfOk result (λ files. files ≡ ending_with [] file spot) }
    {
        PlannedFiles::ending_with(alloc, Vec::new(alloc), file, spot)
    }

    /// The same in byte order of names.
    pub(crate) fn sorted(self) -> Result<PlannedFiles, AllocError>
        requires { NamesRise class_of_file (by_name class_of_file self.files) }
        ensures { IfOk result (λ files. files ≡ in_order self) }
    {
        let mut files = self.files.into_vec();
        sort_by_name(&mut files)?;
        Ok(PlannedFiles {
            files: Items::from_vec(files),
            name: self.name,
            spot: self.spot,
        })
    }
}

/// One class file.
pub(crate) fn single(alloc: Global, file: Blueprint) -> Result<Vec<Blueprint>, AllocError>
    ensures { IfOk result (λ files. files.items ≡ file ∷ []) }
{
    let mut files = Vec::new(alloc);
    files.push(file)?;
    Ok(files)
}

/// Two class files.
pub(crate) fn both(
    alloc: Global,
    first: Blueprint,
    second: Blueprint,
) -> Result<Vec<Blueprint>, AllocError>
    ensures { IfOk result (λ files. files.items ≡ first ∷ second ∷ []) }
{
    let mut files = Vec::new(alloc);
    files.push(first)?;
    files.push(second)?;
    Ok(files)
}

/// The method `use` of this descriptor.
pub(crate) fn static_use(alloc: Global, descriptor: Name) -> Result<Member, AllocError>
    ensures { IfOk result (λ method. method ≡ use_method descriptor) }
{
    Ok(Member {
        name: Name::from_bytes(alloc, b"use")?,
        descriptor,
        flags: PUBLIC_STATIC,
    })
}

/// The class U, whose method `use` has this descriptor and these instructions.
pub(crate) fn user_of(
    alloc: Global,
    planner: &Planner<'_>,
    descriptor: Name,
    steps: Vec<Step>,
) -> Result<Blueprint, AllocError>
    ensures { IfOk result (λ file. file ≡ blueprint (user (package_of planner.now) descriptor []) (user_bodies steps.items)) }
{
    let draft = Draft::plain(alloc, planner.in_package(alloc, b"U")?)?;
    let method = static_use(alloc, descriptor)?;
    Ok(draft.method(method, body(steps))?.finish(alloc))
}
