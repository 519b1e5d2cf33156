//! The class files of the clients that are planned for a finding or a collision.
ghost use Rattle.std.specs.Prelude.{◌≡◌, IfOk, None, Some};
ghost use Rattle.jc_facts.specs.declared.verdict.Cause.TheVariants as cause;
ghost use Rattle.jc_promises.specs.plan.Planned.{finding_plan, member_plan};
ghost use Rattle.jc_promises.specs.plan.PlannedBodies.{finding_bodies, member_bodies};
ghost use Rattle.jc_promises.specs.rule.Findings.{Stands};
ghost use Rattle.jc_facts.specs.Names.{object_name};
ghost use Rattle.jc_witness.specs.Ground.{IsGround};
ghost use Rattle.jc_witness.specs.Exposing.{CanExpose};
ghost use Rattle.jc_witness.specs.steps.PlanFiles.{package_of, files_of_plan, AreFilesOfPlan};

use crate::class_plans::{extending, naming};
use crate::collision_plans::{capturing, reading};
use crate::exposed_plans::assigning_from;
use crate::handed_plans::losing_from;
use crate::member_plans::{acting, constructing, inheriting, making, overriding};
use crate::planned_files::PlannedFiles;
use crate::planner::Planner;
use jc_drafts::texts::root_name;
use jc_facts::act::Act;
use jc_facts::finding::Finding;
use jc_facts::key::Key;
use jc_facts::rule_numbers::{
    CAPTURE_ADDED, CLASS_CLOSED, CLASS_GONE, CONSTANT_ADDED, CONSTRUCTOR_CLOSED, METHOD_MADE_FINAL,
};
use jc_facts::verdict::Collision;
use std::alloc::{AllocError, Global};

// Of a rule on classes alone.
fn class_plan(
    alloc: Global,
    planner: &Planner<'_>,
    finding: &Finding,
) -> Result<PlannedFiles, AllocError>
    requires { CanExpose planner.now.old finding.now.seat object_name finding.now.class }
    ensures { IfOk result (λ files. files ≡ files_of_plan (finding_plan planner.now.old planner.now.new (package_of planner.now) finding.now None None) (finding_bodies planner.now.old planner.now.new (package_of planner.now) finding.now None None)) }
{
    match finding.rule {
        CLASS_GONE => naming(alloc, planner, &finding.class),
        CLASS_CLOSED => extending(alloc, planner, &finding.class),
        _ => assigning_from(
            alloc,
            planner,
            &root_name(alloc)?,
            &finding.class,
            &finding.seat,
        ),
    }
}

// Of a rule on members that names no seat.
fn seatless_plan(
    alloc: Global,
    planner: &Planner<'_>,
    finding: &Finding,
    key: &Key,
) -> Result<PlannedFiles, AllocError>
    ensures { IfOk result (λ files. files ≡ files_of_plan (member_plan planner.now.old planner.now.new (package_of planner.now) finding.now key.now None) (member_bodies planner.now.old planner.now.new (package_of planner.now) finding.now key.now None)) }
{
    match finding.rule {
        CONSTRUCTOR_CLOSED => match finding.act {
            Act::NewObject => making(alloc, planner, &finding.class, &key.descriptor),
            _ => constructing(alloc, planner, &finding.class, &key.descriptor),
        },
        METHOD_MADE_FINAL => overriding(alloc, planner, &finding.class, key),
        _ => inheriting(alloc, planner, &finding.class, key),
    }
}

// Of a rule on members.
fn member_plan(
    alloc: Global,
    planner: &Planner<'_>,
    finding: &Finding,
    key: &Key,
) -> Result<PlannedFiles, AllocError>
    requires stands { Stands planner.now.old planner.now.new finding.now }
    requires key { finding.now.key ≡ Some key.now }
    ensures { IfOk result (λ files. files ≡ files_of_plan (member_plan planner.now.old planner.now.new (package_of planner.now) finding.now key.now finding.now.seat) (member_bodies planner.now.old planner.now.new (package_of planner.now) finding.now key.now finding.now.seat)) }
{
    match &finding.seat {
        Some(seat) => acting(alloc, planner, &finding.class, key, finding.act, seat),
        None => seatless_plan(alloc, planner, finding, key),
    }
}

// Of a finding with this key and this target. None that stands has both.
fn plan_by_parts(
    alloc: Global,
    planner: &Planner<'_>,
    finding: &Finding,
) -> Result<PlannedFiles, AllocError>
    requires stands { Stands planner.now.old planner.now.new finding.now }
    requires ground { IsGround planner.now }
    ensures { IfOk result (λ files. files ≡ files_of_plan (finding_plan planner.now.old planner.now.new (package_of planner.now) finding.now finding.now.key finding.now.target) (finding_bodies planner.now.old planner.now.new (package_of planner.now) finding.now finding.now.key finding.now.target)) }
{
    match (&finding.key, &finding.target) {
        (None, None) => class_plan(alloc, planner, finding),
        (None, Some(target)) => {
            losing_from(alloc, planner, &finding.class, target, &finding.seat)
        }
        (Some(key), None) => member_plan(alloc, planner, finding, key),
        (Some(_), Some(_)) => PlannedFiles::none(alloc),
    }
}

/// Of a finding.
#[tactic(auto, unfolding(jc_promises::specs::plan::Planned::plan, jc_promises::specs::plan::PlannedBodies::plan_bodies))]
pub(crate) fn finding_plan(
    alloc: Global,
    planner: &Planner<'_>,
    finding: &Finding,
) -> Result<PlannedFiles, AllocError>
    requires stands { Stands planner.now.old planner.now.new finding.now }
    requires ground { IsGround planner.now }
    ensures { IfOk result (λ files. AreFilesOfPlan planner.now (cause.Finding finding.now) files) }
{
    plan_by_parts(alloc, planner, finding)
}

/// Of a collision.
#[tactic(auto, unfolding(jc_promises::specs::plan::Planned::plan, jc_promises::specs::plan::PlannedBodies::plan_bodies))]
pub(crate) fn collision_plan(
    alloc: Global,
    planner: &Planner<'_>,
    collision: &Collision,
) -> Result<PlannedFiles, AllocError>
    ensures { IfOk result (λ files. AreFilesOfPlan planner.now (cause.Collision collision.now) files) }
{
    match collision.rule {
        CONSTANT_ADDED => reading(alloc, planner, &collision.class, &collision.key),
        CAPTURE_ADDED => capturing(alloc, planner, &collision.class, &collision.key),
        _ => overriding(alloc, planner, &collision.class, &collision.key),
    }
}
