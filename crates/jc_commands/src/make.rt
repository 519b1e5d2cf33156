//! The verdict on generated releases.
ghost use Rattle.std.specs.Prelude.{◌≡◌, IfOk, IfErr};
ghost use Rattle.jc_base.specs.States.{TreesState};
ghost use Rattle.jc_promises.specs.rule.Verdict.{IsVerdict};
ghost use Rattle.jc_facts.specs.world.World.{side};
ghost use Rattle.jc_words.specs.Command.{MakeCommand};
ghost use Rattle.jc_commands.specs.Make.{IsSize};
ghost use Rattle.jc_releases.specs.declared.stop.Stop.{Stop};
ghost use Rattle.jc_commands.specs.steps.Check.{StopsMatching};
ghost use Rattle.jc_trees.specs.ClassLists.{IsRecordList};
ghost use Rattle.jc_commands.specs.ReportValue.{IsReportOf};

use crate::comparison::both_sides;
use crate::report::Report;
use jc_facts::generate::{Made, generate};
use jc_facts::verdict::Verdict;
use jc_releases::releases::Release;
use jc_releases::stop::Stop;
use jc_rules::compare::compare;
use jc_trees::tree::TreeName;
use jc_words::make::Make;
use std::alloc::Global;

// The verdict on the releases, or why there is none.
fn verdict_on(alloc: Global, made: Made) -> Result<Verdict, Stop>
    requires platform { IsRecordList made.platform }
    requires old { IsRecordList made.old }
    requires new { IsRecordList made.new }
    ensures exact { IfOk result (IsVerdict (side made.platform made.old) (side made.platform made.new)) }
    ensures stopped { IfErr result (StopsMatching (side made.platform made.old) (side made.platform made.new)) }
{
    let Made { platform, old, new } = made;
    let old = Release::plain(TreeName::Old, old.into_vec());
    let new = Release::plain(TreeName::New, new.into_vec());
    let sides = match both_sides(alloc, platform.into_vec(), old, new) {
        Ok(sides) => sides,
        Err(stop) => return Err(stop),
    };
    match compare(alloc, &sides.old, &sides.new) {
        Ok(verdict) => Ok(verdict),
        Err(_) => Err(Stop::Memory),
    }
}

/// What `make` comes to: the verdict on generated releases of as many classes, from 1 to 4,096,
/// however many findings it has. No tree is read.
///
/// # Errors
///
/// `Memory` where memory runs out.
pub fn make_releases<'a>(alloc: Global, asked: &Make) -> Result<Report<'a>, Stop>
    requires { IsSize asked.now.classes }
    ensures report { IfOk result (λ report. (trees : TreesState) → IsReportOf (MakeCommand asked.now.classes) trees report) }
    ensures stopped { IfErr result (λ stop. stop ≡ Stop.Memory) }
{
    let Ok(made) = generate(alloc, asked.classes) else {
        return Err(Stop::Memory);
    };
    let verdict = match verdict_on(alloc, made) {
        Ok(verdict) => verdict,
        Err(stop) => return Err(stop),
    };
    match Report::of_made(alloc, asked.classes, &verdict) {
        Ok(report) => Ok(report),
        Err(_) => Err(Stop::Memory),
    }
}
