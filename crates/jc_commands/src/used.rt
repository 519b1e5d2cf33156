//! The lines of the check of the two releases of clients.
ghost use Rattle.std.specs.Prelude.{◌≡◌, ◌≤◌, IfOk, IfErr, option_map, true};
ghost use Rattle.jc_facts.specs.Verdicts.{count_of};
ghost use Rattle.jc_promises.specs.Pairs.{AreOfOneRun};
ghost use Rattle.jc_promises.specs.rule.Verdict.{IsVerdict};
ghost use Rattle.jc_commands.specs.Clients.{AreLinesOf, AreAskedLines};
ghost use Rattle.jc_commands.specs.steps.Check.{StopsCounting};
ghost use Rattle.jc_commands.specs.steps.Clients.{StopsSiding};
ghost use Rattle.jc_releases.specs.Releases.{side_of};
ghost use Rattle.jc_releases.specs.declared.limits.TheConstants.{MAX_FINDINGS};
ghost use Rattle.jc_releases.specs.steps.Releases.{AreOldAndNew};
ghost use Rattle.jc_trees.specs.ClassLists.{IsRecordList};

use crate::comparison::{TwoTables, found_between, sides_over};
use crate::copies::copy_of;
use crate::found::{Found, Judged};
use jc_facts::verdict::Verdict;
use jc_loading::platform::Platform;
use jc_releases::releases::Release;
use jc_releases::stop::Stop;
use jc_table::table::Table;
use jc_used::line::Line;
use jc_used::lines::lines_of;
use std::alloc::Global;

// The verdict on two sides, unless there are too many findings and collisions.
fn verdict_between(alloc: Global, old: &Table, new: &Table) -> Result<Verdict, Stop>
    requires { AreOfOneRun old.now new.now }
    ensures exact { IfOk result (IsVerdict old.now new.now) }
    ensures few { IfOk result (λ verdict. count_of verdict ≤ MAX_FINDINGS) }
    ensures stopped { IfErr result (StopsCounting old.now new.now) }
{
    let found = match found_between(alloc, old, new, false, false) {
        Ok(found) => found,
        Err(stop) => return Err(stop),
    };
    let Found { judged, calls: _ } = found;
    let Judged {
        verdict,
        dropped: _,
    } = judged;
    Ok(verdict)
}

// The lines of the verdict on the platform with the old release and with the new one, or why there are none.
fn lines_over(
    alloc: Global,
    platform: &Platform,
    old: Release,
    new: Release,
) -> Result<Vec<Line>, Stop>
    requires platform { IsRecordList platform.now }
    requires releases { AreOldAndNew old new }
    ensures lines { IfOk result (λ lines. AreLinesOf (side_of platform.now old) (side_of platform.now new) lines.items) }
    ensures stopped { IfErr result (StopsSiding true (side_of platform.now old) (side_of platform.now new)) }
{
    let TwoTables { old, new } = match sides_over(alloc, platform, old, new) {
        Ok(sides) => sides,
        Err(stop) => return Err(stop),
    };
    let verdict = match verdict_between(alloc, &old, &new) {
        Ok(verdict) => verdict,
        Err(stop) => return Err(stop),
    };
    match lines_of(alloc, &new, verdict) {
        Ok(lines) => Ok(lines),
        Err(_) => Err(Stop::Memory),
    }
}

/// The lines of the verdict on the platform with the old release and with the new one, which stay, where they
/// are asked for, or why there are none.
///
/// # Errors
///
/// Where lines are asked for, `Stop::BadRoot` and `Overlap` as for `both_sides`, `TooMany` where the verdict is
/// over its limit, and `Memory` where memory runs out.
pub fn lines_asked(
    alloc: Global,
    used: bool,
    platform: &Platform,
    old: &Release,
    new: &Release,
) -> Result<Option<Vec<Line>>, Stop>
    requires platform { IsRecordList platform.now }
    requires releases { AreOldAndNew old.now new.now }
    ensures lines { IfOk result (λ made. AreAskedLines used (side_of platform.now old.now) (side_of platform.now new.now) (option_map (λ ls. ls.items) made)) }
    ensures stopped { IfErr result (StopsSiding used (side_of platform.now old.now) (side_of platform.now new.now)) }
{
    if !used {
        return Ok(None);
    }
    let Ok(was) = copy_of(alloc, old) else {
        return Err(Stop::Memory);
    };
    let Ok(now) = copy_of(alloc, new) else {
        return Err(Stop::Memory);
    };
    match lines_over(alloc, platform, was, now) {
        Ok(lines) => Ok(Some(lines)),
        Err(stop) => Err(stop),
    }
}
