//! Judging clients of two releases.
ghost use Rattle.std.specs.Prelude.{◌≡◌, None, IfOk, IfErr, option_map};
ghost use Rattle.jc_base.specs.States.{change};
ghost use Rattle.jc_commands.specs.Causes.{StopsCommand};
ghost use Rattle.jc_commands.specs.ReportValue.{IsBare, IsReportOf, IsSized, TellsOf};
ghost use Rattle.jc_commands.specs.steps.Clients.{IsGroundFor, GroundsFor, StopsSiding, report_said};
ghost use Rattle.jc_facts.specs.world.World.{side_in};
ghost use Rattle.jc_index.specs.Root.{fault_of_root};
ghost use Rattle.jc_index.specs.Sides.{overlap_of};
ghost use Rattle.jc_releases.specs.Releases.{modules_in, side_of};
ghost use Rattle.jc_releases.specs.steps.Releases.{AreOldAndNew, IsReleaseList, StopsRelease};
ghost use Rattle.jc_table.specs.Tables.{HasCause as HasTableCause};
ghost use Rattle.jc_trees.specs.ClassLists.{IsRecordList};
ghost use Rattle.jc_words.specs.Command.{ClientsOf, ClientsCommand};
ghost use Rattle.jc_words.specs.CommandView.{clients_of};

use crate::report::Report;
use crate::used::lines_asked;
use jc_answers::trees::{AllSaid, judge_trees};
use jc_base::trees::Trees;
use jc_facts::class_facts::ClassFacts;
use jc_loading::platform::Platform;
use jc_losses::grounds::Ground;
use jc_releases::command::{trees_of_clients, trees_of_each_client};
use jc_releases::releases::{Release, ReleaseModules, take_release, unfit};
use jc_releases::stop::Stop;
use jc_releases::unread::stop_of;
use jc_table::table::TableError;
use jc_trees::read_trees::read_trees;
use jc_trees::tree::TreeName;
use jc_trees::tree_read::take_records;
use jc_used::line::Line;
use jc_words::clients::Clients;
use std::alloc::{AllocError, Global};

// What the clients of two releases are judged over, and the lines of the check of these, where they are asked
// for.
#[derive(Drop)]
struct TwoSides {
    old: Ground,
    new: Ground,
    lines: Option<Vec<Line>>,
}

// What clients of the platform with the records of a release in these modules are judged over.
fn ground_in(
    alloc: Global,
    platform: &Platform,
    records: Vec<ClassFacts>,
    modules: ReleaseModules,
) -> Result<Ground, TableError>
    requires platform { IsRecordList platform.now }
    requires records { IsRecordList records.items }
    ensures made { IfOk result (IsGroundFor (side_in (modules_in modules) platform.now records.items)) }
    ensures sound { IfOk result (λ _. (fault_of_root platform.now ≡ None) × (overlap_of platform.now records.items ≡ None)) }
    ensures refused { IfErr result (HasTableCause platform.now records.items) }
{
    match modules {
        ReleaseModules::One => match Ground::together(alloc, platform, records) {
            Ok(made) => Ok(made),
            Err(error) => Err(error),
        },
        ReleaseModules::Several(exports) => {
            match Ground::apart(alloc, platform, records, exports) {
                Ok(made) => Ok(made),
                Err(error) => Err(error),
            }
        }
    }
}

// What clients of the platform with the release are judged over, or why there is nothing.
fn ground_of(alloc: Global, platform: &Platform, release: Release) -> Result<Ground, Stop>
    requires platform { IsRecordList platform.now }
    requires release { IsReleaseList release }
    ensures made { IfOk result (IsGroundFor (side_of platform.now release)) }
    ensures sound { IfOk result (λ _. (fault_of_root platform.now ≡ None) × (overlap_of platform.now release.records ≡ None)) }
    ensures stopped { IfErr result (StopsRelease platform.now release) }
{
    let Release {
        name,
        records,
        modules,
    } = release;
    match ground_in(alloc, platform, records.into_vec(), modules) {
        Ok(made) => Ok(made),
        Err(error) => Err(unfit(name, error)),
    }
}

// What clients of the two releases with the platform are judged over, or why there is nothing.
fn two_sides(
    alloc: Global,
    platform: Vec<ClassFacts>,
    old: Release,
    new: Release,
    used: bool,
) -> Result<TwoSides, Stop>
    requires platform { IsRecordList platform.items }
    requires releases { AreOldAndNew old new }
    ensures sides { IfOk result (GroundsFor used (side_of platform.items old) (side_of platform.items new)) }
    ensures stopped { IfErr result (StopsSiding used (side_of platform.items old) (side_of platform.items new)) }
{
    let Ok(shared) = Platform::new(alloc, platform) else {
        return Err(Stop::Memory);
    };
    let lines = match lines_asked(alloc, used, &shared, &old, &new) {
        Ok(lines) => lines,
        Err(stop) => return Err(stop),
    };
    let was = match ground_of(alloc, &shared, old) {
        Ok(was) => was,
        Err(stop) => return Err(stop),
    };
    match ground_of(alloc, &shared, new) {
        Ok(now) => Ok(TwoSides {
            old: was,
            new: now,
            lines,
        }),
        Err(stop) => Err(stop),
    }
}

// The lines, where there are some.
fn lent(lines: &Option<Vec<Line>>) -> Option<&[Line]>
    ensures { option_map (λ ls. ls.now) result ≡ option_map (λ ls. ls.items) lines.now }
{
    match lines {
        Some(lines) => Some(lines.as_slice()),
        None => None,
    }
}

// The report of what is said of the clients, with these lines, where there are some.
fn reported<'a>(
    alloc: Global,
    as_json: bool,
    said: &AllSaid,
    lines: Option<Vec<Line>>,
) -> Result<Report<'a>, AllocError>
    ensures tells { IfOk result (λ report. (clients : ClientsOf) → clients.json ≡ as_json → TellsOf (ClientsCommand clients) (report_said said.now.answers.items (option_map (λ ls. ls.items) lines) said.now.explained.items) report) }
    ensures shown { IfOk result (λ report. IsBare report.body) }
{
    match lines {
        None => Report::of_answers(alloc, as_json, said.answers.as_slice()),
        Some(lines) => Report::of_explained(
            alloc,
            as_json,
            said.answers.as_slice(),
            said.explained.as_slice(),
            lines,
        ),
    }
}

/// What clients of two releases come to, from 1 to 1,000, or why there is no report. What is read of one is
/// given back before the next is read.
///
/// # Errors
///
/// `Stop::Unread` where the tree of the platform or of a release isn't read, `ReadFault` where a call on a
/// tree failed, `BadRoot` or `Overlap` where the releases don't go with the platform, `TooMany` where lines
/// are asked for and the verdict on the releases is over its limit, and `Memory` where memory runs out.
pub fn judge_clients<'a, T: Trees>(
    alloc: Global,
    asked: &Clients<'_>,
    trees: &mut T,
) -> Result<Report<'a>, Stop>
    requires { IsSized (ClientsCommand (clients_of asked.now)) }
    ensures report { IfOk result (IsReportOf (ClientsCommand (clients_of asked.now)) (T.state trees.old)) }
    ensures stopped { IfErr result (StopsCommand (ClientsCommand (clients_of asked.now)) (change T.state trees.old trees.new)) }
    ensures content { (T.state trees.new).content ≡ (T.state trees.old).content }
{
    let wanted = trees_of_clients(asked);
    let mut all = match read_trees(alloc, &wanted, trees) {
        Ok(all) => all,
        Err(error) => return Err(stop_of(error)),
    };
    let platform = take_records(&mut all);
    let old = take_release(&mut all, TreeName::Old, asked.modular);
    let new = take_release(&mut all, TreeName::New, asked.modular);
    let sides = match two_sides(alloc, platform, old, new, asked.used) {
        Ok(sides) => sides,
        Err(stop) => return Err(stop),
    };
    let Ok(each) = trees_of_each_client(alloc, asked.clients.as_slice()) else {
        return Err(Stop::Memory);
    };
    let TwoSides { old, new, lines } = sides;
    let said = match judge_trees(alloc, each.as_slice(), &old, &new, lent(&lines), trees) {
        Ok(said) => said,
        Err(error) => return Err(stop_of(error)),
    };
    match reported(alloc, asked.json, &said, lines) {
        Ok(report) => Ok(report),
        Err(_) => Err(Stop::Memory),
    }
}
