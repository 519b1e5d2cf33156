//! Judging a row of releases.
ghost use Rattle.std.specs.Prelude.{◌≡◌, ◌<◌, length, map, IfOk, IfErr};
ghost use Rattle.std.specs.List.{All};
ghost use Rattle.jc_base.specs.States.{change};
ghost use Rattle.jc_commands.specs.Causes.{StopsCommand};
ghost use Rattle.jc_words.specs.Command.{HistoryCommand};
ghost use Rattle.jc_releases.specs.Releases.{numbered};
ghost use Rattle.jc_commands.specs.ReportValue.{IsReportOf, IsSized};
ghost use Rattle.jc_commands.specs.steps.History.{IsCounted, IsJudged, StopsJudging};
ghost use Rattle.jc_releases.specs.steps.Releases.{IsReleaseList};
ghost use Rattle.jc_trees.specs.ClassLists.{IsRecordList};
ghost use Rattle.jc_words.specs.CommandView.{history_of};

use crate::report::Report;
use jc_base::trees::Trees;
use jc_facts::class_facts::ClassFacts;
use jc_facts::verdict::Verdict;
use jc_history::history::history_within;
use jc_loading::platform::Platform;
use jc_releases::command::trees_of_history;
use jc_releases::limits::MAX_FINDINGS;
use jc_releases::releases::{Release, numbered_releases, tables_over};
use jc_releases::stop::{Part, Stop};
use jc_releases::unread::stop_of;
use jc_table::table::Table;
use jc_trees::read_trees::read_trees;
use jc_trees::tree_read::take_records;
use jc_words::history::History;
use std::alloc::Global;

// Counts say what always holds of each table.
fn count_each(tables: &[Table])
    ensures { All IsCounted tables.now }
{
    for table in tables {
        let _size = table.count();
        let _names = table.mention_count();
    }
}

// The verdicts on the releases of a row with the platform, or why there are none.
fn judged(
    alloc: Global,
    platform: Vec<ClassFacts>,
    releases: Vec<Release>,
) -> Result<Vec<Verdict>, Stop>
    requires platform { IsRecordList platform.items }
    requires releases { All IsReleaseList releases.items }
    requires numbers { releases.items ≡ numbered 1 (map (λ r. r.records) releases.items) }
    requires some { 0 < length releases.items }
    ensures judged { IfOk result (λ vs. IsJudged platform.items (map (λ r. r.records) releases.items) vs.items) }
    ensures stopped { IfErr result (StopsJudging platform.items (map (λ r. r.records) releases.items)) }
{
    let Ok(shared) = Platform::new(alloc, platform) else {
        return Err(Stop::Memory);
    };
    let tables = match tables_over(alloc, &shared, releases) {
        Ok(tables) => tables,
        Err(stop) => return Err(stop),
    };
    let row = tables.as_slice();
    count_each(row);
    match history_within(alloc, row, MAX_FINDINGS) {
        Ok(Some(verdicts)) => Ok(verdicts),
        Ok(None) => Err(Stop::TooMany(Part::Findings)),
        Err(_) => Err(Stop::Memory),
    }
}

/// What a row of releases comes to, from 2 to 20, or why it has no report. The table of each release is
/// made once, and all share that of the platform.
///
/// # Errors
///
/// `Stop::Unread` or `ReadFault` where a tree isn't read, `BadRoot` or `Overlap` where the trees don't make
/// sides, `TooMany` where a verdict is over the limit, and `Memory` where memory runs out.
pub fn judge_row<'a, T: Trees>(
    alloc: Global,
    asked: &History<'_>,
    trees: &mut T,
) -> Result<Report<'a>, Stop>
    requires { IsSized (HistoryCommand (history_of asked.now)) }
    ensures report { IfOk result (IsReportOf (HistoryCommand (history_of asked.now)) (T.state trees.old)) }
    ensures stopped { IfErr result (StopsCommand (HistoryCommand (history_of asked.now)) (change T.state trees.old trees.new)) }
    ensures content { (T.state trees.new).content ≡ (T.state trees.old).content }
{
    let Ok(wanted) = trees_of_history(alloc, asked) else {
        return Err(Stop::Memory);
    };
    let mut all = match read_trees(alloc, wanted.as_slice(), trees) {
        Ok(all) => all,
        Err(error) => return Err(stop_of(error)),
    };
    let platform = take_records(&mut all);
    let Ok(releases) = numbered_releases(alloc, all) else {
        return Err(Stop::Memory);
    };
    match judged(alloc, platform, releases) {
        Ok(verdicts) => Ok(Report::of_row(verdicts)),
        Err(stop) => Err(stop),
    }
}
