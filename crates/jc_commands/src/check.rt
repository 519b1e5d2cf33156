//! Comparing two releases.
ghost use Rattle.std.specs.Prelude.{◌≡◌, IfOk, IfErr};
ghost use Rattle.jc_base.specs.States.{change};
ghost use Rattle.jc_commands.specs.Causes.{StopsCommand};
ghost use Rattle.jc_words.specs.Command.{CheckCommand};
ghost use Rattle.jc_words.specs.CommandView.{check_of};
ghost use Rattle.jc_commands.specs.ReportValue.{IsReportOf};

use crate::comparison::Comparison;
use crate::report::Report;
use jc_base::trees::Trees;
use jc_releases::command::trees_of_check;
use jc_releases::releases::take_release;
use jc_releases::stop::Stop;
use jc_releases::unread::stop_of;
use jc_trees::read_trees::read_trees;
use jc_trees::tree::TreeName;
use jc_trees::tree_read::take_records;
use jc_words::check::Check;
use std::alloc::Global;

/// What a check comes to, or why it has no report.
///
/// # Errors
///
/// `Stop::Unread` or `ReadFault` where a tree isn't read, `BadRoot` or `Overlap` where the trees don't make
/// two sides, `TooMany` where the verdict, the warnings, the dropped interfaces or the lines on calls are over their
/// limit, and `Memory` where memory runs out.
pub fn check<'a, T: Trees>(
    alloc: Global,
    check: &Check<'a>,
    trees: &mut T,
) -> Result<Report<'a>, Stop>
    ensures report { IfOk result (IsReportOf (CheckCommand (check_of check.now)) (T.state trees.old)) }
    ensures stopped { IfErr result (StopsCommand (CheckCommand (check_of check.now)) (change T.state trees.old trees.new)) }
    ensures content { (T.state trees.new).content ≡ (T.state trees.old).content }
{
    let wanted = trees_of_check(check);
    let mut all = match read_trees(alloc, &wanted, trees) {
        Ok(all) => all,
        Err(error) => return Err(stop_of(error)),
    };
    let platform = take_records(&mut all);
    let old = take_release(&mut all, TreeName::Old, check.modular);
    let new = take_release(&mut all, TreeName::New, check.modular);
    let comparison = match Comparison::of_records(alloc, platform, old, new, check) {
        Ok(comparison) => comparison,
        Err(stop) => return Err(stop),
    };
    match Report::of_comparison(alloc, comparison, check) {
        Ok(report) => Ok(report),
        Err(_) => Err(Stop::Memory),
    }
}
