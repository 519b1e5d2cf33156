//! The page of help.
ghost use Rattle.std.specs.Prelude.{◌≡◌, IfOk, IfErr};
ghost use Rattle.jc_base.specs.States.{TreesState};
ghost use Rattle.jc_words.specs.Command.{HelpCommand};
ghost use Rattle.jc_releases.specs.declared.stop.Stop.{Stop};
ghost use Rattle.jc_commands.specs.ReportValue.{IsReportOf};

use crate::report::Report;
use jc_releases::stop::Stop;
use jc_words::help::page;
use std::alloc::Global;

/// What `help` comes to: the page of commands, options and statuses. No tree is read.
///
/// # Errors
///
/// `Memory` where memory runs out.
pub fn help<'a>(alloc: Global) -> Result<Report<'a>, Stop>
    ensures report { IfOk result (λ report. (trees : TreesState) → IsReportOf HelpCommand trees report) }
    ensures stopped { IfErr result (λ stop. stop ≡ Stop.Memory) }
{
    match Report::of_page(alloc, page()) {
        Ok(report) => Ok(report),
        Err(_) => Err(Stop::Memory),
    }
}
