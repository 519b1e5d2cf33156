//! Putting the text of the verdicts on a row of releases, which is made line by line.
ghost use Rattle.std.specs.Prelude.{◌≤◌, true, OnOk, OnErr, IsErrOf};
ghost use Rattle.jc_base.specs.Causes.{Rose};
ghost use Rattle.jc_base.specs.Outside.{TakesAll, TakesFront};
ghost use Rattle.jc_report.specs.Text.{text_of};
ghost use Rattle.jc_report.specs.HistoryText.{with_front, step_front, step_lines, last_line_of_history, history_text_of};

use crate::history_text::{front_of, last_line};
use crate::put_text::put_fronted;
use jc_base::sink::{Sink, SinkError};
use jc_facts::verdict::Verdict;
use std::alloc::Global;

// Puts the text of the verdict on the step of this number, with that number before each line.
fn put_step<O: Sink>(
    alloc: Global,
    number: usize,
    verdict: &Verdict,
    out: &mut O,
) -> Result<(), SinkError>
    ensures ok { OnOk result (TakesAll (O.state out.old).taken (O.state out.new).taken (with_front (step_front number) true (text_of verdict.now))) }
    ensures err { OnErr result (TakesFront (O.state out.old).taken (O.state out.new).taken (with_front (step_front number) true (text_of verdict.now))) }
    ensures never_falls { (O.state out.old).faults ≤ (O.state out.new).faults }
    ensures cause { IsErrOf result SinkError.Fault → Rose (O.state out.old).faults (O.state out.new).faults }
{
    let Ok(front) = front_of(alloc, number) else {
        return Err(SinkError::Memory);
    };
    match put_fronted(alloc, front.as_slice(), verdict, out) {
        Ok(()) => Ok(()),
        Err(error) => Err(error),
    }
}

// Puts the texts of the verdicts, with the number of its step, from 1 on, before each line.
fn put_steps<O: Sink>(alloc: Global, verdicts: &[Verdict], out: &mut O) -> Result<(), SinkError>
    ensures ok { OnOk result (TakesAll (O.state out.old).taken (O.state out.new).taken (step_lines 1 verdicts.now)) }
    ensures err { OnErr result (TakesFront (O.state out.old).taken (O.state out.new).taken (step_lines 1 verdicts.now)) }
    ensures never_falls { (O.state out.old).faults ≤ (O.state out.new).faults }
    ensures cause { IsErrOf result SinkError.Fault → Rose (O.state out.old).faults (O.state out.new).faults }
{
    for (i, verdict) in verdicts.iter().enumerate() {
        match put_step(alloc, i + 1, verdict, out) {
            Ok(()) => {}
            Err(error) => return Err(error),
        }
    }
    Ok(())
}

// Puts the last line, which says how many steps there are and how many are incompatible.
fn put_last<O: Sink>(alloc: Global, verdicts: &[Verdict], out: &mut O) -> Result<(), SinkError>
    ensures ok { OnOk result (TakesAll (O.state out.old).taken (O.state out.new).taken (last_line_of_history verdicts.now)) }
    ensures err { OnErr result (TakesFront (O.state out.old).taken (O.state out.new).taken (last_line_of_history verdicts.now)) }
    ensures never_falls { (O.state out.old).faults ≤ (O.state out.new).faults }
    ensures cause { IsErrOf result SinkError.Fault → Rose (O.state out.old).faults (O.state out.new).faults }
{
    let Ok(line) = last_line(alloc, verdicts) else {
        return Err(SinkError::Memory);
    };
    match out.put(line.as_slice()) {
        Ok(()) => Ok(()),
        Err(error) => Err(error),
    }
}

/// Puts the text of the verdicts on a row of releases, as `history_text` makes it, one call for each line
/// with its line end. Each line is made, put and dropped, so the text never stands whole. Nothing is put
/// after a failed call or where there is no memory for a line.
///
/// # Errors
///
/// `SinkError::Fault` where a put failed, and `SinkError::Memory` where memory runs out.
pub fn put_history<O: Sink>(
    alloc: Global,
    verdicts: &[Verdict],
    out: &mut O,
) -> Result<(), SinkError>
    ensures ok { OnOk result (TakesAll (O.state out.old).taken (O.state out.new).taken (history_text_of verdicts.now)) }
    ensures err { OnErr result (TakesFront (O.state out.old).taken (O.state out.new).taken (history_text_of verdicts.now)) }
    ensures never_falls { (O.state out.old).faults ≤ (O.state out.new).faults }
    ensures cause { IsErrOf result SinkError.Fault → Rose (O.state out.old).faults (O.state out.new).faults }
{
    match put_steps(alloc, verdicts, out) {
        Ok(()) => {}
        Err(error) => return Err(error),
    }
    match put_last(alloc, verdicts, out) {
        Ok(()) => Ok(()),
        Err(error) => Err(error),
    }
}
