//! The one top call.
ghost use Rattle.std.specs.Prelude.{map};
ghost use Rattle.jc_base.specs.States.{change};
ghost use Rattle.jc_gate.specs.Gates.{gate_of};
ghost use Rattle.jcompat.specs.Answers.{Answers, ran};

use jc_base::folder::Folder;
use jc_base::sink::Sink;
use jc_base::text::Text;
use jc_base::trees::Trees;
use jc_commands::decide::decide;
use jc_commands::put::{put_report, put_stop};
use jc_gate::gate::Gate;
use std::alloc::Global;

/// Does what the words ask for, writes what there is to say, and answers the exit status:
///
/// - 0: what was asked is so: of a check each gate of a name that it asks for passes, of a link each
///   outcome is Ok, of a row of releases no step has a finding, of generated releases and of help always; 1: it isn't
///   so. The verdict, the verdicts or the outcomes were put to `out`, and before them, where a check asks
///   for it, the witness files of each finding and collision to `witnesses`. Then each such gate was told
///   the step between the versions, where the check says them, saw the rules of all findings and collisions
///   in their order, and was asked.
/// - 2: the words ask for nothing, name a gate that isn't there, or say versions without a step between
///   them. 3: a class file is malformed or misplaced or a client's code is refused, the platform's
///   `java/lang/Object` isn't as it has to be, a release declares a name that the platform declares, or
///   a client has a name that they don't allow. 4: a call on a tree failed. 7: a tree has more than
///   40,000 class files, a class file's path more than 4,096 bytes, a class file more than 4,194,304
///   bytes, or a report more than 999,999 findings and collisions, warnings, dropped interfaces or lines
///   on calls. A line was put to `err`.
/// - 5: a put failed. 6: there was no memory. Nothing was put after the failure.
///
/// No gate is asked but with 0 and 1, and all are dropped.
pub fn run<T: Trees, O: Sink, E: Sink, F: Folder>(
    alloc: Global,
    words: &[Text],
    trees: &mut T,
    out: &mut O,
    err: &mut E,
    witnesses: &mut F,
    gates: Vec<Box<dyn Gate>>,
) -> u8
    ensures { Answers (ran (map (λ gate. gate_of (⟦<dyn Gate as Gate>⟧ gate.vtable) gate.value) gates.items) words.now (change T.state trees.old trees.new) (change O.state out.old out.new) (change E.state err.old err.new) (change F.state witnesses.old witnesses.new) result) }
{
    match decide(alloc, words, gates.as_slice(), trees) {
        Ok(report) => put_report(alloc, &report, witnesses, out, gates),
        Err(stop) => put_stop(alloc, &stop, err),
    }
}
