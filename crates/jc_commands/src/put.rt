//! Putting a report with its witness files, or the line that says why there is none.
ghost use Rattle.std.specs.Prelude.{◌≡◌, ◌≢◌, ◌≤◌, ◌⊎◌, List, ℕ, None, Some, option_map, OnOk, OnErr, IsErrOf, map};
ghost use Rattle.jc_base.specs.States.{change};
ghost use Rattle.jc_gate.specs.Gates.{gate_of};
ghost use Rattle.jc_commands.specs.Check.{verdict_bytes, last_bytes, behind_bytes, besides_bytes, check_bytes};
ghost use Rattle.jc_commands.specs.Outputs.{PutsAll, PutsFront, HasPutFault, HasFolderFault, IsUntouched};
ghost use Rattle.jc_releases.specs.Stop.{line_of, status_of};
ghost use Rattle.jc_shown.specs.Witness.{PutsFiles, PutsSome};
ghost use Rattle.jc_commands.specs.ReportValue.{CanShowAll, CanShowAny, report_in, bytes_in, dir_shown, dir_in, puts_shown, puts_in, passes_by, status_by};
ghost use Rattle.jc_commands.specs.Putting.{IsPutWith, IsPutAfter, IsCutBefore};
ghost use Rattle.jc_releases.specs.declared.stop.Stop.{Stop};
ghost use Rattle.jc_report.specs.Listing.{part_bytes};

use crate::body::{CheckBody, ReportBody};
use crate::report::Report;
use jc_base::folder::{Folder, FolderError};
use jc_base::sink::{Sink, SinkError};
use jc_facts::verdict::Verdict;
use jc_gate::gate::Gate;
use jc_releases::status::{NO_MEMORY, WRITE_FAULT};
use jc_releases::stop::Stop;
use jc_report::entry::Entry;
use jc_report::json::put_json;
use jc_report::put_history::put_history;
use jc_report::put_lines::put_lines;
use jc_report::put_listing::put_listing;
use jc_report::put_text::put_text;
use jc_shown::put_witnesses::put_witnesses;
use std::alloc::Global;

// Puts the JSON of a verdict where it is asked for, made whole, and else its text, made line by line.
fn put_verdict<O: Sink>(
    alloc: Global,
    as_json: bool,
    verdict: &Verdict,
    out: &mut O,
) -> Result<(), SinkError>
    ensures ok { OnOk result (PutsAll (change O.state out.old out.new) (verdict_bytes as_json verdict.now)) }
    ensures err { OnErr result (PutsFront (change O.state out.old out.new) (verdict_bytes as_json verdict.now)) }
    ensures never_falls { (O.state out.old).faults ≤ (O.state out.new).faults }
    ensures cause { IsErrOf result SinkError.Fault → HasPutFault (change O.state out.old out.new) }
{
    if as_json {
        return match put_json(alloc, verdict, out) {
            Ok(()) => Ok(()),
            Err(error) => Err(error),
        };
    }
    match put_text(alloc, verdict, out) {
        Ok(()) => Ok(()),
        Err(error) => Err(error),
    }
}

// Puts a part where it is asked for, as JSON whose one key is this or line by line.
fn put_part<O: Sink, E: Entry>(
    alloc: Global,
    as_json: bool,
    key: &str,
    part: &Option<Vec<E>>,
    out: &mut O,
) -> Result<(), SinkError>
    ensures ok { OnOk result (PutsAll (change O.state out.old out.new) (part_bytes as_json key.now E.printed E.shaped (option_map (λ xs. xs.items) part.now))) }
    ensures err { OnErr result (PutsFront (change O.state out.old out.new) (part_bytes as_json key.now E.printed E.shaped (option_map (λ xs. xs.items) part.now))) }
    ensures never_falls { (O.state out.old).faults ≤ (O.state out.new).faults }
    ensures cause { IsErrOf result SinkError.Fault → HasPutFault (change O.state out.old out.new) }
{
    match part {
        None => Ok(()),
        Some(items) => match put_listing(alloc, as_json, key, items.as_slice(), out) {
            Ok(()) => Ok(()),
            Err(error) => Err(error),
        },
    }
}

// Puts what stands behind the notes on signatures, in its order.
fn put_last<O: Sink>(alloc: Global, body: &CheckBody<'_>, out: &mut O) -> Result<(), SinkError>
    ensures ok { OnOk result (PutsAll (change O.state out.old out.new) (last_bytes body.now.json (report_in body.now))) }
    ensures err { OnErr result (PutsFront (change O.state out.old out.new) (last_bytes body.now.json (report_in body.now))) }
    ensures never_falls { (O.state out.old).faults ≤ (O.state out.new).faults }
    ensures cause { IsErrOf result SinkError.Fault → HasPutFault (change O.state out.old out.new) }
{
    match put_part(alloc, body.json, "dropped", &body.dropped, out) {
        Ok(()) => {}
        Err(error) => return Err(error),
    }
    match put_part(alloc, body.json, "calls", &body.calls, out) {
        Ok(()) => Ok(()),
        Err(error) => Err(error),
    }
}

// Puts what stands behind the warnings, in its order.
fn put_behind<O: Sink>(alloc: Global, body: &CheckBody<'_>, out: &mut O) -> Result<(), SinkError>
    ensures ok { OnOk result (PutsAll (change O.state out.old out.new) (behind_bytes body.now.json (report_in body.now))) }
    ensures err { OnErr result (PutsFront (change O.state out.old out.new) (behind_bytes body.now.json (report_in body.now))) }
    ensures never_falls { (O.state out.old).faults ≤ (O.state out.new).faults }
    ensures cause { IsErrOf result SinkError.Fault → HasPutFault (change O.state out.old out.new) }
{
    match put_part(alloc, body.json, "signatures", &body.signatures, out) {
        Ok(()) => {}
        Err(error) => return Err(error),
    }
    match put_last(alloc, body, out) {
        Ok(()) => Ok(()),
        Err(error) => Err(error),
    }
}

// Puts what is asked for beside the verdict, in its order.
fn put_besides<O: Sink>(alloc: Global, body: &CheckBody<'_>, out: &mut O) -> Result<(), SinkError>
    ensures ok { OnOk result (PutsAll (change O.state out.old out.new) (besides_bytes body.now.json (report_in body.now))) }
    ensures err { OnErr result (PutsFront (change O.state out.old out.new) (besides_bytes body.now.json (report_in body.now))) }
    ensures never_falls { (O.state out.old).faults ≤ (O.state out.new).faults }
    ensures cause { IsErrOf result SinkError.Fault → HasPutFault (change O.state out.old out.new) }
{
    match put_part(alloc, body.json, "warnings", &body.warnings, out) {
        Ok(()) => {}
        Err(error) => return Err(error),
    }
    match put_behind(alloc, body, out) {
        Ok(()) => Ok(()),
        Err(error) => Err(error),
    }
}

// Puts the parts of a check's report, in their order.
fn put_check<O: Sink>(alloc: Global, body: &CheckBody<'_>, out: &mut O) -> Result<(), SinkError>
    ensures ok { OnOk result (PutsAll (change O.state out.old out.new) (check_bytes body.now.json (report_in body.now))) }
    ensures err { OnErr result (PutsFront (change O.state out.old out.new) (check_bytes body.now.json (report_in body.now))) }
    ensures never_falls { (O.state out.old).faults ≤ (O.state out.new).faults }
    ensures cause { IsErrOf result SinkError.Fault → HasPutFault (change O.state out.old out.new) }
{
    match put_verdict(alloc, body.json, &body.verdict, out) {
        Ok(()) => {}
        Err(error) => return Err(error),
    }
    match put_besides(alloc, body, out) {
        Ok(()) => Ok(()),
        Err(error) => Err(error),
    }
}

// Puts the bytes of a report.
fn put_body<O: Sink>(alloc: Global, body: &ReportBody<'_>, out: &mut O) -> Result<(), SinkError>
    ensures ok { OnOk result (PutsAll (change O.state out.old out.new) (bytes_in body.now)) }
    ensures err { OnErr result (PutsFront (change O.state out.old out.new) (bytes_in body.now)) }
    ensures never_falls { (O.state out.old).faults ≤ (O.state out.new).faults }
    ensures cause { IsErrOf result SinkError.Fault → HasPutFault (change O.state out.old out.new) }
{
    match body {
        ReportBody::Bytes(bytes) => match put_lines(bytes.as_slice(), out) {
            Ok(()) => Ok(()),
            Err(error) => Err(error),
        },
        ReportBody::Check(check) => match put_check(alloc, check, out) {
            Ok(()) => Ok(()),
            Err(error) => Err(error),
        },
        ReportBody::Row(verdicts) => match put_history(alloc, verdicts.as_slice(), out) {
            Ok(()) => Ok(()),
            Err(error) => Err(error),
        },
    }
}

// Puts the witness files of a check's verdict, where they are asked for.
fn put_asked<F: Folder>(
    alloc: Global,
    check: &CheckBody<'_>,
    folder: &mut F,
) -> Result<(), FolderError>
    requires { CanShowAll check.now.verdict check.now.shown }
    ensures whole { OnOk result (PutsFiles (change F.state folder.old folder.new) (puts_shown check.now.verdict check.now.shown)) }
    ensures some { OnErr result (PutsSome (change F.state folder.old folder.new) (puts_shown check.now.verdict check.now.shown)) }
    ensures asked_for { OnErr result ((path : List ℕ) × (dir_shown check.now.shown ≡ Some path)) }
    ensures untouched { dir_shown check.now.shown ≡ None → IsUntouched (change F.state folder.old folder.new) }
    ensures cause { IsErrOf result FolderError.Fault → HasFolderFault (change F.state folder.old folder.new) }
{
    match &check.shown {
        None => Ok(()),
        Some(shown) => match put_witnesses(alloc, shown, &check.verdict, folder) {
            Ok(()) => Ok(()),
            Err(error) => Err(error),
        },
    }
}

// Puts the witness files of what is to be shown.
fn put_shown<F: Folder>(
    alloc: Global,
    body: &ReportBody<'_>,
    folder: &mut F,
) -> Result<(), FolderError>
    requires { CanShowAny body.now }
    ensures whole { OnOk result (PutsFiles (change F.state folder.old folder.new) (puts_in body.now)) }
    ensures some { OnErr result (PutsSome (change F.state folder.old folder.new) (puts_in body.now)) }
    ensures asked_for { OnErr result ((path : List ℕ) × (dir_in body.now ≡ Some path)) }
    ensures untouched { dir_in body.now ≡ None → IsUntouched (change F.state folder.old folder.new) }
    ensures cause { IsErrOf result FolderError.Fault → HasFolderFault (change F.state folder.old folder.new) }
{
    match body {
        ReportBody::Bytes(_) => Ok(()),
        ReportBody::Row(_) => Ok(()),
        ReportBody::Check(check) => match put_asked(alloc, check, folder) {
            Ok(()) => Ok(()),
            Err(error) => Err(error),
        },
    }
}

// Puts the bytes of a report and then asks the gates for its status, which it answers.
fn put_output<O: Sink>(
    alloc: Global,
    report: &Report<'_>,
    out: &mut O,
    gates: Vec<Box<dyn Gate>>,
) -> u8
    ensures { IsPutWith (bytes_in report.now.body) (status_by (passes_by (map (λ gate. gate_of (⟦<dyn Gate as Gate>⟧ gate.vtable) gate.value) gates.items) report.now.condition)) (change O.state out.old out.new) result }
{
    match put_body(alloc, &report.body, out) {
        Ok(()) => report.status(gates),
        Err(SinkError::Fault) => WRITE_FAULT,
        Err(SinkError::Memory) => NO_MEMORY,
    }
}

/// Puts a report, first its witness files and then its bytes, line by line, and answers its status by
/// the gates. Where a put fails or there is no memory, the status says so, nothing more is put, and no
/// gate is asked. All gates are dropped.
pub fn put_report<F: Folder, O: Sink>(
    alloc: Global,
    report: &Report<'_>,
    witnesses: &mut F,
    out: &mut O,
    gates: Vec<Box<dyn Gate>>,
) -> u8
    requires { CanShowAny report.now.body }
    ensures put { IsPutAfter (puts_in report.now.body) (change F.state witnesses.old witnesses.new) (bytes_in report.now.body) (status_by (passes_by (map (λ gate. gate_of (⟦<dyn Gate as Gate>⟧ gate.vtable) gate.value) gates.items) report.now.condition)) (change O.state out.old out.new) result
        ⊎ IsCutBefore (dir_in report.now.body) (puts_in report.now.body) (change F.state witnesses.old witnesses.new) (change O.state out.old out.new) result }
    ensures untouched { dir_in report.now.body ≡ None → IsUntouched (change F.state witnesses.old witnesses.new) }
{
    match put_shown(alloc, &report.body, witnesses) {
        Ok(()) => put_output(alloc, report, out, gates),
        Err(FolderError::Fault) => WRITE_FAULT,
        Err(FolderError::Memory) => NO_MEMORY,
    }
}

/// Puts the line that says why there is no report, and answers its status. Want of memory has no
/// line.
pub fn put_stop<E: Sink>(alloc: Global, stop: &Stop, err: &mut E) -> u8
    ensures put { IsPutWith (line_of stop.now) (status_of stop.now) (change E.state err.old err.new) result }
    ensures has_line { result ≡ WRITE_FAULT → stop.now ≢ Stop.Memory }
{
    if let Stop::Memory = stop {
        return NO_MEMORY;
    }
    let Ok(line) = stop.line(alloc) else {
        return NO_MEMORY;
    };
    match err.put(line.as_slice()) {
        Ok(()) => stop.status(),
        Err(SinkError::Fault) => WRITE_FAULT,
        Err(SinkError::Memory) => NO_MEMORY,
    }
}
