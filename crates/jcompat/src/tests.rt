//! Runs over trees in memory, against what they are to say. Those over real folders and streams are in `examples/statuses.sh`.
mod assembler;
mod calls;
mod clients;
mod dropped;
mod files;
mod gates;
mod generated;
mod history;
mod hostile;
mod limits;
mod links;
mod many;
mod modules;
mod outside;
mod parts;
mod refusals;
mod rows;
mod signatures;
mod verdicts;
mod versions;
mod warnings;
mod witnesses;
mod words;

use crate::laws::run_surely;
use crate::run_with_gates;
use crate::tests::assembler::{cut, number};
use crate::tests::rows::{Row, in_lines, words_of};
use crate::tests::witnesses::{CAPTURED, holds, see_witnesses};
use jc_base::mem_file::{MemFile, is_file_list};
use jc_base::mem_folder::MemFolder;
use jc_base::mem_sink::MemSink;
use jc_base::mem_trees::MemTrees;
use jc_base::sure_folder::SureFolder;
use jc_base::sure_sink::SureSink;
use jc_base::sure_trees::SureTrees;
use jc_base::text::Text;
use jc_gate::at_most::AtMost;
use jc_gate::collisions::Collisions;
use jc_gate::gate::Gate;
use jc_gate::links::Links;
use jc_version::version_gate::VersionGate;
use std::process::Abort;
use std::rt::Files;

/// What the helpers take of a test: that it can end, and has files and memory.
trait Host: Abort + Files + AllocGlobal {}

impl<R: Abort + Files + AllocGlobal> Host for R {}

// The number of the call on this object that fails, 0 for none.
fn failing(rt: &impl Host, calls: &str, object: &str) -> Vec<u64> {
    Vec::from_slice(rt.alloc(), &[number(calls, object)]).expect(rt, "memory")
}

fn trees(rt: &impl Host, files: Vec<MemFile>, calls: &str) -> MemTrees {
    assert!(rt; is_file_list(files.as_slice()));
    MemTrees::new(rt.alloc(), files, failing(rt, calls, "trees"))
}

fn sink(rt: &impl Host, calls: &str, name: &str) -> MemSink {
    MemSink::new(rt.alloc(), failing(rt, calls, name))
}

fn folder(rt: &impl Host, calls: &str) -> MemFolder {
    MemFolder::new(rt.alloc(), failing(rt, calls, "folder"))
}

/// A run that ended.
#[derive(Drop)]
struct Ended {
    status: u8,
    out: MemSink,
    err: MemSink,
    folder: MemFolder,
}

// A run of the words of this line over these files, where calls fail.
fn run_on(rt: &impl Host, line: &str, files: Vec<MemFile>, calls: &str) -> Ended {
    let words = words_of(rt.alloc(), line).expect(rt, "memory");
    let mut trees = trees(rt, files, calls);
    let mut folder = folder(rt, calls);
    let mut out = sink(rt, calls, "out");
    let mut err = sink(rt, calls, "err");
    let run = run_with_gates(
        rt.alloc(),
        words.as_slice(),
        &mut trees,
        &mut out,
        &mut err,
        &mut folder,
    );
    let status = run.expect(rt, "memory");
    Ended {
        status,
        out,
        err,
        folder,
    }
}

// The files of the row.
fn files_of(rt: &impl Host, row: &Row<'_>) -> Vec<MemFile> {
    row.files(rt.alloc()).expect(rt, "memory")
}

// Sees that the run said what the row says.
fn see_ended(rt: &impl Host, row: &Row<'_>, ended: &Ended) {
    let said = (ended.status, ended.out.bytes(), ended.err.bytes());
    let is_said = row.is_said(rt.alloc(), said).expect(rt, "memory");
    assert!(rt; is_said, "{}", row.shown());
}

// The gates of the program.
fn gates_of_program(rt: &impl Host) -> Vec<Box<dyn Gate>> {
    let alloc = rt.alloc();
    let mut gates: Vec<Box<dyn Gate>> = Vec::new(alloc);
    gates
        .push(Box::new(alloc, Links::new()).expect(rt, "memory"))
        .expect(rt, "memory");
    gates
        .push(Box::new(alloc, Collisions::new()).expect(rt, "memory"))
        .expect(rt, "memory");
    gates
        .push(Box::new(alloc, AtMost::new(10)).expect(rt, "memory"))
        .expect(rt, "memory");
    gates
        .push(Box::new(alloc, VersionGate::new()).expect(rt, "memory"))
        .expect(rt, "memory");
    gates
}

// Sees that a run in which no call can fail says what the row says.
fn see_sure(rt: &impl Host, row: &Row<'_>) {
    let alloc = rt.alloc();
    let files = row.files(alloc).expect(rt, "memory");
    assert!(rt; is_file_list(files.as_slice()));
    let mut trees = SureTrees::new(files);
    let words = words_of(alloc, row.line()).expect(rt, "memory");
    let words = words.as_slice();
    let mut out = SureSink::new(alloc);
    let mut err = SureSink::new(alloc);
    let mut folder = SureFolder::new(alloc);
    let gates = gates_of_program(rt);
    let status = run_surely(
        alloc,
        words,
        &mut trees,
        &mut out,
        &mut err,
        &mut folder,
        gates,
    );
    let is_said = row.is_said(alloc, (status, out.bytes(), err.bytes()));
    assert!(rt; is_said.expect(rt, "memory"), "{}", row.shown());
}

// Whether the folder holds as many files of the witness of a captured call as it should, and counts a
// put that failed.
fn is_left(ended: &Ended, calls: &str) -> bool {
    let has_fault = ended.status == 5 && number(calls, "folder") != 0;
    ended.folder.faults() == u64::from(has_fault)
        && holds(&ended.folder, CAPTURED, number(calls, "held"))
}

fn is_failing(calls: &str) -> bool {
    number(calls, "trees") != 0
        || number(calls, "folder") != 0
        || number(calls, "out") != 0
        || number(calls, "err") != 0
}

// Sees that a run over trees and streams that may fail says what the row says.
fn see_run(rt: &impl Host, row: &Row<'_>) {
    let calls = row.shown();
    let ended = run_on(rt, row.line(), files_of(rt, row), calls);
    see_ended(rt, row, &ended);
    assert!(rt; is_left(&ended, calls), "{calls}");
}

// Sees that each row of the table is right, and its witnesses are, also where no call can fail.
fn see_table(rt: &impl Host, table: &str) {
    let lines = in_lines(rt.alloc(), table).expect(rt, "memory");
    let (common, rows) = cut(lines.as_str(), "#");
    for own in rows.split('#') {
        let row = Row { common, own };
        see_run(rt, &row);
        if !is_failing(row.shown()) {
            see_sure(rt, &row);
        }
        see_witnesses(rt, &row);
    }
}
