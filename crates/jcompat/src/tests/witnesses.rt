//! Checks that ask for witnesses: what stands in the folder then, and what comes of linking it.
use super::assembler::{cut, file};
use super::rows::Row;
use super::{Ended, Host, files_of, run_on, see_ended};
use jc_base::mem_file::MemFile;
use jc_base::mem_folder::MemFolder;
use std::str;

/// The files of the witness of a captured call.
pub(super) const CAPTURED: &str = "d/000001/w0/J.class d/000001/w0/U.class d/000001/w0/Y.class";

// Whether the output has this line.
fn has_line(output: &[u8], line: &str) -> bool {
    match str::from_utf8(output) {
        Ok(text) => text.lines().any(|said| said == line),
        Err(_) => false,
    }
}

/// Whether of these files the folder holds so many, the first ones, and none of the others.
pub(super) fn holds(folder: &MemFolder, files: &str, count: u64) -> bool {
    files.split_whitespace().enumerate().all(|(i, path)| folder.get(path).is_some()
        == ((i as u64) < count))
}

// The file of a witness, as a client's.
fn client_file(rt: &impl Host, folder: &MemFolder, path: &str) -> MemFile {
    let (_, rest) = cut(path, "/");
    let (_, place) = cut(rest, "/");
    let bytes = Vec::from_slice(rt.alloc(), folder.get(path).unwrap_or(&[])).expect(rt, "memory");
    file(rt.alloc(), "C", place, bytes).expect(rt, "memory")
}

// The flag of a link of the witnesses of a check, which stands there where the check has it.
fn flag_of(line: &str) -> &'static str {
    if line.split_whitespace().any(|word| word == "--modular") {
        "--modular"
    } else {
        ""
    }
}

/// The link of the files of a witness with a release, over the files of the row.
pub(super) fn linked(
    rt: &impl Host,
    row: &Row<'_>,
    release: &str,
    folder: &MemFolder,
    paths: &str,
) -> Ended {
    let mut files = files_of(rt, row);
    for path in paths.split_whitespace() {
        files
            .push(client_file(rt, folder, path))
            .expect(rt, "memory");
    }
    let flag = flag_of(row.line());
    let line = format!(in rt.alloc(); "link --platform P --release {release} --client C {flag}");
    run_on(rt, line.expect(rt, "memory").as_str(), files, "")
}

// Whether the link has this outcome on this line, and answers 0 where that is `ok`, else 1.
fn tells(rt: &impl Host, link: &Ended, line: &str, outcome: &str) -> bool {
    let line = format!(in rt.alloc(); "{line} {outcome}").expect(rt, "memory");
    link.status == u8::from(outcome != "ok") && has_line(link.out.bytes(), line.as_str())
}

// Sees that the files of a witness `FILES | LINE | ERROR` are there, that all its outcomes are Ok with the
// old release, and that with the new one the line has the error.
fn see_witness(rt: &impl Host, row: &Row<'_>, folder: &MemFolder, text: &str) {
    let (files, outcome) = cut(text, " | ");
    let (line, error) = cut(outcome, " | ");
    assert!(rt; holds(folder, files, u64::MAX), "{text}");
    let old = linked(rt, row, "O", folder, files);
    assert!(rt; tells(rt, &old, line, "ok"), "{text}");
    let new = linked(rt, row, "N", folder, files);
    assert!(rt; tells(rt, &new, line, error), "{text}");
}

// How many files the witnesses have.
fn count_files(witnesses: &[&str]) -> usize {
    let mut count = 0usize;
    for witness in witnesses {
        let (files, _) = cut(witness, " | ");
        count = count.saturating_add(files.split_whitespace().count());
    }
    count
}

/// The check of the row with its witnesses, of which the call on the folder after so many puts would fail.
pub(super) fn checked(rt: &impl Host, row: &Row<'_>, puts: usize) -> Ended {
    let next = puts.saturating_add(1);
    let calls = format!(in rt.alloc(); "folder={next}").expect(rt, "memory");
    let line = format!(in rt.alloc(); "{} --witness d", row.line()).expect(rt, "memory");
    let check = run_on(rt, line.as_str(), files_of(rt, row), calls.as_str());
    see_ended(rt, row, &check);
    assert!(rt; check.folder.faults() == 0, "{}", row.shown());
    check
}

/// Sees that a check puts the row's witnesses, where it has any, and that they tell the releases apart.
pub(super) fn see_witnesses(rt: &impl Host, row: &Row<'_>) {
    let witnesses = row.texts(rt.alloc(), "*").expect(rt, "memory");
    if witnesses.is_empty() {
        return;
    }
    let check = checked(rt, row, count_files(witnesses.as_slice()));
    for witness in witnesses.as_slice() {
        see_witness(rt, row, &check.folder, witness);
    }
}

const FILES: &str = ": P java/lang/Object init | O p/A init | N p/A init method=2:run:()V";

const CHECK: &str = "0 check --platform P --old O --new N
> 1 Capture p/A run()V invokevirtual - IllegalAccessError
> compatible: 0 findings, 1 collisions, 0 notes";

const WITH_OLD: &str = "0 all is well with the old release
> class w0/J ok | class w0/U ok | item w0/U init java/lang/Object <init>()V - ok
> item w0/U invokevirtual w0/Y run()V w0/Y ok
> class w0/Y ok | item w0/Y init p/A <init>()V - ok | links: 6 outcomes, 0 errors";

const WITH_NEW: &str = "1 the call fails with the new one
> class w0/J ok | class w0/U ok | item w0/U init java/lang/Object <init>()V - ok
> item w0/U invokevirtual w0/Y run()V w0/Y IllegalAccessError
> class w0/Y ok | item w0/Y init p/A <init>()V - ok | refused: 6 outcomes, 1 errors";

// The row with the files of a captured call.
fn captured(own: &'static str) -> Row<'static> {
    Row { common: FILES, own }
}

#[test]
fn a_captured_call_with_both_releases(rt: HostRuntime) {
    let check = checked(&rt, &captured(CHECK), 3);
    for (release, own) in [("O", WITH_OLD), ("N", WITH_NEW)] {
        let row = captured(own);
        let link = linked(&rt, &row, release, &check.folder, CAPTURED);
        see_ended(&rt, &row, &link);
    }
}
