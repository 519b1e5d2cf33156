//! Trees in memory.
ghost use Rattle.std.specs.Prelude.{◌≤◌, IsTrue};
ghost use Rattle.jc_base.specs.Outside.{are_files};
ghost use Rattle.jc_base.specs.MemFile.{files_of};

use jc_base::file_buf::FileBuf;
use jc_base::mem_file::{MemFile, is_file_list};
use jc_base::mem_trees::MemTrees;
use jc_base::sure_trees::SureTrees;
use jc_base::text::Text;
use jc_base::trees::{MAX_BYTES, TreeError, Trees};
use std::alloc::Global;
use std::process::Abort;

fn file(rt: &impl Abort, alloc: Global, root: &str, bytes: &[u8]) -> MemFile {
    MemFile {
        root: Text::from_str(alloc, root).expect(rt, "memory"),
        path: Text::from_str(alloc, "p/A").expect(rt, "memory"),
        bytes: Vec::from_slice(alloc, bytes).expect(rt, "memory"),
    }
}

// Trees of one file in `old` and one in `new`, of whose calls these fail.
fn trees(rt: &impl Abort, alloc: Global, failing: &[u64]) -> MemTrees {
    let mut files = Vec::new(alloc);
    files
        .push(file(rt, alloc, "old", b"abc"))
        .expect(rt, "memory");
    files
        .push(file(rt, alloc, "new", b"d"))
        .expect(rt, "memory");
    assert!(rt; is_file_list(files.as_slice()));
    let failing = Vec::from_slice(alloc, failing).expect(rt, "memory");
    MemTrees::new(alloc, files, failing)
}

// How many files the root has, or none where the listing fails.
fn count(alloc: Global, trees: &mut MemTrees, root: &str) -> Option<usize> {
    match trees.list(alloc, root) {
        Ok(paths) => Some(paths.len()),
        Err(_) => None,
    }
}

#[test]
fn the_listed_calls_on_trees_fail(rt: HostRuntime) {
    let mut trees = trees(&rt, rt.alloc(), &[1, 3]);
    assert!(rt; trees.list(rt.alloc(), "old").err() == Some(TreeError::Fault));
    assert_eq!(rt; trees.faults("old"), 1);
    assert!(rt; count(rt.alloc(), &mut trees, "old") == Some(1));
    assert!(rt; trees.list(rt.alloc(), "new").err() == Some(TreeError::Fault));
    assert_eq!(rt; trees.faults("old"), 1);
    assert_eq!(rt; trees.faults("new"), 1);
    assert!(rt; count(rt.alloc(), &mut trees, "gone") == Some(0));
}

// Reads the only file of the root into the buffer.
fn read_one(
    alloc: Global,
    files: Vec<MemFile>,
    limit: u32,
    buffer: &mut FileBuf,
) -> Result<(), TreeError>
    requires distinct { IsTrue (are_files (files_of files.items)) }
    requires limit { limit ≤ MAX_BYTES }
{
    let mut trees = SureTrees::new(files);
    match trees.list(alloc, "old")?.first() {
        Some(path) => trees.read_into(alloc, "old", path.as_str(), limit, buffer),
        None => Err(TreeError::Fault),
    }
}

// Whether so many of these bytes are read, from their start on.
fn reads(
    rt: &impl Abort,
    alloc: Global,
    bytes: &[u8],
    limit: u32,
    count: usize,
    buffer: &mut FileBuf,
) -> bool
    requires limit { limit ≤ MAX_BYTES }
{
    let mut files = Vec::new(alloc);
    files
        .push(file(rt, alloc, "old", bytes))
        .expect(rt, "memory");
    assert!(rt; is_file_list(files.as_slice()));
    read_one(alloc, files, limit, buffer).expect(rt, "read");
    buffer.as_bytes().len() == count && bytes.starts_with(buffer.as_bytes())
}

#[test]
fn trees_give_the_fronts_of_files_one_after_the_other(rt: HostRuntime) {
    let alloc = rt.alloc();
    let mut buffer = FileBuf::new(alloc).expect(&rt, "memory");
    let long = [7u8; 3_000];
    assert!(rt; reads(&rt, alloc, &long, 2_999, 3_000, &mut buffer));
    assert!(rt; reads(&rt, alloc, b"abc", 1, 2, &mut buffer));
    assert!(rt; reads(&rt, alloc, b"abc", MAX_BYTES, 3, &mut buffer));
    assert!(rt; reads(&rt, alloc, &long, 2_998, 2_999, &mut buffer));
    assert!(rt; reads(&rt, alloc, b"", MAX_BYTES, 0, &mut buffer));
}

// Whether reading the only file of the root is a fault.
fn is_fault(rt: &impl Abort, alloc: Global, trees: &mut MemTrees, buffer: &mut FileBuf) -> bool {
    match trees.list(alloc, "old").expect(rt, "listed").first() {
        Some(path) => {
            let read = trees.read_into(alloc, "old", path.as_str(), 9, buffer);
            matches!(read, Err(TreeError::Fault))
        }
        None => panic!(rt; "no file"),
    }
}

#[test]
fn a_failed_read_leaves_an_empty_buffer(rt: HostRuntime) {
    let mut buffer = FileBuf::new(rt.alloc()).expect(&rt, "memory");
    buffer.append(b"of another file");
    let mut trees = trees(&rt, rt.alloc(), &[2]);
    assert!(rt; is_fault(&rt, rt.alloc(), &mut trees, &mut buffer));
    assert!(rt; buffer.as_bytes().is_empty());
    assert_eq!(rt; trees.faults("old"), 1);
    assert!(rt; !is_fault(&rt, rt.alloc(), &mut trees, &mut buffer));
    assert!(rt; buffer.as_bytes() == b"abc".as_slice());
}
