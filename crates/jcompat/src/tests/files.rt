//! Files that differ much in size, or change, or fail, read one after the other.
use super::{Host, see_table};
use crate::disk_trees::{DiskTrees, fill};
use jc_base::file_buf::FileBuf;
use jc_base::trees::Trees;
use std::io::{ErrorKind, Read};
use std::test::Fail;
use std::{env, fs, io, process};

/// Trees of real folders.
type Disk = DiskTrees<HostRuntime>;

// A new folder of a test's own.
fn new_folder(rt: &HostRuntime, name: &str) -> Result<String, Fail> {
    let id = process::id(rt.process());
    let place = env::temp_dir(rt)?;
    let folder = format!(in rt.alloc(); "{}/jcompat_{name}_{id}", place.as_str())?;
    if fs::exists(rt, folder.as_str())? {
        fs::remove_dir_all(rt, folder.as_str())?;
    }
    fs::create_dir(rt, folder.as_str())?;
    Ok(folder)
}

// Writes the one file of a folder.
fn put_file(rt: &impl Host, root: &str, bytes: &[u8]) {
    let place = format!(in rt.alloc(); "{root}/A.class").expect(rt, "memory");
    fs::write(rt, place.as_str(), bytes).expect(rt, "written");
}

/// The bytes of a file, and those that are read where nine are wanted, and one more shows that there are more.
const CONTENTS: &[(&str, &str)] = &[
    ("longer than when it was listed", "longer tha"),
    ("shorter", "shorter"),
    ("", ""),
    ("ten bytes!", "ten bytes!"),
];

fn see_contents(rt: &impl Host, trees: &mut Disk, root: &str) {
    let mut buffer = FileBuf::new(rt.alloc()).expect(rt, "memory");
    for (content, wanted) in CONTENTS {
        put_file(rt, root, content.as_bytes());
        let read = trees.read_into(rt.alloc(), root, "A.class", 9, &mut buffer);
        let is_read = read.is_ok() && buffer.as_bytes() == wanted.as_bytes();
        assert!(rt; is_read, "{wanted}");
    }
}

fn see_listed(rt: &impl Host, trees: &mut Disk, root: &str) {
    let paths = trees.list(rt.alloc(), root).expect(rt, "listed");
    assert_eq!(rt; paths.len(), 1);
}

#[test]
fn a_real_file_is_read_as_it_stands(rt: HostRuntime) -> Result<(), Fail> {
    let root = new_folder(&rt, "changes")?;
    put_file(&rt, root.as_str(), b"as it was listed");
    let mut trees = DiskTrees::new(rt.clone().expect(&rt, "memory"));
    see_listed(&rt, &mut trees, root.as_str());
    see_contents(&rt, &mut trees, root.as_str());
    fs::remove_dir_all(&rt, root.as_str())?;
    Ok(())
}

/// A source that gives so many bytes, at most two a read, and then fails.
#[derive(Drop)]
struct Failing {
    left: usize,
}

impl Read for Failing {
    fn read(&mut self, buf: &mut [u8]) -> io::Result<usize> {
        if self.left == 0 {
            return Err(io::Error::from(ErrorKind::UnexpectedEof));
        }
        let count = buf.len().min(self.left).min(2);
        self.left -= count;
        Ok(count)
    }
}

#[test]
fn a_fault_in_the_middle_of_a_file_leaves_nothing(rt: HostRuntime) {
    let mut buffer = FileBuf::new(rt.alloc()).expect(&rt, "memory");
    buffer.append(b"of another file");
    assert!(rt; fill(&mut Failing { left: 3 }, 9, &mut buffer).is_err());
    assert!(rt; buffer.as_bytes().is_empty());
    assert!(rt; fill(&mut Failing { left: 3 }, 3, &mut buffer).is_ok());
    assert_eq!(rt; buffer.as_bytes().len(), 3);
}

#[test]
fn files_far_apart_in_size_are_read_one_after_the_other(rt: HostRuntime) {
    let alloc = rt.alloc();
    let name = "m".repeat(alloc, 60_000).expect(&rt, "memory");
    let table = format!(in alloc;
        "#0 a long file between short ones
$ check --platform P --old O --new N
: P java/lang/Object init | O p/A init | O p/C init | N p/A init | N p/C init
: O p/B init method=1:{name}:()V | N p/B init method=1:{name}:()V
> compatible: 0 findings, 0 collisions, 0 notes
"
    );
    see_table(&rt, table.expect(&rt, "memory").as_str());
}
