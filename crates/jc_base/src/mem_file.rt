//! Files in memory, for the trees in memory.
ghost use Rattle.std.specs.Prelude.{◌≡◌, ◌+◌, IfOk, MatchOption, Some, None, take};
ghost use Rattle.jc_base.specs.Outside.{are_files, has_file, file_at};
ghost use Rattle.jc_base.specs.MemFile.{files_of};
ghost use Rattle.jc_base.specs.MemPaths.{paths_of};

use crate::text::Text;
use std::alloc::{AllocError, Global};

/// A file of a tree: its root, its path below the root, and its bytes.
#[derive(Debug, Drop)]
pub struct MemFile {
    pub root: Text,
    pub path: Text,
    pub bytes: Vec<u8>,
}

/// Whether no two files have one root and one path, as trees in memory ask of their files. It
/// compares each file with each later one.
pub fn is_file_list(files: &[MemFile]) -> bool
    ensures { result ≡ are_files (files_of files.now) }
{
    let mut rest = files;
    while let Some((first, others)) = rest.split_first() {
        if is_among(others, first.root.as_str(), first.path.as_str()) {
            return false;
        }
        rest = others;
    }
    true
}

// Whether a file has this root and this path.
fn is_among(files: &[MemFile], root: &str, path: &str) -> bool
    ensures { result ≡ has_file root.now path.now (files_of files.now) }
{
    for file in files {
        if file.root.as_str() == root && file.path.as_str() == path {
            return true;
        }
    }
    false
}

// The paths of a root's files.
pub(crate) fn paths(alloc: Global, files: &[MemFile], root: &str) -> Result<Vec<Text>, AllocError>
    ensures { IfOk result (λ paths. paths.items ≡ paths_of root.now (files_of files.now)) }
{
    let mut found = Vec::new(alloc);
    for file in files {
        if file.root.as_str() == root {
            found.push(Text::from_str(alloc, file.path.as_str())?)?;
        }
    }
    Ok(found)
}

// The bytes of a file.
fn find<'a>(files: &'a [MemFile], root: &str, path: &str) -> Option<&'a [u8]>
    ensures { MatchOption result (file_at root.now path.now (files_of files.now) ≡ None)
        (λ bytes. file_at root.now path.now (files_of files.now) ≡ Some bytes.now) }
{
    for file in files {
        if file.root.as_str() == root && file.path.as_str() == path {
            return Some(file.bytes.as_slice());
        }
    }
    None
}

// A file's first bytes, at most as many as given.
pub(crate) fn front<'a>(
    files: &'a [MemFile],
    root: &str,
    path: &str,
    most: usize,
) -> Option<&'a [u8]>
    ensures { MatchOption result (file_at root.now path.now (files_of files.now) ≡ None)
        (λ read. (bytes : _) × (file_at root.now path.now (files_of files.now) ≡ Some bytes) × (read.now ≡ take most bytes)) }
{
    let bytes = find(files, root, path)?;
    Some(&bytes[..bytes.len().min(most)])
}
