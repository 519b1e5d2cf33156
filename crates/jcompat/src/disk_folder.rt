//! Real files as a folder.
ghost use Rattle.std.specs.Prelude.{◌≡◌, ◌≤◌, ◌<◌, ◌^◌, None};
ghost use Rattle.jc_base.specs.Causes.{Rose};
ghost use Rattle.jc_base.specs.States.{FolderState};

use jc_base::folder::{Folder, FolderError};
use std::fs::{OpenOptions, create_dir_all, remove_file};
use std::io;
use std::io::{ErrorKind, Write};
use std::path::Path;
use std::rt::Files;

/// Real files. What they hold isn't told.
///
/// Folders that are missing on the way to a path are made, and what stands at the path is removed, so
/// that what it leads to, as a link, stays as it was. A call fails where the system fails, and where a
/// folder stands at the path. The count of failed calls stops at `u64::MAX`.
#[derive(Drop)]
pub struct DiskFolder<R: Files + Drop> {
    rt: R,
    faults: u64,
}

// Removes the file at the path, if there is one.
fn make_room(files: &impl Files, path: &str) -> io::Result<()> {
    match remove_file(files, path) {
        Err(error) if error.kind() != ErrorKind::NotFound => Err(error),
        _ => Ok(()),
    }
}

// Writes a new file in place of the one at the path.
fn write_new(files: &impl Files, path: &str, bytes: &[u8]) -> io::Result<()> {
    if let Some(folder) = Path::new(path).parent() {
        create_dir_all(files, folder)?;
    }
    make_room(files, path)?;
    let mut options = OpenOptions::new();
    let mut file = options.write(true).create_new(true).open(files, path)?;
    file.write_all(bytes)
}

impl<R: Files + Drop> DiskFolder<R> {
    /// No call has failed yet.
    pub fn new(rt: R) -> DiskFolder<R>
        ensures { (⟦<DiskFolder<R> as Folder>⟧.state result).faults ≡ 0 }
    {
        DiskFolder { rt, faults: 0 }
    }
}

impl<R: Files + Drop> Folder for DiskFolder<R> {
    ghost state = { λ f. record { content = None; faults = f.faults } };

    fn put(&mut self, path: &str, bytes: &[u8]) -> Result<(), FolderError> {
        let faults = self.faults;
        let Err(error) = write_new(&self.rt, path, bytes) else {
            return Ok(());
        };
        if error.kind() == ErrorKind::OutOfMemory {
            return Err(FolderError::Memory);
        }
        self.faults = faults.saturating_add(1);
        Err(FolderError::Fault)
    }
}
