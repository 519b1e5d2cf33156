//! A folder in memory that doesn't fail.
ghost use Rattle.std.specs.Prelude.{◌≡◌, List, ℕ, None, OnErr, option_copied};

use crate::file_map::FileMap;
use crate::folder::{Folder, FolderError};
use std::alloc::Global;

/// A folder in memory. No call fails but for lack of memory, and its count of faults stays 0.
#[derive(Drop)]
pub struct SureFolder {
    files: FileMap,
}

impl SureFolder {
    ghost use Rattle.jc_base.specs.SureFolder.{held_by};

    /// An empty folder.
    pub fn new(alloc: Global) -> SureFolder
        ensures { (path : List ℕ) → held_by result path ≡ None }
    {
        SureFolder {
            files: FileMap::new(alloc),
        }
    }

    /// The bytes at the path, or `None` where nothing was put there.
    pub fn get(&self, path: &str) -> Option<&[u8]>
        ensures { option_copied result ≡ held_by self.now path.now }
    {
        self.files.get(path)
    }
}

impl Folder for SureFolder {
    ghost use Rattle.jc_base.specs.SureFolder.{state_of};

    ghost state = { state_of };

    fn put(&mut self, path: &str, bytes: &[u8]) -> Result<(), FolderError> {
        match self.files.put(path, bytes) {
            Ok(()) => Ok(()),
            Err(_) => Err(FolderError::Memory),
        }
    }
}
