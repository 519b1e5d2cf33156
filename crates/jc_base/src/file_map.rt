//! Files by their paths, for the folders in memory.
ghost use Rattle.std.specs.Prelude.{◌≡◌, Some, None, List, ℕ, OnOk, OnErr, option_copied};
ghost use Rattle.jc_base.specs.Outside.{KeepsAllBut, KeepsAll};

use crate::items::Items;
use std::alloc::{AllocError, Global};
use std::collections::BTreeMap;

/// The bytes at each path.
#[derive(Drop)]
pub(crate) struct FileMap {
    alloc: Global,
    files: BTreeMap<String, Items<u8>>,
}

impl FileMap {
    ghost use Rattle.jc_base.specs.FileMap.{bytes_at};

    pub(crate) fn new(alloc: Global) -> FileMap
        ensures { (path : List ℕ) → bytes_at result path ≡ None }
    {
        FileMap {
            alloc,
            files: BTreeMap::new(alloc),
        }
    }

    pub(crate) fn get(&self, path: &str) -> Option<&[u8]>
        ensures { option_copied result ≡ bytes_at self.now path.now }
    {
        match self.files.get(path) {
            Some(bytes) => Some(bytes.as_slice()),
            None => None,
        }
    }

    // Puts the bytes at the path. Where memory runs out nothing is changed.
    pub(crate) fn put(&mut self, path: &str, bytes: &[u8]) -> Result<(), AllocError>
        ensures holds { OnOk result (bytes_at self.new path.now ≡ Some bytes.now) }
        ensures others { KeepsAllBut path.now (bytes_at self.old) (bytes_at self.new) }
        ensures err { OnErr result (KeepsAll (bytes_at self.old) (bytes_at self.new)) }
    {
        let key = String::from_str(self.alloc, path)?;
        let value = Items::from_vec(Vec::from_slice(self.alloc, bytes)?);
        self.files.insert(key, value)?;
        Ok(())
    }
}
