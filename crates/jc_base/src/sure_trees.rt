//! Trees in memory that don't fail.
ghost use Rattle.std.specs.Prelude.{◌≡◌, Some, IsTrue};
ghost use Rattle.jc_base.specs.Outside.{are_files};
ghost use Rattle.jc_base.specs.States.{TreesState};
ghost use Rattle.jc_base.specs.MemFile.{files_of};

use crate::file_buf::FileBuf;
use crate::mem_file::{MemFile, front, paths};
use crate::text::Text;
use crate::trees::{TreeError, Trees};
use std::alloc::Global;

/// Trees in memory. No call fails but for lack of memory, and each root's count of faults stays 0.
#[derive(Drop)]
pub struct SureTrees {
    files: Vec<MemFile>,
    ghost distinct: { IsTrue (are_files (files_of files.items)) },
}

impl SureTrees {
    /// Trees of these files.
    pub fn new(files: Vec<MemFile>) -> SureTrees
        requires { IsTrue (are_files (files_of files.items)) }
        ensures { ⟦<SureTrees as Trees>⟧.state result ≡ record { content = Some (files_of files.items); faults = λ _. 0 } }
    {
        SureTrees { files }
    }
}

impl Trees for SureTrees {
    ghost state = { λ t. record { content = Some (files_of t.files.items); faults = λ _. 0 } };

    #[tactic(auto, using(crate::proofs::Paths::distinct_paths))]
    fn list(&mut self, alloc: Global, root: &str) -> Result<Vec<Text>, TreeError> {
        match paths(alloc, self.files.as_slice(), root) {
            Ok(found) => Ok(found),
            Err(_) => Err(TreeError::Memory),
        }
    }

    fn read_into(
        &mut self,
        _alloc: Global,
        root: &str,
        path: &str,
        limit: u32,
        into: &mut FileBuf,
    ) -> Result<(), TreeError> {
        let found = front(self.files.as_slice(), root, path, limit as usize + 1);
        into.clear();
        into.append(found.unwrap());
        Ok(())
    }
}
