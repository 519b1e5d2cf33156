//! Where files are read from.
ghost use Rattle.std.specs.Prelude.{◌≡◌, ◌≤◌, ◌<◌, ◌+◌, ◌^◌, ℕ, List, [], length, IfOk, OnOk, OnErr, IsErrOf, IsTrue};
ghost use Rattle.jc_base.specs.Causes.{Rose};
ghost use Rattle.jc_base.specs.Outside.{Lists, Holds, ReadsFront, are_distinct};
ghost use Rattle.jc_base.specs.States.{TreesState};

use crate::file_buf::FileBuf;
use crate::text::Text;
use std::alloc::Global;
use thiserror::Error;

/// The greatest limit of a read, in bytes.
pub const MAX_BYTES: u32 = 4_194_304;

/// Why files could not be listed or read.
#[derive(Clone, Copy, Debug, PartialEq, Eq, Error)]
pub enum TreeError {
    /// The tree could not be read, and the root's count of faults rose in the call.
    #[error("the tree could not be read")]
    Fault,
    /// There was no memory.
    #[error("out of memory")]
    Memory,
}

/// Trees of files, each under the name of its root. A path has `/` between its parts.
pub trait Trees {
    /// The files of all roots, where they are told, and how many calls on each root have failed.
    ghost state: { Self → TreesState };

    /// The paths of a root's files, in any order, each once.
    fn list(&mut self, alloc: Global, root: &str) -> Result<Vec<Text>, TreeError>
        ensures listed { IfOk result (λ paths. Lists (state self.old).content root.now paths.items) }
        ensures once { IfOk result (λ paths. IsTrue (are_distinct paths.items)) }
        ensures content { (state self.new).content ≡ (state self.old).content }
        ensures never_falls { (r : List ℕ) → (state self.old).faults r ≤ (state self.new).faults r }
        ensures bounded { (r : List ℕ) → (state self.new).faults r < 2 ^ 64 }
        ensures cause { IsErrOf result TreeError.Fault → Rose ((state self.old).faults root.now) ((state self.new).faults root.now) };

    /// Fills the buffer with the first `limit + 1` bytes of a file, or with the whole file where it is
    /// no longer. The limit is at most [`MAX_BYTES`]. What the buffer held is lost; it is empty where the
    /// file isn't read.
    fn read_into(
        &mut self,
        alloc: Global,
        root: &str,
        path: &str,
        limit: u32,
        into: &mut FileBuf,
    ) -> Result<(), TreeError>
        requires held { Holds (state self.old).content root.now path.now }
        requires limit { limit ≤ MAX_BYTES }
        ensures bytes { OnOk result (ReadsFront (state self.old).content root.now path.now (limit + 1) into.new) }
        ensures short { OnOk result (length into.new ≤ limit + 1) }
        ensures empty { OnErr result (into.new ≡ []) }
        ensures content { (state self.new).content ≡ (state self.old).content }
        ensures never_falls { (r : List ℕ) → (state self.old).faults r ≤ (state self.new).faults r }
        ensures bounded { (r : List ℕ) → (state self.new).faults r < 2 ^ 64 }
        ensures cause { IsErrOf result TreeError.Fault → Rose ((state self.old).faults root.now) ((state self.new).faults root.now) };
}
