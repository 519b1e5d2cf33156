//! What files are written to.
ghost use Rattle.std.specs.Prelude.{◌≤◌, ◌<◌, ◌^◌, IsErrOf, OnOk};
ghost use Rattle.jc_base.specs.Causes.{Rose};
ghost use Rattle.jc_base.specs.Outside.{HoldsAt, KeepsOtherPaths};
ghost use Rattle.jc_base.specs.States.{FolderState};

use thiserror::Error;

/// Why a file could not be put.
#[derive(Clone, Copy, Debug, PartialEq, Eq, Error)]
pub enum FolderError {
    /// The folder failed, and its count of faults rose in the call.
    #[error("the folder failed")]
    Fault,
    /// There was no memory.
    #[error("out of memory")]
    Memory,
}

/// What takes files, as a folder on disk does.
pub trait Folder {
    /// The bytes at each path, where they are told, and how many calls have failed.
    ghost state: { Self → FolderState };

    /// Puts a file with these bytes at the path, in place of the one that is there. After an error
    /// anything may stand at the path. Other paths stay as they were.
    fn put(&mut self, path: &str, bytes: &[u8]) -> Result<(), FolderError>
        ensures holds { OnOk result (HoldsAt (state self.new).content path.now bytes.now) }
        ensures others { KeepsOtherPaths path.now (state self.old).content (state self.new).content }
        ensures never_falls { (state self.old).faults ≤ (state self.new).faults }
        ensures bounded { (state self.new).faults < 2 ^ 64 }
        ensures cause { IsErrOf result FolderError.Fault → Rose (state self.old).faults (state self.new).faults };
}
