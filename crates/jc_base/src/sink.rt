//! What bytes are written to.
ghost use Rattle.std.specs.Prelude.{◌≤◌, ◌<◌, ◌^◌, IsErrOf, OnOk, OnErr};
ghost use Rattle.jc_base.specs.Causes.{Rose};
ghost use Rattle.jc_base.specs.Outside.{TakesAll, TakesFront};
ghost use Rattle.jc_base.specs.States.{SinkState};

use thiserror::Error;

/// Why bytes could not be put.
#[derive(Clone, Copy, Debug, PartialEq, Eq, Error)]
pub enum SinkError {
    /// The sink failed, and its count of faults rose in the call.
    #[error("the sink failed")]
    Fault,
    /// There was no memory.
    #[error("out of memory")]
    Memory,
}

/// What takes bytes, as standard output does.
pub trait Sink {
    /// The bytes taken, where they are told, and how many calls have failed.
    ghost state: { Self → SinkState };

    /// Puts the bytes at the end of those taken. After an error a prefix of them may have been taken.
    fn put(&mut self, bytes: &[u8]) -> Result<(), SinkError>
        ensures ok { OnOk result (TakesAll (state self.old).taken (state self.new).taken bytes.now) }
        ensures err { OnErr result (TakesFront (state self.old).taken (state self.new).taken bytes.now) }
        ensures never_falls { (state self.old).faults ≤ (state self.new).faults }
        ensures bounded { (state self.new).faults < 2 ^ 64 }
        ensures cause { IsErrOf result SinkError.Fault → Rose (state self.old).faults (state self.new).faults };
}
