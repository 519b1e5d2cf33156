//! A sink in memory that doesn't fail.
ghost use Rattle.std.specs.Prelude.{◌≡◌, Some, []};
ghost use Rattle.jc_base.specs.States.{SinkState};

use crate::sink::{Sink, SinkError};
use std::alloc::Global;

/// A sink in memory. No call fails but for lack of memory, and its count of faults stays 0.
#[derive(Drop)]
pub struct SureSink {
    bytes: Vec<u8>,
}

impl SureSink {
    /// An empty sink.
    pub fn new(alloc: Global) -> SureSink
        ensures { ⟦<SureSink as Sink>⟧.state result ≡ record { taken = Some []; faults = 0 } }
    {
        SureSink {
            bytes: Vec::new(alloc),
        }
    }

    /// The bytes taken.
    pub fn bytes(&self) -> &[u8]
        ensures { ⟦<SureSink as Sink>⟧.state self.now ≡ record { taken = Some result.now; faults = 0 } }
    {
        self.bytes.as_slice()
    }
}

impl Sink for SureSink {
    ghost state = { λ s. record { taken = Some s.bytes.items; faults = 0 } };

    fn put(&mut self, bytes: &[u8]) -> Result<(), SinkError> {
        match self.bytes.extend_from_slice(bytes) {
            Ok(()) => Ok(()),
            Err(_) => Err(SinkError::Memory),
        }
    }
}
