//! Standard output and standard error as sinks.
ghost use Rattle.std.specs.Prelude.{◌≡◌, ◌≤◌, ◌<◌, ◌^◌, OnErr, None, if◌then◌else◌};
ghost use Rattle.jc_base.specs.Causes.{Rose};
ghost use Rattle.jc_base.specs.States.{SinkState};
ghost use Rattle.jcompat.specs.steps.Written.{IsWrittenSo};

use crate::writer::Writer;
use jc_base::sink::{Sink, SinkError};

/// A sink over a writer, as standard output. It tells what the writer took where that tells it.
///
/// A call fails where a write or the flush behind the last write fails, and where the writer takes
/// nothing of bytes that aren't empty. The count of failed calls stops at `u64::MAX`.
#[derive(Drop)]
pub struct StdSink<W: Writer + Drop> {
    writer: W,
    faults: u64,
}

impl<W: Writer + Drop> StdSink<W> {
    /// No call has failed yet.
    pub fn new(writer: W) -> StdSink<W>
        ensures faults { (⟦<StdSink<W> as Sink>⟧.state result).faults ≡ 0 }
        ensures taken { (⟦<StdSink<W> as Sink>⟧.state result).taken ≡ (if W.tells then W.contents writer else None) }
    {
        StdSink { writer, faults: 0 }
    }

    // Writes all bytes, and says whether the writer took them.
    fn is_written(&mut self, bytes: &[u8]) -> bool
        ensures uncounted { self.new.faults ≡ self.old.faults }
        ensures written { IsWrittenSo (W.contents self.old.writer) (W.contents self.new.writer) bytes.now result }
    {
        let mut rest = bytes;
        while !rest.is_empty() {
            match self.writer.write(rest) {
                Ok(count) if count > 0 => rest = &rest[count..],
                _ => return false,
            }
        }
        self.writer.flush().is_ok()
    }
}

impl<W: Writer + Drop> Sink for StdSink<W> {
    ghost state = { λ s. record { taken = if W.tells then W.contents s.writer else None; faults = s.faults } };

    fn put(&mut self, bytes: &[u8]) -> Result<(), SinkError> {
        let faults = self.faults;
        if self.is_written(bytes) {
            return Ok(());
        }
        self.faults = faults.saturating_add(1);
        Err(SinkError::Fault)
    }
}
