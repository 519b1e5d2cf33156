//! A sink in memory, whose calls fail by a list.
ghost use Rattle.std.specs.Prelude.{◌≡◌, ◌≤◌, ◌<◌, ◌+◌, ◌/◌, ◌^◌, ◌++◌, Some, [], true, false, length, take, OnOk, OnErr, IsErrOf, IsOkUnless, ◌⊎◌};
ghost use Rattle.jc_base.specs.Causes.{Rose, RoseByOne};
ghost use Rattle.jc_base.specs.Outside.{TakesAll, TakesFront};
ghost use Rattle.jc_base.specs.Schedule.{Plan, fails_next, after_call};

use crate::schedule::Schedule;
use crate::sink::{Sink, SinkError};
use std::alloc::Global;

/// A sink in memory. The calls of the given numbers, counted from 1, fail; a failing call takes
/// the first half of its piece, rounded down. The counter of calls stops at `u64::MAX`, and no
/// call made from then on fails.
pub struct MemSink {
    bytes: Vec<u8>,
    schedule: Schedule,
    faults: u64,
}

// One call at each exit of a function that owns it, where a derived drop is written out.
impl Drop for MemSink {
    fn drop(self) {
        let MemSink {
            bytes: _,
            schedule: _,
            faults: _,
        } = self;
    }
}

impl MemSink {
    ghost use Rattle.jc_base.specs.MemSink.{plan_of, bytes_of, faults_of};

    /// An empty sink, on which no call was made yet.
    pub fn new(alloc: Global, failing: Vec<u64>) -> MemSink
        ensures bytes { bytes_of result ≡ [] }
        ensures faults { faults_of result ≡ 0 }
        ensures plan { plan_of result ≡ record { calls = 0; failing = failing.items } }
    {
        MemSink {
            bytes: Vec::new(alloc),
            schedule: Schedule::new(failing),
            faults: 0,
        }
    }

    /// The bytes taken.
    pub fn bytes(&self) -> &[u8]
        ensures { result.now ≡ bytes_of self.now }
    {
        self.bytes.as_slice()
    }

    /// How many calls failed.
    pub fn faults(&self) -> u64
        ensures { result ≡ faults_of self.now }
    {
        self.faults
    }
}

impl Sink for MemSink {
    ghost use Rattle.jc_base.specs.MemSink.{plan_of, bytes_of, faults_of, state_of};

    ghost state = { state_of };

    fn put(&mut self, bytes: &[u8]) -> Result<(), SinkError>
        ensures ok { OnOk result (TakesAll (Some (bytes_of self.old)) (Some (bytes_of self.new)) bytes.now) }
        ensures err { OnErr result (TakesFront (Some (bytes_of self.old)) (Some (bytes_of self.new)) bytes.now) }
        ensures never_falls { faults_of self.old ≤ faults_of self.new }
        ensures bounded { faults_of self.new < 2 ^ 64 }
        ensures cause { IsErrOf result SinkError.Fault → Rose (faults_of self.old) (faults_of self.new) }

        // A fault is counted once, and nothing else is counted.
        ensures by_one { IsErrOf result SinkError.Fault → RoseByOne (faults_of self.old) (faults_of self.new) }
        ensures still { OnOk result (faults_of self.new ≡ faults_of self.old) }
        ensures uncounted { IsErrOf result SinkError.Memory → faults_of self.new ≡ faults_of self.old }

        // Which calls fail, and what a failing one takes. It wants memory only where the half isn't empty.
        ensures counted { plan_of self.new ≡ after_call (plan_of self.old) }
        ensures taken_half { IsErrOf result SinkError.Fault
            → bytes_of self.new ≡ bytes_of self.old ++ take (length bytes.now / 2) bytes.now }
        ensures fails { fails_next (plan_of self.old) ≡ true → IsErrOf result SinkError.Fault ⊎ IsErrOf result SinkError.Memory }
        ensures needs_no_memory { fails_next (plan_of self.old) ≡ true → length bytes.now < 2 → IsErrOf result SinkError.Fault }
        ensures succeeds { fails_next (plan_of self.old) ≡ false → IsOkUnless result SinkError.Memory }
    {
        let _faults = self.faults;
        if self.schedule.next_fails() {
            let half = &bytes[..bytes.len() / 2];
            if self.bytes.extend_from_slice(half).is_err() {
                return Err(SinkError::Memory);
            }
            self.faults = self.faults.saturating_add(1);
            return Err(SinkError::Fault);
        }
        match self.bytes.extend_from_slice(bytes) {
            Ok(()) => Ok(()),
            Err(_) => Err(SinkError::Memory),
        }
    }
}
