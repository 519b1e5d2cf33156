//! Which calls fail.
ghost use Rattle.std.specs.Prelude.{◌≡◌};
ghost use Rattle.jc_base.specs.Schedule.{fails_next, after_call};

use std::marker::Model;

/// A counter of calls, and the numbers, from 1, of those that are to fail.
#[derive(Drop)]
pub(crate) struct Schedule {
    calls: u64,
    failing: Vec<u64>,
}

impl Model for Schedule {
    ghost use Rattle.jc_base.specs.Schedule.{Plan};

    ghost Value = { Plan };

    ghost view = { λ s. record { calls = s.calls; failing = s.failing.items } };
}

impl Schedule {
    pub(crate) fn new(failing: Vec<u64>) -> Schedule
        ensures { result ≡ record { calls = 0; failing = failing.items } }
    {
        Schedule { calls: 0, failing }
    }

    // Counts a call, and says whether it fails.
    pub(crate) fn next_fails(&mut self) -> bool
        ensures fails { result ≡ fails_next self.old }
        ensures counted { self.new ≡ after_call self.old }
    {
        if self.calls == u64::MAX {
            return false;
        }
        self.calls += 1;
        self.failing.contains(&self.calls)
    }
}
