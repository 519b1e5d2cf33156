//! A folder in memory, whose calls fail by a list.
ghost use Rattle.std.specs.Prelude.{◌≡◌, ◌≤◌, ◌<◌, ◌^◌, ℕ, List, Some, None, true, false, OnOk, OnErr, IsErrOf, IsOkUnless, option_copied};
ghost use Rattle.jc_base.specs.Causes.{Rose, RoseByOne};
ghost use Rattle.jc_base.specs.Outside.{HoldsAt, KeepsOtherPaths, KeepsAll};
ghost use Rattle.jc_base.specs.Schedule.{Plan, fails_next, after_call};

use crate::file_map::FileMap;
use crate::folder::{Folder, FolderError};
use crate::schedule::Schedule;
use std::alloc::Global;

/// A folder in memory. The calls of the given numbers, counted from 1, fail; a failing call leaves
/// each path as it was. The counter of calls stops at `u64::MAX`, and no call made from then on
/// fails.
pub struct MemFolder {
    files: FileMap,
    schedule: Schedule,
    faults: u64,
}

// One call at each exit of a function that owns it, where a derived drop is written out.
impl Drop for MemFolder {
    fn drop(self) {
        let MemFolder {
            files: _,
            schedule: _,
            faults: _,
        } = self;
    }
}

impl MemFolder {
    ghost use Rattle.jc_base.specs.MemFolder.{plan_of, held_by, faults_of};

    /// An empty folder, on which no call was made yet.
    pub fn new(alloc: Global, failing: Vec<u64>) -> MemFolder
        ensures files { (path : List ℕ) → held_by result path ≡ None }
        ensures faults { faults_of result ≡ 0 }
        ensures plan { plan_of result ≡ record { calls = 0; failing = failing.items } }
    {
        MemFolder {
            files: FileMap::new(alloc),
            schedule: Schedule::new(failing),
            faults: 0,
        }
    }

    /// The bytes at the path, or `None` where nothing was put there.
    pub fn get(&self, path: &str) -> Option<&[u8]>
        ensures { option_copied result ≡ held_by self.now path.now }
    {
        self.files.get(path)
    }

    /// How many calls failed.
    pub fn faults(&self) -> u64
        ensures { result ≡ faults_of self.now }
    {
        self.faults
    }
}

impl Folder for MemFolder {
    ghost use Rattle.jc_base.specs.MemFolder.{plan_of, held_by, faults_of, state_of};

    ghost state = { state_of };

    fn put(&mut self, path: &str, bytes: &[u8]) -> Result<(), FolderError>
        ensures holds { OnOk result (HoldsAt (Some (held_by self.new)) path.now bytes.now) }
        ensures others { KeepsOtherPaths path.now (Some (held_by self.old)) (Some (held_by self.new)) }
        ensures never_falls { faults_of self.old ≤ faults_of self.new }
        ensures bounded { faults_of self.new < 2 ^ 64 }
        ensures cause { IsErrOf result FolderError.Fault → Rose (faults_of self.old) (faults_of self.new) }

        // A fault is counted once, and nothing else is counted.
        ensures by_one { IsErrOf result FolderError.Fault → RoseByOne (faults_of self.old) (faults_of self.new) }
        ensures still { OnOk result (faults_of self.new ≡ faults_of self.old) }
        ensures uncounted { IsErrOf result FolderError.Memory → faults_of self.new ≡ faults_of self.old }

        // Which calls fail. After an error each path is as it was.
        ensures counted { plan_of self.new ≡ after_call (plan_of self.old) }
        ensures unchanged { OnErr result (KeepsAll (held_by self.old) (held_by self.new)) }
        ensures fails { fails_next (plan_of self.old) ≡ true → IsErrOf result FolderError.Fault }
        ensures succeeds { fails_next (plan_of self.old) ≡ false → IsOkUnless result FolderError.Memory }
    {
        let _faults = self.faults;
        if self.schedule.next_fails() {
            self.faults = self.faults.saturating_add(1);
            return Err(FolderError::Fault);
        }
        match self.files.put(path, bytes) {
            Ok(()) => Ok(()),
            Err(_) => Err(FolderError::Memory),
        }
    }
}
