//! Trees in memory, whose calls fail by a list.
ghost use Rattle.std.specs.Prelude.{◌≡◌, ◌≤◌, ◌<◌, ◌+◌, ◌^◌, ◌⊎◌, ℕ, List, Some, true, false, [], length, IfOk, OnOk, OnErr, IsErrOf, IsOk, IsOkUnless, IsTrue};
ghost use Rattle.jc_base.specs.Causes.{Rose, RoseByOne, KeepsCounts, KeepsOtherCounts};
ghost use Rattle.jc_base.specs.Outside.{Lists, Holds, ReadsFront, are_distinct, are_files};
ghost use Rattle.jc_base.specs.MemFile.{files_of};
ghost use Rattle.jc_base.specs.Schedule.{Plan, fails_next, after_call};

use crate::file_buf::FileBuf;
use crate::mem_file::{MemFile, front, paths};
use crate::root_faults::RootFaults;
use crate::schedule::Schedule;
use crate::text::Text;
use crate::trees::{MAX_BYTES, TreeError, Trees};
use std::alloc::Global;

/// Trees in memory. The calls of the given numbers, counted from 1 over `list` and `read_into`, fail.
/// The counter of calls stops at `u64::MAX`, and no call made from then on fails.
pub struct MemTrees {
    files: Vec<MemFile>,
    schedule: Schedule,
    failed: RootFaults,
    ghost distinct: { IsTrue (are_files (files_of files.items)) },
}

// One call at each exit of a function that owns it, where a derived drop is written out.
impl Drop for MemTrees {
    fn drop(self) {
        let MemTrees {
            files: _,
            schedule: _,
            failed: _,
        } = self;
    }
}

impl MemTrees {
    ghost use Rattle.jc_base.specs.MemTrees.{plan_of, held_by, faults_at};

    /// Trees of these files, on which no call was made yet.
    pub fn new(alloc: Global, files: Vec<MemFile>, failing: Vec<u64>) -> MemTrees
        requires { IsTrue (are_files (files_of files.items)) }
        ensures files { held_by result ≡ files_of files.items }
        ensures faults { (root : List ℕ) → faults_at result root ≡ 0 }
        ensures plan { plan_of result ≡ record { calls = 0; failing = failing.items } }
    {
        MemTrees {
            files,
            schedule: Schedule::new(failing),
            failed: RootFaults::new(alloc),
        }
    }

    /// How many calls on the root failed.
    pub fn faults(&self, root: &str) -> u64
        ensures { result ≡ faults_at self.now root.now }
    {
        self.failed.count(root)
    }

    // Counts a failed call on the root, and answers its error.
    fn fault(&mut self, alloc: Global, root: &str) -> TreeError
        ensures files { held_by self.new ≡ held_by self.old }
        ensures plan { plan_of self.new ≡ plan_of self.old }
        ensures never_falls { (r : List ℕ) → faults_at self.old r ≤ faults_at self.new r }
        ensures by_one { result ≡ TreeError.Fault → RoseByOne (faults_at self.old root.now) (faults_at self.new root.now) }
        ensures others { KeepsOtherCounts root.now (faults_at self.old) (faults_at self.new) }
        ensures uncounted { result ≡ TreeError.Memory → KeepsCounts (faults_at self.old) (faults_at self.new) }
        ensures needs_no_memory { 0 < faults_at self.old root.now → result ≡ TreeError.Fault }
    {
        match self.failed.raise(alloc, root) {
            Ok(()) => TreeError::Fault,
            Err(_) => TreeError::Memory,
        }
    }
}

impl Trees for MemTrees {
    ghost use Rattle.jc_base.specs.MemTrees.{plan_of, held_by, faults_at, state_of};

    ghost state = { state_of };

    #[tactic(auto, using(crate::proofs::Paths::distinct_paths))]
    fn list(&mut self, alloc: Global, root: &str) -> Result<Vec<Text>, TreeError>
        ensures listed { IfOk result (λ paths. Lists (Some (held_by self.old)) root.now paths.items) }
        ensures once { IfOk result (λ paths. IsTrue (are_distinct paths.items)) }
        ensures content { Some (held_by self.new) ≡ Some (held_by self.old) }
        ensures never_falls { (r : List ℕ) → faults_at self.old r ≤ faults_at self.new r }
        ensures bounded { (r : List ℕ) → faults_at self.new r < 2 ^ 64 }
        ensures cause { IsErrOf result TreeError.Fault → Rose (faults_at self.old root.now) (faults_at self.new root.now) }

        // A fault is counted once, on its root alone, and nothing else is counted.
        ensures by_one { IsErrOf result TreeError.Fault → RoseByOne (faults_at self.old root.now) (faults_at self.new root.now) }
        ensures others { KeepsOtherCounts root.now (faults_at self.old) (faults_at self.new) }
        ensures still { OnOk result (KeepsCounts (faults_at self.old) (faults_at self.new)) }
        ensures uncounted { IsErrOf result TreeError.Memory → KeepsCounts (faults_at self.old) (faults_at self.new) }

        // Which calls fail. One that is to fail wants memory only for a root that never failed before.
        ensures counted { plan_of self.new ≡ after_call (plan_of self.old) }
        ensures fails { fails_next (plan_of self.old) ≡ true → IsErrOf result TreeError.Fault ⊎ IsErrOf result TreeError.Memory }
        ensures needs_no_memory { fails_next (plan_of self.old) ≡ true → 0 < faults_at self.old root.now → IsErrOf result TreeError.Fault }
        ensures succeeds { fails_next (plan_of self.old) ≡ false → IsOkUnless result TreeError.Memory }
    {
        if self.schedule.next_fails() {
            return Err(self.fault(alloc, root));
        }
        match paths(alloc, self.files.as_slice(), root) {
            Ok(found) => Ok(found),
            Err(_) => Err(TreeError::Memory),
        }
    }

    fn read_into(
        &mut self,
        alloc: Global,
        root: &str,
        path: &str,
        limit: u32,
        into: &mut FileBuf,
    ) -> Result<(), TreeError>
        requires held { Holds (Some (held_by self.old)) root.now path.now }
        requires limit { limit ≤ MAX_BYTES }
        ensures bytes { OnOk result (ReadsFront (Some (held_by self.old)) root.now path.now (limit + 1) into.new) }
        ensures short { OnOk result (length into.new ≤ limit + 1) }
        ensures empty { OnErr result (into.new ≡ []) }
        ensures content { Some (held_by self.new) ≡ Some (held_by self.old) }
        ensures never_falls { (r : List ℕ) → faults_at self.old r ≤ faults_at self.new r }
        ensures bounded { (r : List ℕ) → faults_at self.new r < 2 ^ 64 }
        ensures cause { IsErrOf result TreeError.Fault → Rose (faults_at self.old root.now) (faults_at self.new root.now) }

        // A fault is counted once, on its root alone, and nothing else is counted.
        ensures by_one { IsErrOf result TreeError.Fault → RoseByOne (faults_at self.old root.now) (faults_at self.new root.now) }
        ensures others { KeepsOtherCounts root.now (faults_at self.old) (faults_at self.new) }
        ensures still { OnOk result (KeepsCounts (faults_at self.old) (faults_at self.new)) }
        ensures uncounted { IsErrOf result TreeError.Memory → KeepsCounts (faults_at self.old) (faults_at self.new) }

        // Which calls fail. One that is to fail wants memory only for a root that never failed before.
        ensures counted { plan_of self.new ≡ after_call (plan_of self.old) }
        ensures fails { fails_next (plan_of self.old) ≡ true → IsErrOf result TreeError.Fault ⊎ IsErrOf result TreeError.Memory }
        ensures needs_no_memory { fails_next (plan_of self.old) ≡ true → 0 < faults_at self.old root.now → IsErrOf result TreeError.Fault }
        ensures succeeds { fails_next (plan_of self.old) ≡ false → IsOk result }
    {
        into.clear();
        if self.schedule.next_fails() {
            return Err(self.fault(alloc, root));
        }
        let found = front(self.files.as_slice(), root, path, limit as usize + 1);
        into.append(found.unwrap());
        Ok(())
    }
}
