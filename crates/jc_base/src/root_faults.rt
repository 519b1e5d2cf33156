//! A count of faults for each root.
ghost use Rattle.std.specs.Prelude.{◌≡◌, ◌≤◌, ◌<◌, ◌^◌, OnOk, OnErr, IsOk, List, ℕ, unwrap_or};
ghost use Rattle.std.specs.BTreeMap.{get_by_text};
ghost use Rattle.jc_base.specs.Causes.{RoseByOne, KeepsCounts, KeepsOtherCounts};

use std::alloc::{AllocError, Global};
use std::collections::BTreeMap;

/// How many calls failed, for each root. A count stops at `u64::MAX`.
#[derive(Drop)]
pub struct RootFaults {
    counts: BTreeMap<String, u64>,
    ghost bounded: { (root : List ℕ) → unwrap_or (get_by_text counts root) 0 < 2 ^ 64 },
}

impl RootFaults {
    ghost use Rattle.jc_base.specs.RootFaults.{count_at};

    /// No call has failed yet.
    pub fn new(alloc: Global) -> RootFaults
        ensures { (root : List ℕ) → count_at result root ≡ 0 }
    {
        RootFaults {
            counts: BTreeMap::new(alloc),
        }
    }

    /// How many calls on the root failed.
    pub fn count(&self, root: &str) -> u64
        ensures { result ≡ count_at self.now root.now }
    {
        self.counts.get(root).copied().unwrap_or(0)
    }

    /// Counts a failed call on the root.
    ///
    /// # Errors
    ///
    /// `AllocError` where memory runs out; nothing is counted then. Memory is needed only where no call on
    /// the root has failed before.
    pub fn raise(&mut self, alloc: Global, root: &str) -> Result<(), AllocError>
        ensures by_one { OnOk result (RoseByOne (count_at self.old root.now) (count_at self.new root.now)) }
        ensures others { KeepsOtherCounts root.now (count_at self.old) (count_at self.new) }
        ensures uncounted { OnErr result (KeepsCounts (count_at self.old) (count_at self.new)) }
        ensures needs_no_memory { 0 < count_at self.old root.now → IsOk result }
        ensures never_falls { (other : List ℕ) → count_at self.old other ≤ count_at self.new other }
    {
        if let Some(count) = self.counts.get_mut(root) {
            *count = count.saturating_add(1);
            return Ok(());
        }
        let key = String::from_str(alloc, root)?;
        self.counts.insert(key, 1)?;
        Ok(())
    }
}
