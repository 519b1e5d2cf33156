//! Names that are looked for without memory.
ghost use Rattle.std.specs.Prelude.{◌≡◌, ◌≤◌, ℕ, List, true, false, IfOk, length};
ghost use Rattle.std.specs.List.Sorted.{IsPermutation, IsPartitionPoint, IsSorted};
ghost use Rattle.std.specs.Ordering.{is_lt};
ghost use Rattle.jc_facts.specs.Exactly.{name_order};
ghost use Rattle.jc_facts.specs.Names.{is_name_among};

use jc_base::name::Name;
use std::alloc::{AllocError, Global};
use std::cmp::Ordering;
use std::marker::Model;

/// Names in byte order; some may stand twice. A contract sees them as their list.
#[derive(Drop)]
pub struct NameSet {
    names: Vec<Name>,
}

impl Model for NameSet {
    ghost use Rattle.std.specs.Prelude.{List, ℕ};
    ghost use Rattle.std.specs.List.Sorted.{IsSorted};
    ghost use Rattle.jc_facts.specs.Exactly.{name_order};

    ghost Value = { List (List ℕ) };

    ghost view = { λ s. s.names.items };

    ghost invariant = { λ s. IsSorted name_order s.names.items };
}

impl NameSet {
    /// These names.
    ///
    /// # Errors
    ///
    /// `AllocError` where memory runs out.
    pub fn new(mut names: Vec<Name>) -> Result<NameSet, AllocError>
        ensures { IfOk result (λ set. IsPermutation names.items set) }
    {
        names.sort()?;
        Ok(NameSet { names })
    }

    /// Copies of these names.
    ///
    /// # Errors
    ///
    /// `AllocError` where memory runs out.
    pub fn copied(alloc: Global, names: &[Name]) -> Result<NameSet, AllocError>
        ensures { IfOk result (λ set. IsPermutation names.now set) }
    {
        let mut copies = Vec::with_capacity(alloc, names.len())?;
        for name in names {
            copies.push(name.copy(alloc)?)?;
        }
        let set = NameSet::new(copies)?;
        Ok(set)
    }

    // How many names stand before these bytes.
    fn rank(&self, bytes: &[u8]) -> usize
        ensures bound { result ≤ length self.now }
        ensures parts { IsPartitionPoint (λ x. is_lt (name_order x bytes.now) ≡ true) (λ x. is_lt (name_order x bytes.now) ≡ false) self.now result }
        ensures sorted { IsSorted name_order self.now }
    {
        self.names.as_slice().partition_point(|name| matches!(
            name.as_bytes().cmp(bytes),
            Ordering::Less
        ))
    }

    /// Whether one of the names is this one.
    pub fn has(&self, name: &[u8]) -> bool
        ensures { result ≡ is_name_among self.now name.now }
    {
        match self.names.as_slice().get(self.rank(name)) {
            Some(first) => first.as_bytes() == name,
            None => false,
        }
    }
}
