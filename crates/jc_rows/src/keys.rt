//! Keys and their numbers.
ghost use Rattle.std.specs.Prelude.{◌≡◌, length, option_map, slice_get, [], Some, IfOk, OnOk};
ghost use Rattle.jc_rows.specs.Keys.{IsNumber, AreDistinct, with_key};

use indexmap::IndexSet;
use jc_facts::key::Key;
use std::alloc::{AllocError, Global};
use std::marker::Model;

/// Keys that differ from each other, each with the number of those that were added before it. A
/// contract sees them as a list.
#[derive(Drop)]
pub struct Keys {
    set: IndexSet<Key>,
}

impl Model for Keys {
    ghost use Rattle.std.specs.Prelude.{List};
    ghost use Rattle.jc_facts.specs.declared.key.Key.{Key};

    ghost Value = { List Key };

    ghost view = { λ k. k.set.keys };
}

impl Keys {
    /// No keys.
    pub(crate) fn new(alloc: Global) -> Keys
        ensures { result ≡ [] }
    {
        Keys {
            set: IndexSet::new(alloc),
        }
    }

    /// How many there are.
    pub fn count(&self) -> usize
        ensures count { result ≡ length self.now }
        ensures distinct { AreDistinct self.now }
    {
        self.set.len()
    }

    /// The number of the key, which is less than their count; none where it isn't one of them. It
    /// takes no memory.
    pub fn number(&self, key: &Key) -> Option<usize>
        ensures { IsNumber self.now key.now result }
    {
        self.set.get_index_of(key)
    }

    /// The key of this number; none where the number isn't less than their count.
    pub fn at(&self, number: usize) -> Option<&Key>
        ensures { option_map (λ k. k.now) result ≡ slice_get self.now number }
    {
        self.set.get_index(number)
    }

    /// All keys, in the order of their numbers.
    pub(crate) fn as_slice(&self) -> &[Key]
        ensures { result.now ≡ self.now }
    {
        self.set.as_slice()
    }

    // The number of the key, which is added where it isn't there.
    pub(crate) fn put(&mut self, key: Key) -> Result<usize, AllocError>
        ensures numbered { IfOk result (λ n. slice_get self.new n ≡ Some key) }
        ensures added { OnOk result (self.new ≡ with_key self.old key) }
    {
        match self.set.insert_full(key) {
            Ok((number, _)) => Ok(number),
            Err(_) => Err(AllocError),
        }
    }
}
