//! Keys that are looked for by their hashes.
ghost use Rattle.std.specs.Prelude.{◌≡◌, [], IfOk, OnOk};
ghost use Rattle.jc_facts.specs.declared.key.Key.{Key as KeyOf};
ghost use Rattle.jc_facts.specs.file.Valid.{has_key};
ghost use Rattle.jc_index.specs.steps.HashedKeys.{with_one};

use indexmap::IndexSet;
use jc_facts::key::Key;
use std::alloc::{AllocError, Global};
use std::marker::Model;

/// Keys that differ from each other. A contract sees them as a list.
#[derive(Drop)]
pub(crate) struct HashedKeys {
    set: IndexSet<Key>,
}

impl Model for HashedKeys {
    ghost use Rattle.std.specs.Prelude.{List};
    ghost use Rattle.jc_facts.specs.declared.key.Key.{Key};

    ghost Value = { List Key };

    ghost view = { λ k. k.set.keys };
}

impl HashedKeys {
    // No keys.
    fn new(alloc: Global) -> HashedKeys
        ensures { result ≡ [] }
    {
        HashedKeys {
            set: IndexSet::new(alloc),
        }
    }

    // Adds the key, where it isn't there.
    fn put(&mut self, key: Key) -> Result<(), AllocError>
        ensures { OnOk result (self.new ≡ with_one self.old key) }
    {
        match self.set.insert_full(key) {
            Ok(_) => Ok(()),
            Err(_) => Err(AllocError),
        }
    }

    /// Whether the key is one of them. It takes no memory.
    pub fn has(&self, key: &Key) -> bool
        ensures { result ≡ has_key key.now self.now }
    {
        self.set.contains(key)
    }
}

/// These keys, each once.
pub(crate) fn hashed(alloc: Global, keys: Vec<Key>) -> Result<HashedKeys, AllocError>
    ensures { IfOk result (λ set. (q : KeyOf) → has_key q set ≡ has_key q keys.items) }
{
    let mut set = HashedKeys::new(alloc);
    for key in keys {
        set.put(key)?;
    }
    Ok(set)
}
