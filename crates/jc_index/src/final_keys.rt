//! Keys of final methods.
ghost use Rattle.std.specs.Prelude.{◌≡◌, false, IfOk};
ghost use Rattle.jc_facts.specs.declared.key.Key.{Key as KeyOf};
ghost use Rattle.jc_facts.specs.file.Valid.{has_key};
ghost use Rattle.jc_index.specs.steps.HashedKeys.{HaveNames};

use crate::hashed_keys::{HashedKeys, hashed};
use crate::names::NumberedNames;
use jc_facts::key::Key;
use std::alloc::{AllocError, Global};
use std::marker::Model;

/// Keys that differ from each other, and their names, by which most look-ups are answered. A contract
/// sees the keys as a list.
#[derive(Drop)]
pub(crate) struct FinalKeys {
    names: NumberedNames,
    keys: HashedKeys,
}

impl Model for FinalKeys {
    ghost use Rattle.std.specs.Prelude.{List};
    ghost use Rattle.jc_facts.specs.declared.key.Key.{Key};

    ghost Value = { List Key };

    ghost use Rattle.jc_index.specs.steps.HashedKeys.{HaveNames};

    ghost view = { λ f. f.keys };

    ghost invariant = { λ f. HaveNames f.names f.keys };
}

// The names of the keys.
fn names_of(alloc: Global, keys: &[Key]) -> Result<NumberedNames, AllocError>
    ensures { IfOk result (λ names. HaveNames names keys.now) }
{
    let mut names = NumberedNames::new(alloc);
    for key in keys {
        let name = key.name.copy(alloc)?;
        names.put(name)?;
    }
    Ok(names)
}

impl FinalKeys {
    /// These keys, each once.
    ///
    /// # Errors
    ///
    /// `AllocError` where memory runs out.
    pub fn new(alloc: Global, keys: Vec<Key>) -> Result<FinalKeys, AllocError>
        ensures { IfOk result (λ finals. (q : KeyOf) → has_key q finals ≡ has_key q keys.items) }
    {
        let names = names_of(alloc, keys.as_slice())?;
        let keys = hashed(alloc, keys)?;
        Ok(FinalKeys { names, keys })
    }

    /// Whether one of the keys may have this name. It takes no memory.
    pub fn has_name(&self, name: &[u8]) -> bool
        ensures { (q : KeyOf) → q.name ≡ name.now → result ≡ false → has_key q self.now ≡ false }
    {
        self.names.has(name)
    }

    /// Whether the key is one of them. It takes no memory.
    pub fn has(&self, key: &Key) -> bool
        ensures { result ≡ has_key key.now self.now }
    {
        self.keys.has(key)
    }
}
