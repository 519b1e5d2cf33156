//! Keys of final instance methods of a side.
ghost use Rattle.std.specs.Prelude.{◌≡◌, ◌++◌, false};
ghost use Rattle.jc_facts.specs.declared.key.Key.{Key as KeyOf};
ghost use Rattle.jc_facts.specs.file.Valid.{has_key};

use crate::final_keys::FinalKeys;
use jc_facts::key::Key;
use std::marker::Model;

/// Keys of final instance methods: those that were collected of the platform alone, and those that were
/// collected of a side beside them. A contract sees them as one list.
#[derive(Drop)]
pub struct SideFinals<'a> {
    platform: &'a FinalKeys,
    beside: FinalKeys,
}

impl<'a> Model for SideFinals<'a> {
    ghost use Rattle.std.specs.Prelude.{List, ◌++◌};
    ghost use Rattle.jc_facts.specs.declared.key.Key.{Key};

    ghost Value = { List Key };

    ghost view = { λ f. f.platform.now ++ f.beside };
}

impl<'a> SideFinals<'a> {
    // These keys, of which those of the platform aren't copied.
    pub(crate) fn new(platform: &'a FinalKeys, beside: FinalKeys) -> SideFinals<'a>
        ensures { result ≡ platform.now ++ beside }
    {
        SideFinals { platform, beside }
    }

    /// Whether one of the keys may have this name. It takes no memory.
    pub fn has_name(&self, name: &[u8]) -> bool
        ensures { (q : KeyOf) → q.name ≡ name.now → result ≡ false → has_key q self.now ≡ false }
    {
        self.platform.has_name(name) || self.beside.has_name(name)
    }

    /// Whether the key is one of them. It takes no memory.
    pub fn has(&self, key: &Key) -> bool
        ensures { result ≡ has_key key.now self.now }
    {
        self.platform.has(key) || self.beside.has(key)
    }
}
