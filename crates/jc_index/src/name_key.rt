//! Names of a set that is asked for bytes.
ghost use Rattle.std.specs.Prelude.{◌≡◌, ◌∷◌, [], nat_eq};
ghost use Rattle.std.specs.Cmp.Lexicographic.{pointwise, nat_list_eq_equiv};
ghost use Rattle.std.specs.Cmp.{partial_equiv_from_equiv};
ghost use Rattle.std.specs.Cmp.Rules.{hashing};
ghost use Rattle.std.proofs.Common.{rules};

use jc_base::name::Name;
use std::hash::{Hash, Hasher};
use std::marker::Model;

/// Where the bytes are.
#[derive(Drop)]
enum Held<'a> {
    /// In a name of the set.
    Kept(Name),
    /// With whoever asks for them.
    Asked(&'a [u8]),
}

/// A name of a set, or bytes that are looked for among its names. A contract sees it as the bytes, which
/// it is compared and hashed by: all at once, where a slice hands them to the hasher one by one.
pub(crate) struct NameKey<'a> {
    held: Held<'a>,
}

impl Drop for NameKey<'_> {
    fn drop(self) {
        let NameKey { held: _ } = self;
    }
}

impl<'a> Model for NameKey<'a> {
    ghost use Rattle.std.specs.Prelude.{List, ℕ};
    ghost use Rattle.jc_index.specs.steps.NameKeys.{bytes_held};

    ghost Value = { List ℕ };

    ghost view = { λ k. bytes_held k.held };
}

impl<'a> NameKey<'a> {
    /// A name of the set.
    pub(crate) fn kept(name: Name) -> NameKey<'a>
        ensures { result ≡ name }
    {
        NameKey {
            held: Held::Kept(name),
        }
    }

    /// Bytes that are looked for.
    pub(crate) fn asked(bytes: &'a [u8]) -> NameKey<'a>
        ensures { result ≡ bytes.now }
    {
        NameKey {
            held: Held::Asked(bytes),
        }
    }

    fn as_bytes(&self) -> &[u8]
        ensures { result.now ≡ self.now }
    {
        match &self.held {
            Held::Kept(name) => name.as_bytes(),
            Held::Asked(bytes) => *bytes,
        }
    }
}

impl<'a> PartialEq for NameKey<'a> {
    ghost eq = { pointwise nat_eq };

    ghost laws = { partial_equiv_from_equiv nat_list_eq_equiv };

    fn eq(&self, other: &NameKey<'a>) -> bool {
        self.as_bytes() == other.as_bytes()
    }
}

impl<'a> Eq for NameKey<'a> {
    ghost laws = { nat_list_eq_equiv };
}

impl<'a> Hash for NameKey<'a> {
    ghost hash_input = { λ bytes. bytes ∷ [] };

    ghost respects_eq = { Prim.search (hashing, rules) };

    fn hash<H: Hasher>(&self, state: &mut H) {
        state.write(self.as_bytes());
    }
}
