//! Keys whose parts lie elsewhere, in an ordered set.
ghost use Rattle.std.specs.Prelude.{◌≡◌, Some, refl, not, List, ◌++◌, ◌∷◌, [], IfOk};
ghost use Rattle.std.specs.Cmp.{partial_equiv_from_equiv};
ghost use Rattle.jc_facts.specs.declared.key.Key.{Key};
ghost use Rattle.jc_facts.specs.Names.{same_key, key_of};
ghost use Rattle.jc_facts.specs.file.Valid.{has_key, keys_differ};
ghost use Rattle.jc_facts.specs.KeyOrder.{key_cmp, key_total, same_key_equiv, key_po, key_ties};
ghost use Rattle.jc_facts.specs.Seen.{Holds};

use crate::class_facts::Member;
use crate::key::Key;
use jc_base::name::Name;
use std::alloc::{AllocError, Global};
use std::cmp::Ordering;
use std::collections::BTreeSet;
use std::marker::Model;

/// A name and a descriptor that lie elsewhere. A contract sees it as the key.
#[derive(Drop)]
pub struct KeyRef<'a> {
    name: &'a [u8],
    descriptor: &'a [u8],
}

impl<'a> Model for KeyRef<'a> {
    ghost use Rattle.jc_facts.specs.declared.key.Key.{Key};

    ghost Value = { Key };

    ghost view = { λ k. record { name = k.name.now; descriptor = k.descriptor.now } };
}

impl<'a> KeyRef<'a> {
    /// The key of this name and descriptor.
    pub fn new(name: &'a [u8], descriptor: &'a [u8]) -> KeyRef<'a>
        ensures { result ≡ record { name = name.now; descriptor = descriptor.now } }
    {
        KeyRef { name, descriptor }
    }

    /// The key of a member.
    pub fn of_member(member: &'a Member) -> KeyRef<'a>
        ensures { result ≡ key_of member.now }
    {
        KeyRef::new(member.name.as_bytes(), member.descriptor.as_bytes())
    }

    /// The key as one that lies elsewhere.
    pub fn of_key(key: &'a Key) -> KeyRef<'a>
        ensures { result ≡ key.now }
    {
        KeyRef::new(key.name.as_bytes(), key.descriptor.as_bytes())
    }

    /// A key of its own.
    ///
    /// # Errors
    ///
    /// `AllocError` where memory runs out.
    pub fn to_key(&self, alloc: Global) -> Result<Key, AllocError>
        ensures { IfOk result (λ key. key ≡ self.now) }
    {
        Ok(Key {
            name: Name::from_bytes(alloc, self.name)?,
            descriptor: Name::from_bytes(alloc, self.descriptor)?,
        })
    }
}

impl<'a> PartialEq for KeyRef<'a> {
    ghost eq = { same_key };

    ghost laws = { partial_equiv_from_equiv same_key_equiv };

    fn eq(&self, other: &KeyRef<'a>) -> bool {
        self.name == other.name && self.descriptor == other.descriptor
    }
}

impl<'a> Eq for KeyRef<'a> {
    ghost laws = { same_key_equiv };
}

impl<'a> PartialOrd for KeyRef<'a> {
    ghost partial_cmp = { λ x y. Some (key_cmp x y) };

    ghost laws = { key_po };

    fn partial_cmp(&self, other: &KeyRef<'a>) -> Option<Ordering> {
        Some(self.cmp(other))
    }
}

impl<'a> Ord for KeyRef<'a> {
    ghost cmp = { key_cmp };

    ghost total = { key_total };

    ghost matches_partial_cmp = { λ x y. refl };

    ghost matches_eq = { key_ties };

    fn cmp(&self, other: &KeyRef<'a>) -> Ordering {
        match self.name.cmp(other.name) {
            Ordering::Equal => self.descriptor.cmp(other.descriptor),
            order => order,
        }
    }
}

/// Adds a key, and says whether it is new.
///
/// # Errors
///
/// `AllocError` where memory runs out.
pub fn put<'a>(keys: &mut BTreeSet<KeyRef<'a>>, key: KeyRef<'a>) -> Result<bool, AllocError>
    ensures { IfOk result (λ new. (seen : List Key) → Holds keys.old seen
        → (new ≡ not (has_key key.entry seen)) × Holds keys.new (seen ++ key.entry ∷ [])) }
{
    let new = keys.insert(key)?;
    Ok(new)
}

/// Whether the set has the key.
pub fn holds<'a>(keys: &BTreeSet<KeyRef<'a>>, key: &KeyRef<'a>) -> bool
    ensures { (seen : List Key) → Holds keys.now seen → result ≡ has_key key.now seen }
{
    keys.contains(key)
}

/// The set of these keys.
///
/// # Errors
///
/// `AllocError` where memory runs out.
pub fn set_of<'a>(alloc: Global, keys: Vec<KeyRef<'a>>) -> Result<BTreeSet<KeyRef<'a>>, AllocError>
    ensures { IfOk result (λ set. Holds set keys.entry.items) }
{
    let mut set = BTreeSet::new(alloc);
    for key in keys {
        put(&mut set, key)?;
    }
    Ok(set)
}

/// Whether no key stands twice.
pub(crate) fn all_differ(alloc: Global, keys: Vec<KeyRef<'_>>) -> Result<bool, AllocError>
    ensures { IfOk result (λ differ. differ ≡ keys_differ keys.entry.items) }
{
    let mut seen = BTreeSet::new(alloc);
    for key in keys {
        if !put(&mut seen, key)? {
            return Ok(false);
        }
    }
    Ok(true)
}
