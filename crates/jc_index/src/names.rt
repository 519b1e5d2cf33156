//! Names and their numbers.
ghost use Rattle.std.specs.Prelude.{◌≡◌, ◌<◌, ◌++◌, ◌∷◌, [], false, length, IfOk, IfSome, OnOk, IsTrue};
ghost use Rattle.jc_facts.specs.Names.{is_name_among};
ghost use Rattle.jc_facts.specs.world.World.{differ_by_name};
ghost use Rattle.jc_index.specs.Ids.{place_of};
ghost use Rattle.jc_index.specs.steps.Adding.{AddsNames, with_name};
ghost use Rattle.jc_index.specs.steps.Order.{names_at};

use crate::name_key::NameKey;
use indexmap::IndexSet;
use jc_base::name::Name;
use jc_facts::class_facts::ClassFacts;
use std::alloc::{AllocError, Global};
use std::marker::Model;

/// Names that differ from each other, each with the number of those that were added before it. A
/// contract sees them as a list.
#[derive(Drop)]
pub struct NumberedNames {
    set: IndexSet<NameKey<'static>>,
}

impl Model for NumberedNames {
    ghost use Rattle.std.specs.Prelude.{List};
    ghost use Rattle.jc_facts.specs.Names.{Bytes};

    ghost Value = { List Bytes };

    ghost view = { λ n. n.set.keys };
}

// The number of the key in the set; none where it isn't one of its keys.
fn number_in<'a>(set: &IndexSet<NameKey<'a>>, key: NameKey<'a>) -> Option<usize>
    ensures { result ≡ place_of set.now.keys key.entry }
{
    set.get_index_of(&key)
}

// Whether the key is one of those of the set.
fn is_in<'a>(set: &IndexSet<NameKey<'a>>, key: NameKey<'a>) -> bool
    ensures { result ≡ is_name_among set.now.keys key.entry }
{
    set.contains(&key)
}

impl NumberedNames {
    /// No names.
    pub(crate) fn new(alloc: Global) -> NumberedNames
        ensures { result ≡ [] }
    {
        NumberedNames {
            set: IndexSet::new(alloc),
        }
    }

    // No names, with room for so many.
    fn with_capacity(alloc: Global, count: usize) -> Result<NumberedNames, AllocError>
        ensures { IfOk result (λ names. names ≡ []) }
    {
        let set = IndexSet::with_capacity(alloc, count)?;
        Ok(NumberedNames { set })
    }

    /// The number of the name; none where it isn't one of them. It takes no memory.
    pub fn number(&self, name: &[u8]) -> Option<usize>
        ensures { result ≡ place_of self.now name.now }
    {
        number_in(&self.set, NameKey::asked(name))
    }

    /// Whether the name is one of them. It takes no memory.
    pub fn has(&self, name: &[u8]) -> bool
        ensures { result ≡ is_name_among self.now name.now }
    {
        is_in(&self.set, NameKey::asked(name))
    }

    // Adds the name to the set.
    fn insert(&mut self, name: Name) -> Result<(), AllocError>
        ensures { OnOk result (self.new ≡ with_name self.old name) }
    {
        match self.set.insert(NameKey::kept(name)) {
            Ok(_) => Ok(()),
            Err(_) => Err(AllocError),
        }
    }

    /// Adds the name at the end, where it isn't one of them.
    pub(crate) fn put(&mut self, name: Name) -> Result<(), AllocError>
        ensures adds { OnOk result (AddsNames self.old self.new (name ∷ [])) }
        ensures last { OnOk result (is_name_among self.old name ≡ false → self.new ≡ self.old ++ name ∷ []) }
    {
        self.insert(name)?;
        Ok(())
    }

    /// Adds the name of these bytes, where it isn't one of them. Where it is, it takes no memory.
    pub(crate) fn put_bytes(&mut self, alloc: Global, bytes: &[u8]) -> Result<(), AllocError>
        ensures { OnOk result (AddsNames self.old self.new (bytes.now ∷ [])) }
    {
        if self.has(bytes) {
            return Ok(());
        }
        let name = Name::from_bytes(alloc, bytes)?;
        self.put(name)?;
        Ok(())
    }
}

/// The names of the classes, numbered as they stand. They share the bytes of the classes' own.
pub(crate) fn numbered(alloc: Global, classes: &[ClassFacts]) -> Result<NumberedNames, AllocError>
    requires { IsTrue (differ_by_name classes.now) }
    ensures { IfOk result (λ names. names ≡ names_at classes.now) }
{
    let mut names = NumberedNames::with_capacity(alloc, classes.len())?;
    for class in classes {
        let name = class.name.copy(alloc)?;
        names.put(name)?;
    }
    Ok(names)
}
