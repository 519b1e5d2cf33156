//! Keys of which classes have otherwise on the new side: none of them has to be looked at elsewhere.
ghost use Rattle.std.specs.Prelude.{◌≡◌, ◌<◌, ℕ, Some, IfOk, OnOk};
ghost use Rattle.std.specs.Cmp.Lexicographic.{pointwise};
ghost use Rattle.jc_facts.specs.Records.{same_member};
ghost use Rattle.jc_facts.specs.Names.{key_of};
ghost use Rattle.jc_facts.specs.world.World.{size};
ghost use Rattle.jc_select.specs.steps.Changes.{same_kind, differs, HasChanged, AreChanges};
ghost use Rattle.jc_sides.specs.steps.KeySets.{AddsKeys, has_member};
ghost use Rattle.jc_index.specs.Ids.{name_at, id_of};

use crate::chain::own_kind;
use jc_base::items::Items;
use jc_facts::class_facts::ClassFacts;
use jc_facts::key::Key;
use jc_facts::warning::ChainKind;
use jc_index::ids::ClassId;
use jc_index::members::key_of_member;
use jc_sides::members::push_if;
use jc_sides::sides::Sides;
use std::alloc::{AllocError, Global};

// Whether the two are the same.
fn is_same(before: ChainKind, now: ChainKind) -> bool
    ensures { result ≡ same_kind before now }
{
    match before {
        ChainKind::Nothing => matches!(now, ChainKind::Nothing),
        ChainKind::Abstract => matches!(now, ChainKind::Abstract),
        ChainKind::Concrete => matches!(now, ChainKind::Concrete),
    }
}

// Whether the new class doesn't have the same of the key as the old one.
fn differs(sides: &Sides<'_>, before: ClassId, now: ClassId, key: &Key) -> bool
    requires before { before < size sides.now.old }
    requires now { now < size sides.now.new }
    ensures { result ≡ differs sides.now before now key.now }
{
    let had = own_kind(sides.old, before, key);
    let has = own_kind(sides.new, now, key);
    !is_same(had, has)
}

// Adds the keys of the methods of this record of which the new class doesn't have the same.
fn add_changed(
    alloc: Global,
    keys: &mut Vec<Key>,
    sides: &Sides<'_>,
    before: ClassId,
    now: ClassId,
    class: &ClassFacts,
) -> Result<(), AllocError>
    requires before { before < size sides.now.old }
    requires now { now < size sides.now.new }
    ensures { OnOk result (AddsKeys (has_member (λ m. differs sides.now before now (key_of m)) «class».now.methods) keys.old.items keys.new.items) }
{
    for method in class.methods.as_slice() {
        let key = key_of_member(alloc, method)?;
        let wanted = differs(sides, before, now, &key);
        push_if(alloc, keys, method, wanted)?;
    }
    Ok(())
}

// Whether the two declare the same methods.
fn have_same_methods(before: &ClassFacts, now: &ClassFacts) -> bool
    ensures { result ≡ pointwise same_member before.now.methods now.now.methods }
{
    before.methods == now.methods
}

// The keys of which the new class doesn't have the same.
fn changed_keys(
    alloc: Global,
    sides: &Sides<'_>,
    before: ClassId,
    now: ClassId,
) -> Result<Vec<Key>, AllocError>
    requires before { before < size sides.now.old }
    requires now { now < size sides.now.new }
    ensures { IfOk result (λ keys. HasChanged sides.now before now keys.items) }
{
    let old = sides.old.facts(before);
    let new = sides.new.facts(now);
    let mut keys = Vec::new(alloc);
    if have_same_methods(old, new) {
        return Ok(keys);
    }
    add_changed(alloc, &mut keys, sides, before, now, old)?;
    add_changed(alloc, &mut keys, sides, before, now, new)?;
    Ok(keys)
}

// The same of the new class of the same name, if there is one. A class of the platform is the same.
fn changes_of(alloc: Global, sides: &Sides<'_>, class: ClassId) -> Result<Vec<Key>, AllocError>
    requires { «class» < size sides.now.old }
    ensures { IfOk result (λ keys. (j : ℕ) → id_of sides.now.new (name_at sides.now.old «class») ≡ Some j → HasChanged sides.now «class» j keys.items) }
{
    if sides.old.in_platform(class) {
        return Ok(Vec::new(alloc));
    }
    let Some(now) = sides.new_id(class) else {
        return Ok(Vec::new(alloc));
    };
    let keys = changed_keys(alloc, sides, class, now)?;
    Ok(keys)
}

/// For each class of the old side the keys of methods of which the new class of its name doesn't have
/// the same, in any order, and maybe twice.
///
/// # Errors
///
/// `AllocError` where memory runs out.
pub fn changes(alloc: Global, sides: &Sides<'_>) -> Result<Vec<Items<Key>>, AllocError>
    ensures { IfOk result (λ changes. AreChanges sides.now changes.items) }
{
    let mut changes = Vec::with_capacity(alloc, sides.old.count() as usize)?;
    for n in 0..sides.old.count() {
        let id = sides.old.id(n).unwrap();
        let keys = changes_of(alloc, sides, id)?;
        changes.push(Items::from_vec(keys))?;
    }
    Ok(changes)
}
