//! The keys of members that a class has or inherits.
ghost use Rattle.std.specs.Prelude.{◌≡◌, ◌<◌, IfOk, IsTrue, is_some};
ghost use Rattle.std.specs.List.{All, list_any};
ghost use Rattle.std.specs.BTreeSet.{IsOrdered};
ghost use Rattle.jc_facts.specs.world.World.{size};
ghost use Rattle.jc_facts.specs.KeyOrder.{key_cmp};
ghost use Rattle.jc_facts.specs.Exactly.{HasExactly};
ghost use Rattle.jc_worlds.specs.Hierarchy.{above};
ghost use Rattle.jc_index.specs.Ids.{name_at};
ghost use Rattle.jc_index.specs.Kinds.{own_of, declare_of};
ghost use Rattle.jc_table.specs.steps.Collecting.{Collects, declares_at, HasKeys};

use crate::table::Table;
use jc_facts::class_facts::ClassFacts;
use jc_facts::key::Key;
use jc_facts::key_set::KeyRef;
use jc_index::ids::ClassId;
use jc_index::members::{MemberKind, members};
use std::alloc::{AllocError, Global};
use std::collections::BTreeSet;

// Adds the keys of the class's own members.
fn add_class<'a>(
    keys: &mut BTreeSet<KeyRef<'a>>,
    class: &'a ClassFacts,
    kind: MemberKind,
) -> Result<(), AllocError>
    ensures { IfOk result (λ _. Collects (λ k. is_some (own_of kind class.now k)) keys.old keys.new) }
{
    for member in members(class, kind) {
        keys.insert(KeyRef::of_member(member))?;
    }
    Ok(())
}

// Adds the keys of the members that these classes declare.
fn add_all<'a>(
    keys: &mut BTreeSet<KeyRef<'a>>,
    table: &'a Table,
    ids: &[ClassId],
    kind: MemberKind,
) -> Result<(), AllocError>
    requires { All (λ id. id < size table.now) ids.now }
    ensures { IfOk result (λ _. Collects (λ k. list_any (declares_at (own_of kind) table.now k) ids.now) keys.old keys.new) }
{
    for id in ids {
        add_class(keys, table.facts(*id), kind)?;
    }
    Ok(())
}

// The keys of the members that the class, its superclasses and its superinterfaces declare.
fn keys_above<'a>(
    alloc: Global,
    table: &'a Table,
    class: ClassId,
    kind: MemberKind,
) -> Result<BTreeSet<KeyRef<'a>>, AllocError>
    requires { class < size table.now }
    ensures { IfOk result (HasKeys (own_of kind) table.now (name_at table.now class)) }
{
    let mut keys = BTreeSet::new(alloc);
    let mut next = Some(class);
    for done in 0..table.count() {
        let Some(class) = next else {
            return Ok(keys);
        };
        add_class(&mut keys, table.facts(class), kind)?;
        add_all(&mut keys, table, table.interfaces(class), kind)?;
        next = table.superclass(class);
    }
    Ok(keys)
}

// The same keys, each as one of its own, in their order.
fn to_keys(alloc: Global, set: &BTreeSet<KeyRef<'_>>) -> Result<Vec<Key>, AllocError>
    ensures value { IfOk result (λ keys. keys.items ≡ set.now.keys) }
    ensures ordered { IfOk result (λ _. IsOrdered key_cmp set.now) }
{
    let mut keys = Vec::new(alloc);
    for key in set {
        keys.push(key.to_key(alloc)?)?;
    }
    Ok(keys)
}

/// The keys of the fields or the methods that the class, its superclasses and its superinterfaces
/// declare, each once, in their order.
///
/// # Errors
///
/// `AllocError` where memory runs out.
pub fn keys_of(
    alloc: Global,
    table: &Table,
    class: ClassId,
    kind: MemberKind,
) -> Result<Vec<Key>, AllocError>
    requires { class < size table.now }
    ensures { IfOk result (λ keys. HasExactly key_cmp (λ k. IsTrue (declare_of kind (above table.now (name_at table.now class)) k)) keys.items) }
{
    let set = keys_above(alloc, table, class, kind)?;
    let keys = to_keys(alloc, &set)?;
    Ok(keys)
}
