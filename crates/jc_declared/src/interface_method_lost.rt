//! The rule on methods that interfaces don't inherit any more.
ghost use Rattle.std.specs.Prelude.{◌≡◌, ◌<◌, ◌&&◌, not, None, is_some, IsTrue};
ghost use Rattle.jc_facts.specs.declared.rule_numbers.TheConstants.{INTERFACE_METHOD_LOST};
ghost use Rattle.jc_facts.specs.Flags.{private_flag, no_static_flag};
ghost use Rattle.jc_facts.specs.world.Assignment.{is_interface_of};
ghost use Rattle.jc_facts.specs.world.Loading.{load_fault};
ghost use Rattle.jc_facts.specs.world.Lookup.{public_method_of_object};
ghost use Rattle.jc_facts.specs.world.World.{size};
ghost use Rattle.jc_promises.specs.rule.Bases.{is_base_interface};
ghost use Rattle.jc_facts.specs.world.Inheritance.{inherits};
ghost use Rattle.jc_declared.specs.steps.Changed.{changed_interface};
ghost use Rattle.jc_declared.specs.steps.Methods.{loses, has_lost_method};
ghost use Rattle.jc_sides.specs.Numbering.{AreNumbers};
ghost use Rattle.jc_sides.specs.SharedOf.{IsShared, name_of};
ghost use Rattle.jc_index.specs.Ids.{name_at};
ghost use Rattle.jc_rows.specs.Keys.{numbered_keys, IsNumber};

use jc_desc::names::is_initializer;
use jc_facts::act::Act;
use jc_facts::finding::Finding;
use jc_facts::flags::{is_private, is_public, is_static};
use jc_facts::key::Key;
use jc_facts::key_set::KeyRef;
use jc_facts::link_error::LinkError;
use jc_index::choose::any_candidate;
use jc_index::ids::ClassId;
use jc_index::members::own_method;
use jc_method::find::find_interface_method_by_number;
use jc_sides::broken::{BrokenAct, broken_where};
use jc_sides::item_rule::ItemRule;
use jc_sides::key_numbers::KeyNumbers;
use jc_sides::members::Members;
use jc_sides::shared::Shared;
use jc_sides::sides::Sides;
use jc_table::table::Table;

// Whether the class java/lang/Object has a public instance method of the key (JVMS 5.4.3.4).
fn is_of_object(table: &Table, key: &Key) -> bool
    ensures { result ≡ is_some (public_method_of_object table.now key.now) }
{
    let Some(root) = table.get(b"java/lang/Object") else {
        return false;
    };
    match own_method(table.facts(root), &KeyRef::of_key(key)) {
        None => false,
        Some(method) => is_public(method.flags) && !is_static(method.flags),
    }
}

// Whether the flags are those of an instance method that isn't private.
fn are_inheritable(flags: u16) -> bool
    ensures { result ≡ (no_static_flag flags && not (private_flag flags)) }
{
    !is_static(flags) && !is_private(flags)
}

// Whether the interface or one above it declares the key as such a method, where java/lang/Object
// has no public instance method of it. It is looked up in the interface's row.
fn inherits(table: &Table, class: ClassId, key: &Key, number: Option<usize>) -> bool
    requires class { class < size table.now }
    requires loads { load_fault table.now (name_at table.now class) ≡ None }
    requires kind { IsTrue (is_interface_of table.now (name_at table.now class)) }
    requires number { IsNumber (numbered_keys table.now) key.now number }
    ensures { public_method_of_object table.now key.now ≡ None → result ≡ inherits table.now (name_at table.now class) key.now }
{
    let _classes = table.count();
    let Some(found) = find_interface_method_by_number(table, class, key, number) else {
        return false;
    };
    if are_inheritable(found.flags) {
        return true;
    }
    // The interface's own, static or private, which hides what is above it. They are few, and walked
    // to.
    any_candidate(table.hierarchy(), class, key).is_some()
}

// Whether the base interface inherited the key and doesn't any more, where java/lang/Object has no
// public instance method of it.
fn is_lost(sides: &Sides<'_>, class: &Shared<'_>, key: &Key, numbers: &KeyNumbers) -> bool
    requires shared { IsShared sides.now «class».now }
    requires covered { IsTrue (is_base_interface sides.now.old sides.now.new (name_of «class».now)) }
    requires numbers { AreNumbers sides.now key.now numbers.now }
    ensures { public_method_of_object sides.now.old key.now ≡ None → result ≡ loses sides.now (name_of «class».now) key.now }
{
    inherits(sides.old, class.old, key, numbers.old)
        && !inherits(sides.new, class.new, key, numbers.new)
}

// Whether the base interface has lost the method of the key. Few seem lost, and of these alone the
// key is looked up in java/lang/Object.
fn loses_method(sides: &Sides<'_>, class: &Shared<'_>, key: &Key, numbers: &KeyNumbers) -> bool
    requires shared { IsShared sides.now «class».now }
    requires covered { IsTrue (is_base_interface sides.now.old sides.now.new (name_of «class».now)) }
    requires numbers { AreNumbers sides.now key.now numbers.now }
    ensures { result ≡ has_lost_method sides.now (name_of «class».now) key.now }
{
    if is_initializer(key.name.as_bytes()) {
        return false;
    }
    is_lost(sides, class, key, numbers) && !is_of_object(sides.old, key)
}

/// Methods that interfaces inherited and don't any more (JVMS 5.4.3.4). A public instance method of
/// `java/lang/Object` is still found.
pub struct InterfaceMethodLost;

impl ItemRule for InterfaceMethodLost {
    type Item = Finding;

    ghost rule = { INTERFACE_METHOD_LOST };

    ghost covers = { changed_interface };

    fn members(&self) -> Members {
        Members::OldMethods
    }

    fn on_key(
        &self,
        sides: &Sides<'_>,
        class: &Shared<'_>,
        key: &Key,
        numbers: &KeyNumbers,
    ) -> Option<BrokenAct<'_>> {
        let lost = loses_method(sides, class, key, numbers);
        broken_where(lost, Act::Inherit, LinkError::NoSuchMethodError)
    }
}
