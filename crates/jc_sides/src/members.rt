//! The members of which a rule may speak, and their keys.
ghost use Rattle.std.specs.Prelude.{◌≡◌, ◌<◌, ◌&&◌, IfOk, IfSome, OnOk, IsTrue};
ghost use Rattle.jc_facts.specs.Names.{is_key};
ghost use Rattle.jc_desc.specs.Names.{is_init_name};
ghost use Rattle.jc_facts.specs.world.World.{size};
ghost use Rattle.jc_promises.specs.rule.Bases.{is_kept};
ghost use Rattle.jc_facts.specs.world.Inheritance.{is_open_final, is_final_in_chain};
ghost use Rattle.jc_index.specs.Ids.{name_at};
ghost use Rattle.jc_table.specs.RowKeys.{keys_of_row};
ghost use Rattle.jc_sides.specs.Members.{is_member, HasAll};
ghost use Rattle.jc_sides.specs.SharedOf.{IsShared, name_of};
ghost use Rattle.jc_sides.specs.steps.KeySets.{AddsKeys, has_member};

use crate::shared::{Shared, before};
use crate::sides::Sides;
use jc_desc::names::is_init;
use jc_facts::class_facts::{ClassFacts, Member};
use jc_facts::flags::{is_final, is_protected, is_public, is_static};
use jc_facts::key::Key;
use jc_field::keys::found_field_keys;
use jc_index::ids::ClassId;
use jc_index::members::key_of_member;
use jc_method::keys::found_method_keys;
use jc_rows::row::RowItem;
use jc_table::table::Table;
use std::alloc::{AllocError, Global};

/// Of which members of a class a rule may speak. Those that a class has are what references to it
/// find (JVMS 5.4.3.2 to 5.4.3.4).
#[derive(Clone, Copy)]
pub enum Members {
    /// The instance initializers that it declared (JVMS 2.9.1).
    OldInitializers,
    /// The fields that it had.
    OldFields,
    /// The methods that it had.
    OldMethods,
    /// The fields that it has now.
    NewFields,
    /// The methods that it has now.
    NewMethods,
    /// The methods of its chain that may not be overridden now (JVMS 5.4.5).
    NewFinals,
}

/// Adds the member's key, if it is wanted.
///
/// # Errors
///
/// `AllocError` where memory runs out.
pub fn push_if(
    alloc: Global,
    keys: &mut Vec<Key>,
    member: &Member,
    wanted: bool,
) -> Result<(), AllocError>
    ensures { OnOk result (AddsKeys (λ q. wanted && is_key q member.now) keys.old.items keys.new.items) }
{
    if wanted {
        keys.push(key_of_member(alloc, member)?)?;
    }
    Ok(())
}

// The keys of the class's initializers.
fn init_keys(alloc: Global, class: &ClassFacts) -> Result<Vec<Key>, AllocError>
    ensures { IfOk result (λ keys. HasAll (has_member (λ m. is_init_name m.name) class.now.methods) keys.items) }
{
    let mut keys = Vec::new(alloc);
    for method in class.methods.as_slice() {
        let wanted = is_init(method.name.as_bytes());
        push_if(alloc, &mut keys, method, wanted)?;
    }
    Ok(keys)
}

// Whether subclasses can see the method and may not override it.
fn is_open_final(method: &Member) -> bool
    ensures { result ≡ is_open_final method.now }
{
    let flags = method.flags;
    is_final(flags) && !is_static(flags) && (is_public(flags) || is_protected(flags))
}

// Adds the keys of the class's methods that may not be overridden.
fn add_finals(alloc: Global, keys: &mut Vec<Key>, class: &ClassFacts) -> Result<(), AllocError>
    ensures { OnOk result (AddsKeys (has_member is_open_final class.now.methods) keys.old.items keys.new.items) }
{
    for method in class.methods.as_slice() {
        let wanted = is_open_final(method);
        push_if(alloc, keys, method, wanted)?;
    }
    Ok(())
}

// The keys of the methods of the class's chain that may not be overridden, by a walk: in the row of
// the class a static or a private method may hide one.
fn final_keys(alloc: Global, table: &Table, class: ClassId) -> Result<Vec<Key>, AllocError>
    requires { class < size table.now }
    ensures { IfOk result (λ keys. HasAll (is_final_in_chain table.now (name_at table.now class)) keys.items) }
{
    let mut keys = Vec::new(alloc);
    let mut next = Some(class);
    for done in 0..table.count() {
        let Some(class) = next else {
            return Ok(keys);
        };
        add_finals(alloc, &mut keys, table.facts(class))?;
        next = table.superclass(class);
    }
    Ok(keys)
}

/// The row of the old side that has these members of the kept class; none where they are of the new
/// side or stand in no row, or where no row is made of the class.
pub(crate) fn old_row<'a>(
    sides: &Sides<'a>,
    class: &Shared<'_>,
    members: Members,
) -> Option<&'a [RowItem]>
    requires shared { IsShared sides.now «class».now }
    requires kept { IsTrue (is_kept sides.now.old sides.now.new (name_of «class».now)) }
    ensures { IfSome result (λ row. HasAll (is_member members sides.now (name_of «class».now)) (keys_of_row sides.now.old row.now)) }
{
    match members {
        Members::OldFields => sides.old.field_row(class.old),
        Members::OldMethods => sides.old.method_row(class.old),
        _ => None,
    }
}

/// The same of the new side.
pub(crate) fn new_row<'a>(
    sides: &Sides<'a>,
    class: &Shared<'_>,
    members: Members,
) -> Option<&'a [RowItem]>
    requires shared { IsShared sides.now «class».now }
    requires kept { IsTrue (is_kept sides.now.old sides.now.new (name_of «class».now)) }
    ensures { IfSome result (λ row. HasAll (is_member members sides.now (name_of «class».now)) (keys_of_row sides.now.new row.now)) }
{
    match members {
        Members::NewFields => sides.new.field_row(class.new),
        Members::NewMethods => sides.new.method_row(class.new),
        _ => None,
    }
}

/// The keys of these members of the kept class, in any order, and maybe further ones, by a walk over
/// the records. It is for those that stand in no row: initializers, of which a class has few, final
/// methods of a chain, of which few pass, and all members of a class of which no row is made.
///
/// # Errors
///
/// `AllocError` where memory runs out.
pub fn keys_of(
    alloc: Global,
    sides: &Sides<'_>,
    class: &Shared<'_>,
    members: Members,
) -> Result<Vec<Key>, AllocError>
    requires shared { IsShared sides.now «class».now }
    requires kept { IsTrue (is_kept sides.now.old sides.now.new (name_of «class».now)) }
    ensures { IfOk result (λ keys. HasAll (is_member members sides.now (name_of «class».now)) keys.items) }
{
    match members {
        Members::OldInitializers => init_keys(alloc, before(sides, class)),
        Members::OldFields => found_field_keys(alloc, sides.old, class.old),
        Members::OldMethods => found_method_keys(alloc, sides.old, class.old),
        Members::NewFields => found_field_keys(alloc, sides.new, class.new),
        Members::NewMethods => found_method_keys(alloc, sides.new, class.new),
        Members::NewFinals => final_keys(alloc, sides.new, class.new),
    }
}
