//! What the pool entries of instructions give (JVMS 6.5). Each call that adds items answers `false` where the entry isn't of the
//! instruction's kinds.
ghost use Rattle.std.specs.Prelude.{◌≡◌, ◌&&◌, IfOk};
ghost use Rattle.std.specs.Option.{option_map};
ghost use Rattle.jc_desc.specs.Names.{is_init_name};
ghost use Rattle.jc_pool.specs.Views.{member_view};
ghost use Rattle.jc_facts.specs.code.Code as code;
ghost use Rattle.jc_code.specs.steps.Views.{around_view};
ghost use Rattle.jc_code.specs.steps.Pushed.{Adds};

use crate::around::Around;
use crate::bootstrap_items::dynamic_items;
use crate::entries::{access, construct_item, either, holds_tag, named, push_entry};
use crate::opcodes;
use jc_desc::names::{is_clinit, is_init};
use jc_desc::tags;
use jc_facts::act::Act;
use jc_facts::client::{Item, Place};
use jc_pool::pool::{MemberRef, Pool};
use std::alloc::{AllocError, Global};

/// The kind of method that has this name (JVMS 2.9).
pub(crate) fn place_of(name: &[u8]) -> Place
    ensures { result ≡ code.place_of name.now }
{
    if is_init(name) {
        Place::Init
    } else if is_clinit(name) {
        Place::Clinit
    } else {
        Place::Other
    }
}

/// Whether the name is that of the class or of its superclass.
pub(crate) fn is_own(a: Around<'_, '_>, name: &[u8]) -> bool
    ensures { result ≡ code.is_own (around_view a.entry) name.now }
{
    if name == a.class {
        return true;
    }
    match a.superclass {
        None => false,
        Some(superclass) => name == superclass,
    }
}

/// The member that a reference with one of these two tags names.
fn member_at<'a>(pool: &Pool<'a>, tag: u8, other: u8, i: u16) -> Option<MemberRef<'a>>
    ensures { option_map (λ m. member_view m) result ≡ code.member_at pool.now tag other i }
{
    match pool.member_ref(i) {
        None => None,
        Some(m) => {
            if m.tag == tag || m.tag == other {
                Some(m)
            } else {
                None
            }
        }
    }
}

/// The same, unless it is a Methodref of `<init>`.
fn plain_member<'a>(pool: &Pool<'a>, tag: u8, other: u8, i: u16) -> Option<MemberRef<'a>>
    ensures { option_map (λ m. member_view m) result ≡ code.plain_member pool.now tag other i }
{
    match member_at(pool, tag, other, i) {
        None => None,
        Some(m) => {
            if m.tag == tags::METHOD_REF && is_init(m.name) {
                None
            } else {
                Some(m)
            }
        }
    }
}

fn field_use(
    alloc: Global,
    a: Around<'_, '_>,
    act: Act,
    i: u16,
    items: &mut Vec<Item>,
) -> Result<bool, AllocError>
    ensures { IfOk result (λ done. Adds items.old.items items.new.items (code.field_use (around_view a.entry) act i) done) }
{
    match member_at(a.pool, tags::FIELD_REF, tags::FIELD_REF, i) {
        None => Ok(false),
        Some(m) => {
            items.push(access(alloc, a.pool, act, m, place_of(a.name))?)?;
            Ok(true)
        }
    }
}

fn initializes_itself(a: Around<'_, '_>, m: MemberRef<'_>) -> bool
    ensures { result ≡ (is_init_name a.entry.name.now && code.is_own (around_view a.entry) m.entry.class.now) }
{
    is_init(a.name) && is_own(a, m.class)
}

fn special_item<'a>(alloc: Global, a: Around<'a, '_>, m: MemberRef<'a>) -> Result<Item, AllocError>
    ensures { IfOk result (λ i. i ≡ code.special_item (around_view a.entry) (member_view m.entry)) }
{
    if is_init(m.name) {
        return construct_item(alloc, a.pool, initializes_itself(a, m), m);
    }
    let act = either(m, Act::InvokeSpecial, Act::InvokeSpecialInterface);
    access(alloc, a.pool, act, m, place_of(a.name))
}

fn loaded(
    alloc: Global,
    a: Around<'_, '_>,
    i: u16,
    items: &mut Vec<Item>,
) -> Result<bool, AllocError>
    ensures { IfOk result (λ done. Adds items.old.items items.new.items (code.loaded (around_view a.entry) i) done) }
{
    if holds_tag(a.pool, i, tags::DYNAMIC) {
        return dynamic_items(alloc, a, i, items);
    }
    if holds_tag(a.pool, i, tags::INTEGER)
        || holds_tag(a.pool, i, tags::FLOAT)
        || holds_tag(a.pool, i, tags::CLASS)
        || holds_tag(a.pool, i, tags::STRING)
        || holds_tag(a.pool, i, tags::METHOD_HANDLE)
        || holds_tag(a.pool, i, tags::METHOD_TYPE)
    {
        push_entry(alloc, a.pool, i, items)?;
        return Ok(true);
    }
    Ok(false)
}

fn loaded_wide(
    alloc: Global,
    a: Around<'_, '_>,
    i: u16,
    items: &mut Vec<Item>,
) -> Result<bool, AllocError>
    ensures { IfOk result (λ done. Adds items.old.items items.new.items (code.loaded_wide (around_view a.entry) i) done) }
{
    if holds_tag(a.pool, i, tags::DYNAMIC) {
        return dynamic_items(alloc, a, i, items);
    }
    Ok(holds_tag(a.pool, i, tags::LONG) || holds_tag(a.pool, i, tags::DOUBLE))
}

fn invoke_virtual(
    alloc: Global,
    a: Around<'_, '_>,
    i: u16,
    items: &mut Vec<Item>,
) -> Result<bool, AllocError>
    ensures { IfOk result (λ done. Adds items.old.items items.new.items (code.virtual_use (around_view a.entry) i) done) }
{
    match plain_member(a.pool, tags::METHOD_REF, tags::METHOD_REF, i) {
        None => Ok(false),
        Some(m) => {
            items.push(access(alloc, a.pool, Act::InvokeVirtual, m, place_of(a.name))?)?;
            Ok(true)
        }
    }
}

fn invoke_special(
    alloc: Global,
    a: Around<'_, '_>,
    i: u16,
    items: &mut Vec<Item>,
) -> Result<bool, AllocError>
    ensures { IfOk result (λ done. Adds items.old.items items.new.items (code.special_use (around_view a.entry) i) done) }
{
    match member_at(a.pool, tags::METHOD_REF, tags::INTERFACE_METHOD_REF, i) {
        None => Ok(false),
        Some(m) => {
            items.push(special_item(alloc, a, m)?)?;
            Ok(true)
        }
    }
}

fn invoke_static(
    alloc: Global,
    a: Around<'_, '_>,
    i: u16,
    items: &mut Vec<Item>,
) -> Result<bool, AllocError>
    ensures { IfOk result (λ done. Adds items.old.items items.new.items (code.static_use (around_view a.entry) i) done) }
{
    match plain_member(a.pool, tags::METHOD_REF, tags::INTERFACE_METHOD_REF, i) {
        None => Ok(false),
        Some(m) => {
            let act = either(m, Act::InvokeStatic, Act::InvokeStaticInterface);
            items.push(access(alloc, a.pool, act, m, place_of(a.name))?)?;
            Ok(true)
        }
    }
}

fn invoke_interface(
    alloc: Global,
    a: Around<'_, '_>,
    i: u16,
    items: &mut Vec<Item>,
) -> Result<bool, AllocError>
    ensures { IfOk result (λ done. Adds items.old.items items.new.items (code.interface_use (around_view a.entry) i) done) }
{
    match member_at(
        a.pool,
        tags::INTERFACE_METHOD_REF,
        tags::INTERFACE_METHOD_REF,
        i,
    ) {
        None => Ok(false),
        Some(m) => {
            items.push(access(alloc, a.pool, Act::InvokeInterface, m, place_of(a.name))?)?;
            Ok(true)
        }
    }
}

fn invoke_dynamic(
    alloc: Global,
    a: Around<'_, '_>,
    i: u16,
    items: &mut Vec<Item>,
) -> Result<bool, AllocError>
    ensures { IfOk result (λ done. Adds items.old.items items.new.items (code.dynamic_use (around_view a.entry) i) done) }
{
    if holds_tag(a.pool, i, tags::INVOKE_DYNAMIC) {
        dynamic_items(alloc, a, i, items)
    } else {
        Ok(false)
    }
}

/// Adds the items of an instruction with this opcode and pool index; false where the entry isn't of its kinds.
#[tactic(auto, unfolding(jc_facts::specs::code::Code::used))]
pub(crate) fn used(
    alloc: Global,
    a: Around<'_, '_>,
    op: u8,
    i: u16,
    items: &mut Vec<Item>,
) -> Result<bool, AllocError>
    ensures { IfOk result (λ done. Adds items.old.items items.new.items (code.used (around_view a.entry) op i) done) }
{
    if op == opcodes::NEW
        || op == opcodes::ANEWARRAY
        || op == opcodes::CHECKCAST
        || op == opcodes::INSTANCEOF
        || op == opcodes::MULTIANEWARRAY
    {
        named(alloc, a.pool, i, items)
    } else if op == opcodes::LDC || op == opcodes::LDC_W {
        loaded(alloc, a, i, items)
    } else if op == opcodes::LDC2_W {
        loaded_wide(alloc, a, i, items)
    } else if op == opcodes::GETSTATIC {
        field_use(alloc, a, Act::GetStatic, i, items)
    } else if op == opcodes::PUTSTATIC {
        field_use(alloc, a, Act::PutStatic, i, items)
    } else if op == opcodes::GETFIELD {
        field_use(alloc, a, Act::GetField, i, items)
    } else if op == opcodes::PUTFIELD {
        field_use(alloc, a, Act::PutField, i, items)
    } else if op == opcodes::INVOKEVIRTUAL {
        invoke_virtual(alloc, a, i, items)
    } else if op == opcodes::INVOKESPECIAL {
        invoke_special(alloc, a, i, items)
    } else if op == opcodes::INVOKESTATIC {
        invoke_static(alloc, a, i, items)
    } else if op == opcodes::INVOKEINTERFACE {
        invoke_interface(alloc, a, i, items)
    } else if op == opcodes::INVOKEDYNAMIC {
        invoke_dynamic(alloc, a, i, items)
    } else {
        Ok(true)
    }
}
