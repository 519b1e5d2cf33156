//! The items that entries of a constant pool give (JVMS 4.4, 5.4.3).
ghost use Rattle.std.specs.Prelude.{◌≡◌, ◌++◌, IfOk, OnOk, if◌then◌else◌};
ghost use Rattle.std.specs.Option.{option_map};
ghost use Rattle.jc_desc.specs.PoolAnswers.{class_in, handle_in};
ghost use Rattle.jc_pool.specs.Views.{member_view, handle_view};
ghost use Rattle.jc_facts.specs.declared.client.Item.TheVariants as item;
ghost use Rattle.jc_facts.specs.code.Code as code;
ghost use Rattle.jc_code.specs.steps.Pushed.{Adds};

use jc_attr::classes::is_bracketed;
use jc_desc::tags;
use jc_facts::act::Act;
use jc_facts::client::{Item, Place};
use jc_facts::key::Key;
use jc_pool::pool::{HandleRef, MemberRef, Pool};
use std::alloc::{AllocError, Global};

/// The item of a class.
pub(crate) fn class_item<'a>(
    alloc: Global,
    pool: &Pool<'a>,
    name: &'a [u8],
) -> Result<Item, AllocError>
    ensures { IfOk result (λ i. i ≡ item.Class name.now) }
{
    Ok(Item::Class {
        class: pool.name(alloc, name)?,
    })
}

/// An act on a member, with a receiver of this type.
pub(crate) fn access_item<'a>(
    alloc: Global,
    pool: &Pool<'a>,
    act: Act,
    m: MemberRef<'a>,
    receiver: Option<&'a [u8]>,
    place: Place,
) -> Result<Item, AllocError>
    ensures { IfOk result (λ i. i ≡ item.Access act m.entry.class.now (code.key_in (member_view m.entry)) (option_map (λ x. x.now) receiver.entry) place) }
{
    let receiver = match receiver {
        None => None,
        Some(name) => Some(pool.name(alloc, name)?),
    };
    let class = pool.name(alloc, m.class)?;
    let name = pool.name(alloc, m.name)?;
    let descriptor = pool.name(alloc, m.descriptor)?;
    Ok(Item::Access {
        act,
        class,
        key: Key { name, descriptor },
        receiver,
        place,
    })
}

/// A call of the `<init>` of this descriptor: of the own instance, or of a new object.
pub(crate) fn init_item<'a>(
    alloc: Global,
    pool: &Pool<'a>,
    own: bool,
    class: &'a [u8],
    descriptor: &'a [u8],
) -> Result<Item, AllocError>
    ensures { IfOk result (λ i. i ≡ (if own then item.Init class.now descriptor.now else item.New class.now descriptor.now)) }
{
    let class = pool.name(alloc, class)?;
    let descriptor = pool.name(alloc, descriptor)?;
    if own {
        Ok(Item::Init { class, descriptor })
    } else {
        Ok(Item::New { class, descriptor })
    }
}

/// An act on a member whose receiver isn't known, or the item of the array class that it names.
pub(crate) fn access<'a>(
    alloc: Global,
    pool: &Pool<'a>,
    act: Act,
    m: MemberRef<'a>,
    place: Place,
) -> Result<Item, AllocError>
    ensures { IfOk result (λ i. i ≡ code.access act (member_view m.entry) place) }
{
    if is_bracketed(m.class) {
        return class_item(alloc, pool, m.class);
    }
    access_item(alloc, pool, act, m, None, place)
}

/// A call of `<init>`, or the item of the array class that it names.
pub(crate) fn construct_item<'a>(
    alloc: Global,
    pool: &Pool<'a>,
    own: bool,
    m: MemberRef<'a>,
) -> Result<Item, AllocError>
    ensures { IfOk result (λ i. i ≡ code.of_member (member_view m.entry) (if own then item.Init m.entry.class.now m.entry.descriptor.now else item.New m.entry.class.now m.entry.descriptor.now)) }
{
    if is_bracketed(m.class) {
        return class_item(alloc, pool, m.class);
    }
    init_item(alloc, pool, own, m.class, m.descriptor)
}

/// The act for a method of a class or of an interface, as the reference says.
pub(crate) fn either(m: MemberRef<'_>, method: Act, interface: Act) -> Act
    ensures { result ≡ code.either (member_view m.entry) method interface }
{
    if m.tag == tags::INTERFACE_METHOD_REF {
        interface
    } else {
        method
    }
}

/// The item of a method handle, by its kind (JVMS 5.4.3.5).
#[tactic(auto, unfolding(jc_facts::specs::code::Code::handle_item))]
pub(crate) fn handle_item<'a>(
    alloc: Global,
    pool: &Pool<'a>,
    h: HandleRef<'a>,
) -> Result<Item, AllocError>
    ensures { IfOk result (λ i. i ≡ code.handle_item (handle_view h.entry)) }
{
    if h.kind == 1 {
        access(alloc, pool, Act::GetField, h.member, Place::Other)
    } else if h.kind == 2 {
        access(alloc, pool, Act::GetStatic, h.member, Place::Other)
    } else if h.kind == 3 {
        access(alloc, pool, Act::PutField, h.member, Place::Other)
    } else if h.kind == 4 {
        access(alloc, pool, Act::PutStatic, h.member, Place::Other)
    } else if h.kind == 5 {
        access(alloc, pool, Act::InvokeVirtual, h.member, Place::Other)
    } else if h.kind == 6 {
        access(
            alloc,
            pool,
            either(h.member, Act::InvokeStatic, Act::InvokeStaticInterface),
            h.member,
            Place::Other,
        )
    } else if h.kind == 7 {
        access(
            alloc,
            pool,
            either(h.member, Act::InvokeSpecial, Act::InvokeSpecialInterface),
            h.member,
            Place::Other,
        )
    } else if h.kind == 8 {
        construct_item(alloc, pool, false, h.member)
    } else {
        access(alloc, pool, Act::InvokeInterface, h.member, Place::Other)
    }
}

/// Adds the item of the Class at this index; false where there is none.
pub(crate) fn named(
    alloc: Global,
    pool: &Pool<'_>,
    i: u16,
    items: &mut Vec<Item>,
) -> Result<bool, AllocError>
    ensures { IfOk result (λ done. Adds items.old.items items.new.items (code.named pool.now i) done) }
{
    match pool.class(i) {
        None => Ok(false),
        Some(name) => {
            items.push(class_item(alloc, pool, name)?)?;
            Ok(true)
        }
    }
}

fn push_class(
    alloc: Global,
    pool: &Pool<'_>,
    i: u16,
    items: &mut Vec<Item>,
) -> Result<(), AllocError>
    ensures { OnOk result (items.new.items ≡ items.old.items ++ code.class_item (class_in pool.now i)) }
{
    match pool.class(i) {
        None => Ok(()),
        Some(name) => {
            items.push(class_item(alloc, pool, name)?)?;
            Ok(())
        }
    }
}

fn push_handle(
    alloc: Global,
    pool: &Pool<'_>,
    i: u16,
    items: &mut Vec<Item>,
) -> Result<(), AllocError>
    ensures { OnOk result (items.new.items ≡ items.old.items ++ code.handle_items (handle_in pool.now i)) }
{
    match pool.handle(i) {
        None => Ok(()),
        Some(h) => {
            items.push(handle_item(alloc, pool, h)?)?;
            Ok(())
        }
    }
}

/// Adds the item of the Class or the MethodHandle at this index, where there is one.
pub(crate) fn push_entry(
    alloc: Global,
    pool: &Pool<'_>,
    i: u16,
    items: &mut Vec<Item>,
) -> Result<(), AllocError>
    ensures { OnOk result (items.new.items ≡ items.old.items ++ (code.class_item (class_in pool.now i) ++ code.handle_items (handle_in pool.now i))) }
{
    push_class(alloc, pool, i, items)?;
    push_handle(alloc, pool, i, items)?;
    Ok(())
}

/// Whether the index holds an entry with this tag.
pub(crate) fn holds_tag(pool: &Pool<'_>, i: u16, tag: u8) -> bool
    ensures { result ≡ code.holds_tag pool.now i tag }
{
    match pool.tag(i) {
        None => false,
        Some(t) => t == tag,
    }
}
