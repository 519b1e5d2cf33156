//! What field and invoke acts of straight-line methods do (JVMS 6.5). Each call answers `false` where the method isn't straight.
ghost use Rattle.std.specs.Prelude.{◌≡◌, IfOk, OnOk};
ghost use Rattle.std.specs.Option.{option_map};
ghost use Rattle.jc_facts.specs.code.Typing as typing;
ghost use Rattle.jc_pool.specs.Views.{member_view};
ghost use Rattle.jc_code.specs.steps.Views.{around_view};
ghost use Rattle.jc_code.specs.steps.KindView.{kind_view, kinds_in};
ghost use Rattle.jc_code.specs.steps.FrameView.{frame_view};
ghost use Rattle.jc_code.specs.steps.Steps.{Makes};

use crate::around::Around;
use crate::entries::access_item;
use crate::frame::{Frame, pop, push, take};
use crate::kinds::{Kind, field_kind, method_kinds};
use crate::uses::place_of;
use crate::values::{fit, fit_all, receiver};
use jc_facts::act::Act;
use jc_facts::client::Item;
use jc_pool::pool::MemberRef;
use std::alloc::{AllocError, Global};

/// An act on a member that is not of an array class, with this receiver.
fn use_of<'a>(
    alloc: Global,
    a: Around<'a, '_>,
    act: Act,
    m: MemberRef<'a>,
    receiver: Option<&'a [u8]>,
) -> Result<Item, AllocError>
    ensures { IfOk result (λ i. i ≡ typing.use_of (around_view a.entry) act (member_view m.entry) (option_map (λ x. x.now) receiver.entry)) }
{
    access_item(alloc, a.pool, act, m, receiver, place_of(a.name))
}

#[tactic(auto, unfolding(jc_facts::specs::code::Typing::get_static))]
fn get_static<'a>(
    alloc: Global,
    a: Around<'a, '_>,
    m: MemberRef<'a>,
    frame: &mut Frame<'a>,
    items: &mut Vec<Item>,
) -> Result<bool, AllocError>
    ensures { IfOk result (λ done. Makes items.old.items items.new.items (frame_view frame.new) (typing.get_static (around_view a.entry) (member_view m.entry) (frame_view frame.old)) done) }
{
    let Some(kind) = field_kind(m.descriptor) else {
        return Ok(false);
    };
    items.push(use_of(alloc, a, Act::GetStatic, m, None)?)?;
    push(&mut frame.stack, kind)?;
    Ok(true)
}

#[tactic(auto, using(crate::proofs::Added::fit_after), unfolding(jc_facts::specs::code::Typing::put_static))]
fn put_static<'a>(
    alloc: Global,
    a: Around<'a, '_>,
    m: MemberRef<'a>,
    frame: &mut Frame<'a>,
    items: &mut Vec<Item>,
) -> Result<bool, AllocError>
    ensures { IfOk result (λ done. Makes items.old.items items.new.items (frame_view frame.new) (typing.put_static (around_view a.entry) (member_view m.entry) (frame_view frame.old)) done) }
{
    let Some(kind) = field_kind(m.descriptor) else {
        return Ok(false);
    };
    let Some(value) = pop(&mut frame.stack) else {
        return Ok(false);
    };
    items.push(use_of(alloc, a, Act::PutStatic, m, None)?)?;
    let fits = fit(alloc, a.pool, value, kind, items)?;
    Ok(fits)
}

#[tactic(auto, unfolding(jc_facts::specs::code::Typing::get_field))]
fn get_field<'a>(
    alloc: Global,
    a: Around<'a, '_>,
    m: MemberRef<'a>,
    frame: &mut Frame<'a>,
    items: &mut Vec<Item>,
) -> Result<bool, AllocError>
    ensures { IfOk result (λ done. Makes items.old.items items.new.items (frame_view frame.new) (typing.get_field (around_view a.entry) (member_view m.entry) (frame_view frame.old)) done) }
{
    let Some(kind) = field_kind(m.descriptor) else {
        return Ok(false);
    };
    let Some(top) = pop(&mut frame.stack) else {
        return Ok(false);
    };
    let Some(r) = receiver(top) else {
        return Ok(false);
    };
    items.push(use_of(alloc, a, Act::GetField, m, r)?)?;
    push(&mut frame.stack, kind)?;
    Ok(true)
}

#[tactic(auto, using(crate::proofs::Added::fit_after), unfolding(jc_facts::specs::code::Typing::put_field))]
fn put_field<'a>(
    alloc: Global,
    a: Around<'a, '_>,
    m: MemberRef<'a>,
    frame: &mut Frame<'a>,
    items: &mut Vec<Item>,
) -> Result<bool, AllocError>
    ensures { IfOk result (λ done. Makes items.old.items items.new.items (frame_view frame.new) (typing.put_field (around_view a.entry) (member_view m.entry) (frame_view frame.old)) done) }
{
    let Some(kind) = field_kind(m.descriptor) else {
        return Ok(false);
    };
    let Some(value) = pop(&mut frame.stack) else {
        return Ok(false);
    };
    let Some(top) = pop(&mut frame.stack) else {
        return Ok(false);
    };
    let Some(r) = receiver(top) else {
        return Ok(false);
    };
    items.push(use_of(alloc, a, Act::PutField, m, r)?)?;
    let fits = fit(alloc, a.pool, value, kind, items)?;
    Ok(fits)
}

fn push_result<'a>(stack: &mut Vec<Kind<'a>>, given: Option<Kind<'a>>) -> Result<(), AllocError>
    ensures { OnOk result (kinds_in stack.new.items ≡ typing.with_result (option_map (λ k. kind_view k) given.entry) (kinds_in stack.old.items)) }
{
    match given {
        None => Ok(()),
        Some(kind) => push(stack, kind),
    }
}

/// `invokestatic`
#[tactic(auto, unfolding(jc_facts::specs::code::Typing::call_static))]
fn call_static<'a>(
    alloc: Global,
    a: Around<'a, '_>,
    act: Act,
    m: MemberRef<'a>,
    frame: &mut Frame<'a>,
    items: &mut Vec<Item>,
) -> Result<bool, AllocError>
    ensures { IfOk result (λ done. Makes items.old.items items.new.items (frame_view frame.new) (typing.call_static (around_view a.entry) act (member_view m.entry) (frame_view frame.old)) done) }
{
    let Some(kinds) = method_kinds(alloc, m.descriptor)? else {
        return Ok(false);
    };
    let Some(args) = take(alloc, &mut frame.stack, kinds.params.len())? else {
        return Ok(false);
    };
    items.push(use_of(alloc, a, act, m, None)?)?;
    let fits = fit_all(
        alloc,
        a.pool,
        args.as_slice(),
        kinds.params.as_slice(),
        items,
    )?;
    push_result(&mut frame.stack, kinds.result)?;
    Ok(fits)
}

/// `invokevirtual`, `invokeinterface`, and `invokespecial` of another name than `<init>`
#[tactic(auto, unfolding(jc_facts::specs::code::Typing::call))]
fn call<'a>(
    alloc: Global,
    a: Around<'a, '_>,
    act: Act,
    m: MemberRef<'a>,
    frame: &mut Frame<'a>,
    items: &mut Vec<Item>,
) -> Result<bool, AllocError>
    ensures { IfOk result (λ done. Makes items.old.items items.new.items (frame_view frame.new) (typing.call (around_view a.entry) act (member_view m.entry) (frame_view frame.old)) done) }
{
    let Some(kinds) = method_kinds(alloc, m.descriptor)? else {
        return Ok(false);
    };
    let Some(args) = take(alloc, &mut frame.stack, kinds.params.len())? else {
        return Ok(false);
    };
    let Some(top) = pop(&mut frame.stack) else {
        return Ok(false);
    };
    let Some(r) = receiver(top) else {
        return Ok(false);
    };
    items.push(use_of(alloc, a, act, m, r)?)?;
    let fits = fit_all(
        alloc,
        a.pool,
        args.as_slice(),
        kinds.params.as_slice(),
        items,
    )?;
    push_result(&mut frame.stack, kinds.result)?;
    Ok(fits)
}

/// A field or invoke act on a member that is not of an array class.
#[tactic(auto, unfolding(jc_facts::specs::code::Typing::act_on))]
pub(crate) fn act_on<'a>(
    alloc: Global,
    a: Around<'a, '_>,
    act: Act,
    m: MemberRef<'a>,
    frame: &mut Frame<'a>,
    items: &mut Vec<Item>,
) -> Result<bool, AllocError>
    ensures { IfOk result (λ done. Makes items.old.items items.new.items (frame_view frame.new) (typing.act_on (around_view a.entry) act (member_view m.entry) (frame_view frame.old)) done) }
{
    match act {
        Act::GetStatic => get_static(alloc, a, m, frame, items),
        Act::PutStatic => put_static(alloc, a, m, frame, items),
        Act::GetField => get_field(alloc, a, m, frame, items),
        Act::PutField => put_field(alloc, a, m, frame, items),
        Act::InvokeStatic => call_static(alloc, a, Act::InvokeStatic, m, frame, items),
        Act::InvokeStaticInterface => {
            call_static(alloc, a, Act::InvokeStaticInterface, m, frame, items)
        }
        _ => call(alloc, a, act, m, frame, items),
    }
}
