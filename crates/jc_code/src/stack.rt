//! What the instructions of straight-line methods that use no member do to the stack and the locals (JVMS 6.5).
//! Each call answers `false` where the method isn't straight.
ghost use Rattle.std.specs.Prelude.{◌≡◌, ◌≤◌, IfOk};
ghost use Rattle.jc_facts.specs.code.Typing as typing;
ghost use Rattle.jc_code.specs.steps.KindView.{kind_view};
ghost use Rattle.jc_code.specs.steps.FrameView.{frame_view};
ghost use Rattle.jc_code.specs.steps.Steps.{Makes};

use crate::entries::class_item;
use crate::frame::{Frame, is_unset, local, of_number, pop, push, put, takes_two};
use crate::kinds::Kind;
use crate::values::receiver;
use jc_facts::client::Item;
use jc_pool::pool::Pool;
use std::alloc::{AllocError, Global};

/// Puts a value of this kind on top.
pub(crate) fn push_only<'a>(
    frame: &mut Frame<'a>,
    kind: Kind<'a>,
    items: &mut Vec<Item>,
) -> Result<bool, AllocError>
    ensures { IfOk result (λ done. Makes items.old.items items.new.items (frame_view frame.new) (typing.push (frame_view frame.old) (kind_view kind.entry)) done) }
{
    push(&mut frame.stack, kind)?;
    Ok(true)
}

/// Puts the local at this place on top, which must be of the kind of this number.
#[tactic(auto, unfolding(jc_facts::specs::code::Typing::load))]
pub(crate) fn load<'a>(
    number: u8,
    place: usize,
    frame: &mut Frame<'a>,
    items: &mut Vec<Item>,
) -> Result<bool, AllocError>
    ensures { IfOk result (λ done. Makes items.old.items items.new.items (frame_view frame.new) (typing.load number place (frame_view frame.old)) done) }
{
    let kind = local(frame.locals.as_slice(), place);
    if !of_number(number, kind) {
        return Ok(false);
    }
    push(&mut frame.stack, kind)?;
    Ok(true)
}

/// Puts the top, which must be of the kind of this number, into the local at this place.
#[tactic(auto, unfolding(jc_facts::specs::code::Typing::store))]
pub(crate) fn store<'a>(
    number: u8,
    place: usize,
    frame: &mut Frame<'a>,
    items: &mut Vec<Item>,
) -> Result<bool, AllocError>
    requires { place ≤ 255 }
    ensures { IfOk result (λ done. Makes items.old.items items.new.items (frame_view frame.new) (typing.store number place (frame_view frame.old)) done) }
{
    let Some(kind) = pop(&mut frame.stack) else {
        return Ok(false);
    };
    if of_number(number, kind) && !is_unset(kind) {
        put(&mut frame.locals, place, kind)?;
        Ok(true)
    } else {
        Ok(false)
    }
}

/// `dup`
#[tactic(auto, unfolding(jc_facts::specs::code::Typing::dup))]
pub(crate) fn dup<'a>(frame: &mut Frame<'a>, items: &mut Vec<Item>) -> Result<bool, AllocError>
    ensures { IfOk result (λ done. Makes items.old.items items.new.items (frame_view frame.new) (typing.dup (frame_view frame.old)) done) }
{
    let Some(kind) = pop(&mut frame.stack) else {
        return Ok(false);
    };
    if takes_two(kind) {
        return Ok(false);
    }
    push(&mut frame.stack, kind)?;
    push(&mut frame.stack, kind)?;
    Ok(true)
}

/// `pop`
#[tactic(auto, unfolding(jc_facts::specs::code::Typing::pop_one))]
pub(crate) fn pop_one<'a>(frame: &mut Frame<'a>, items: &mut Vec<Item>) -> Result<bool, AllocError>
    ensures { IfOk result (λ done. Makes items.old.items items.new.items (frame_view frame.new) (typing.pop_one (frame_view frame.old)) done) }
{
    match pop(&mut frame.stack) {
        None => Ok(false),
        Some(kind) => Ok(!takes_two(kind)),
    }
}

/// `pop2`
#[tactic(auto, unfolding(jc_facts::specs::code::Typing::pop_two))]
pub(crate) fn pop_two<'a>(frame: &mut Frame<'a>, items: &mut Vec<Item>) -> Result<bool, AllocError>
    ensures { IfOk result (λ done. Makes items.old.items items.new.items (frame_view frame.new) (typing.pop_two (frame_view frame.old)) done) }
{
    let Some(kind) = pop(&mut frame.stack) else {
        return Ok(false);
    };
    if takes_two(kind) {
        return Ok(true);
    }
    match pop(&mut frame.stack) {
        None => Ok(false),
        Some(next) => Ok(!takes_two(next)),
    }
}

/// A Class item of this name, with this kind on top.
pub(crate) fn push_with<'a>(
    alloc: Global,
    pool: &Pool<'a>,
    name: &'a [u8],
    gives: Kind<'a>,
    frame: &mut Frame<'a>,
    items: &mut Vec<Item>,
) -> Result<bool, AllocError>
    ensures { IfOk result (λ done. Makes items.old.items items.new.items (frame_view frame.new) (typing.push_with (frame_view frame.old) name.now (kind_view gives.entry)) done) }
{
    items.push(class_item(alloc, pool, name)?)?;
    push(&mut frame.stack, gives)?;
    Ok(true)
}

/// `checkcast` and `instanceof`.
#[tactic(auto, unfolding(jc_facts::specs::code::Typing::cast))]
pub(crate) fn cast<'a>(
    alloc: Global,
    pool: &Pool<'a>,
    name: &'a [u8],
    gives: Kind<'a>,
    frame: &mut Frame<'a>,
    items: &mut Vec<Item>,
) -> Result<bool, AllocError>
    ensures { IfOk result (λ done. Makes items.old.items items.new.items (frame_view frame.new) (typing.cast name.now (kind_view gives.entry) (frame_view frame.old)) done) }
{
    let Some(top) = pop(&mut frame.stack) else {
        return Ok(false);
    };
    match receiver(top) {
        None => Ok(false),
        Some(_) => {
            items.push(class_item(alloc, pool, name)?)?;
            push(&mut frame.stack, gives)?;
            Ok(true)
        }
    }
}
