//! The return of a straight-line method (JVMS 4.10.1.9, 6.5.return).
ghost use Rattle.std.specs.Prelude.{◌≡◌, ◌≤◌, IfOk};
ghost use Rattle.std.specs.Option.{option_map};
ghost use Rattle.jc_facts.specs.code.Typing as typing;
ghost use Rattle.jc_code.specs.steps.Views.{around_view};
ghost use Rattle.jc_code.specs.steps.KindView.{kind_view, kinds_in};
ghost use Rattle.jc_code.specs.steps.FrameView.{frame_view};
ghost use Rattle.jc_code.specs.steps.Pushed.{Adds};

use crate::around::Around;
use crate::frame::{Frame, of_number, pop, some_unset};
use crate::kinds::Kind;
use crate::lengths::between;
use crate::opcodes;
use crate::values::fit;
use jc_desc::names::is_init;
use jc_facts::client::Item;
use jc_pool::pool::Pool;
use std::alloc::{AllocError, Global};

pub(crate) fn is_return(op: u8) -> bool
    ensures { result ≡ typing.is_return op }
{
    between(opcodes::IRETURN, opcodes::RETURN, op)
}

#[tactic(auto, unfolding(jc_facts::specs::code::Typing::value_fits))]
fn value_fits<'a>(
    alloc: Global,
    pool: &Pool<'a>,
    op: u8,
    stack: &mut Vec<Kind<'a>>,
    due: Kind<'a>,
    items: &mut Vec<Item>,
) -> Result<bool, AllocError>
    requires { 172 ≤ op }
    ensures { IfOk result (λ done. Adds items.old.items items.new.items (typing.value_fits op (kinds_in stack.old.items) (kind_view due.entry)) done) }
{
    if op == opcodes::RETURN {
        return Ok(false);
    }
    let Some(top) = pop(stack) else {
        return Ok(false);
    };
    if !of_number(op - opcodes::IRETURN, top) {
        return Ok(false);
    }
    let fits = fit(alloc, pool, top, due, items)?;
    Ok(fits)
}

fn result_fits<'a>(
    alloc: Global,
    pool: &Pool<'a>,
    op: u8,
    stack: &mut Vec<Kind<'a>>,
    due: Option<Kind<'a>>,
    items: &mut Vec<Item>,
) -> Result<bool, AllocError>
    requires { 172 ≤ op }
    ensures { IfOk result (λ done. Adds items.old.items items.new.items (typing.result_fits op (kinds_in stack.old.items) (option_map (λ k. kind_view k) due.entry)) done) }
{
    match due {
        None => Ok(op == opcodes::RETURN),
        Some(due) => value_fits(alloc, pool, op, stack, due, items),
    }
}

/// Adds the Assign of a return; false where the result doesn't fit or an instance isn't initialized.
#[tactic(auto, unfolding(jc_facts::specs::code::Typing::leave))]
pub(crate) fn leave<'a>(
    alloc: Global,
    a: Around<'a, '_>,
    op: u8,
    frame: &mut Frame<'a>,
    due: Option<Kind<'a>>,
    items: &mut Vec<Item>,
) -> Result<bool, AllocError>
    requires { 172 ≤ op }
    ensures { IfOk result (λ done. Adds items.old.items items.new.items (typing.leave (around_view a.entry) op (frame_view frame.old) (option_map (λ k. kind_view k) due.entry)) done) }
{
    if is_init(a.name)
        && (some_unset(frame.stack.as_slice()) || some_unset(frame.locals.as_slice()))
    {
        return Ok(false);
    }
    let fits = result_fits(alloc, a.pool, op, &mut frame.stack, due, items)?;
    Ok(fits)
}
