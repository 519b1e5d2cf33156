//! Typing of straight-line methods: kinds of values, from the first instruction to the one return (JVMS 4.10.1).
ghost use Rattle.std.specs.Prelude.{◌≡◌, IfOk, length};
ghost use Rattle.std.specs.Option.{option_map};
ghost use Rattle.jc_facts.specs.code.Typing as typing;
ghost use Rattle.jc_attr.specs.Views.{code_view};
ghost use Rattle.jc_code.specs.steps.Views.{around_view};
ghost use Rattle.jc_code.specs.steps.KindView.{kind_view, kinds_in};
ghost use Rattle.jc_code.specs.steps.FrameView.{frame_view};

use crate::around::Around;
use crate::frame::Frame;
use crate::kinds::{Kind, method_kinds};
use crate::numbers::after;
use crate::returns::{is_return, leave};
use crate::start::start;
use crate::step::step;
use jc_attr::code::CodeParts;
use jc_facts::client::Item;
use std::alloc::{AllocError, Global};

/// The items of code that begins with this frame, and is to give a result of this kind.
fn typed<'a>(
    alloc: Global,
    a: Around<'a, '_>,
    due: Option<Kind<'a>>,
    begin: Frame<'a>,
    bytes: &[u8],
) -> Result<Option<Vec<Item>>, AllocError>
    ensures { IfOk result (λ r. option_map (λ x. x.items) r ≡ typing.typed_at (around_view a.entry) (option_map (λ k. kind_view k) due.entry) (length bytes.now) 0 (frame_view begin.entry) bytes.now) }
{
    let mut frame = begin;
    let mut items = Vec::new(alloc);
    let mut pc = 0;
    let mut rest = bytes;
    for _ in 0..bytes.len() {
        let Some((op, behind)) = rest.split_first() else {
            return Ok(None);
        };
        if is_return(*op) {
            if !behind.is_empty() {
                return Ok(None);
            }
            if leave(alloc, a, *op, &mut frame, due, &mut items)? {
                return Ok(Some(items));
            }
            return Ok(None);
        }
        let Some(len) = step(alloc, a, pc, *op, behind, &mut frame, &mut items)? else {
            return Ok(None);
        };
        pc += len;
        rest = after(len, rest);
    }
    Ok(None)
}

/// The items of a straight-line method; None where it isn't one.
#[tactic(auto, unfolding(jc_facts::specs::code::Typing::typed_code))]
pub(crate) fn typed_code<'a>(
    alloc: Global,
    a: Around<'a, '_>,
    code: CodeParts<'_>,
) -> Result<Option<Vec<Item>>, AllocError>
    ensures { IfOk result (λ r. option_map (λ x. x.items) r ≡ typing.typed_code (around_view a.entry) (code_view code.entry)) }
{
    if !code.catches.is_empty() {
        return Ok(None);
    }
    let Some(kinds) = method_kinds(alloc, a.descriptor)? else {
        return Ok(None);
    };
    let begin = start(alloc, a, kinds.params.as_slice())?;
    let items = typed(alloc, a, kinds.result, begin, code.bytes)?;
    Ok(items)
}
