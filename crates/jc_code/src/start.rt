//! The frame at the start of a method (JVMS 4.10.1.6).
ghost use Rattle.std.specs.Prelude.{◌≡◌, ◌++◌, IfOk, OnOk};
ghost use Rattle.jc_facts.specs.code.Typing as typing;
ghost use Rattle.jc_code.specs.steps.Views.{around_view};
ghost use Rattle.jc_code.specs.steps.KindView.{kind_view, kinds_in};
ghost use Rattle.jc_code.specs.steps.FrameView.{frame_view};

use crate::around::Around;
use crate::frame::{Frame, push, takes_two};
use crate::kinds::Kind;
use jc_desc::names::is_init;
use jc_facts::flags::is_static;
use std::alloc::{AllocError, Global};

fn push_places<'a>(locals: &mut Vec<Kind<'a>>, kind: Kind<'a>) -> Result<(), AllocError>
    ensures { OnOk result (kinds_in locals.new.items ≡ kinds_in locals.old.items ++ typing.places (kind_view kind.entry)) }
{
    push(locals, kind)?;
    if takes_two(kind) {
        push(locals, Kind::Empty)?;
    }
    Ok(())
}

fn push_this<'a>(locals: &mut Vec<Kind<'a>>, a: Around<'a, '_>) -> Result<(), AllocError>
    ensures { OnOk result (kinds_in locals.new.items ≡ kinds_in locals.old.items ++ typing.this_of (around_view a.entry)) }
{
    if is_static(a.flags) {
        return Ok(());
    }
    if is_init(a.name) {
        push(locals, Kind::Unset)
    } else {
        push(locals, Kind::Ref(a.class))
    }
}

fn push_all<'a>(locals: &mut Vec<Kind<'a>>, params: &[Kind<'a>]) -> Result<(), AllocError>
    ensures { OnOk result (kinds_in locals.new.items ≡ kinds_in locals.old.items ++ typing.places_of (kinds_in params.now)) }
{
    for param in params {
        push_places(locals, *param)?;
    }
    Ok(())
}

/// The frame at the start of a method with parameters of these kinds.
pub(crate) fn start<'a>(
    alloc: Global,
    a: Around<'a, '_>,
    params: &[Kind<'a>],
) -> Result<Frame<'a>, AllocError>
    ensures { IfOk result (λ f. frame_view f ≡ typing.start_of (around_view a.entry) (kinds_in params.now)) }
{
    let mut locals = Vec::new(alloc);
    push_this(&mut locals, a)?;
    push_all(&mut locals, params)?;
    Ok(Frame {
        stack: Vec::new(alloc),
        locals,
    })
}
