//! The operand stack and the locals of a method (JVMS 2.6.1, 2.6.2).
ghost use Rattle.std.specs.Prelude.{◌≡◌, ◌≤◌, ◌++◌, ◌∷◌, [], IfOk, OnOk, length, get_or};
ghost use Rattle.std.specs.List.{list_any};
ghost use Rattle.std.specs.Option.{option_map};
ghost use Rattle.jc_facts.specs.code.Typing as typing;
ghost use Rattle.jc_code.specs.steps.KindView.{kind_view, kinds_in};

use crate::kinds::Kind;
use std::alloc::{AllocError, Global};

/// The operand stack, its top last, and the locals.
#[derive(Drop)]
pub(crate) struct Frame<'a> {
    pub stack: Vec<Kind<'a>>,
    pub locals: Vec<Kind<'a>>,
}

pub(crate) fn takes_two(kind: Kind<'_>) -> bool
    ensures { result ≡ typing.takes_two (kind_view kind.entry) }
{
    match kind {
        Kind::Long => true,
        Kind::Double => true,
        Kind::Int => false,
        Kind::Float => false,
        Kind::Null => false,
        Kind::Ref(_) => false,
        Kind::Fresh(_, _) => false,
        Kind::Unset => false,
        Kind::Empty => false,
    }
}

pub(crate) fn is_unset(kind: Kind<'_>) -> bool
    ensures { result ≡ typing.is_unset (kind_view kind.entry) }
{
    match kind {
        Kind::Unset => true,
        Kind::Long => false,
        Kind::Double => false,
        Kind::Int => false,
        Kind::Float => false,
        Kind::Null => false,
        Kind::Ref(_) => false,
        Kind::Fresh(_, _) => false,
        Kind::Empty => false,
    }
}

/// Whether a load or store of number 0 to 4, from int to reference, takes this kind.
pub(crate) fn of_number(number: u8, kind: Kind<'_>) -> bool
    ensures { result ≡ typing.of_number number (kind_view kind.entry) }
{
    match kind {
        Kind::Int => number == 0,
        Kind::Long => number == 1,
        Kind::Float => number == 2,
        Kind::Double => number == 3,
        Kind::Empty => false,
        Kind::Null => number == 4,
        Kind::Ref(_) => number == 4,
        Kind::Fresh(_, _) => number == 4,
        Kind::Unset => number == 4,
    }
}

/// Puts a value on top.
pub(crate) fn push<'a>(stack: &mut Vec<Kind<'a>>, kind: Kind<'a>) -> Result<(), AllocError>
    ensures { OnOk result (kinds_in stack.new.items ≡ kinds_in stack.old.items ++ kind_view kind.entry ∷ []) }
{
    stack.push(kind)?;
    Ok(())
}

/// Takes the top off.
pub(crate) fn pop<'a>(stack: &mut Vec<Kind<'a>>) -> Option<Kind<'a>>
    ensures { option_map (λ k. (kind_view k, kinds_in stack.new.items)) result ≡ typing.pop (kinds_in stack.old.items) }
{
    match stack.pop() {
        None => None,
        Some(kind) => Some(kind),
    }
}

/// Takes the last n values off.
#[tactic(auto, unfolding(jc_facts::specs::code::Typing::taken))]
pub(crate) fn take<'a>(
    alloc: Global,
    stack: &mut Vec<Kind<'a>>,
    n: usize,
) -> Result<Option<Vec<Kind<'a>>>, AllocError>
    ensures { IfOk result (λ r. option_map (λ args. (kinds_in args.items, kinds_in stack.new.items)) r ≡ typing.taken n (kinds_in stack.old.items)) }
{
    let size = stack.len();
    if size < n {
        return Ok(None);
    }
    let below = size - n;
    let (_, values) = stack.as_slice().split_at(below);
    let args = Vec::from_slice(alloc, values)?;
    stack.truncate(below);
    Ok(Some(args))
}

/// The local at this place.
pub(crate) fn local<'a>(locals: &[Kind<'a>], place: usize) -> Kind<'a>
    ensures { kind_view result ≡ get_or (kinds_in locals.now) place typing.empty }
{
    if place < locals.len() {
        locals[place]
    } else {
        Kind::Empty
    }
}

fn pad<'a>(locals: &mut Vec<Kind<'a>>, n: usize) -> Result<(), AllocError>
    ensures places { OnOk result ((k : typing.Kind) → typing.set_at n k (kinds_in locals.new.items) ≡ typing.set_at n k (kinds_in locals.old.items)) }
    ensures reach { OnOk result (n ≤ length locals.new.items) }
{
    let missing = n.saturating_sub(locals.len());
    for _ in 0..missing {
        locals.push(Kind::Empty)?;
    }
    Ok(())
}

fn set_at<'a>(locals: &mut Vec<Kind<'a>>, n: usize, kind: Kind<'a>) -> Result<(), AllocError>
    ensures { OnOk result (kinds_in locals.new.items ≡ typing.set_at n (kind_view kind.entry) (kinds_in locals.old.items)) }
{
    pad(locals, n)?;
    if n < locals.len() {
        locals[n] = kind;
    } else {
        locals.push(kind)?;
    }
    Ok(())
}

#[tactic(auto, unfolding(jc_facts::specs::code::Typing::cut))]
fn cut(locals: &mut Vec<Kind<'_>>, n: usize) -> Result<(), AllocError>
    ensures { OnOk result (kinds_in locals.new.items ≡ typing.cut n (kinds_in locals.old.items)) }
{
    if n == 0 {
        return Ok(());
    }
    if takes_two(local(locals.as_slice(), n - 1)) {
        set_at(locals, n - 1, Kind::Empty)?;
    }
    Ok(())
}

/// Puts a value into the local at this place.
#[tactic(auto, unfolding(jc_facts::specs::code::Typing::put))]
pub(crate) fn put<'a>(
    locals: &mut Vec<Kind<'a>>,
    n: usize,
    kind: Kind<'a>,
) -> Result<(), AllocError>
    requires { n ≤ 255 }
    ensures { OnOk result (kinds_in locals.new.items ≡ typing.put n (kind_view kind.entry) (kinds_in locals.old.items)) }
{
    cut(locals, n)?;
    set_at(locals, n, kind)?;
    if takes_two(kind) {
        set_at(locals, n + 1, Kind::Empty)?;
    }
    Ok(())
}

/// Whether one of them is the instance of an `<init>` before its superclass's `<init>` was called.
pub(crate) fn some_unset(kinds: &[Kind<'_>]) -> bool
    ensures { result ≡ list_any typing.is_unset (kinds_in kinds.now) }
{
    for kind in kinds {
        if is_unset(*kind) {
            return true;
        }
    }
    false
}
