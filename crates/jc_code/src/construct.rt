//! The initialization of instances in straight-line methods (JVMS 4.10.1.9, invokespecial).
ghost use Rattle.std.specs.Prelude.{◌≡◌, IfOk};
ghost use Rattle.std.specs.Option.{option_map};
ghost use Rattle.jc_facts.specs.declared.client.Item.{Item};
ghost use Rattle.jc_facts.specs.Names.{Bytes};
ghost use Rattle.jc_facts.specs.code.Typing as typing;
ghost use Rattle.jc_pool.specs.Views.{member_view};
ghost use Rattle.jc_code.specs.steps.Views.{around_view};
ghost use Rattle.jc_code.specs.steps.KindView.{kind_view, kinds_in};
ghost use Rattle.jc_code.specs.steps.FrameView.{frame_view};
ghost use Rattle.jc_code.specs.steps.Steps.{Makes};

use crate::around::Around;
use crate::entries::init_item;
use crate::frame::{Frame, is_unset, pop, take};
use crate::kinds::{Kind, method_kinds};
use crate::uses::is_own;
use crate::values::fit_all;
use jc_facts::client::Item;
use jc_pool::pool::MemberRef;
use std::alloc::{AllocError, Global};

fn is_same_instance(a: Kind<'_>, b: Kind<'_>) -> bool
    ensures { result ≡ typing.is_same_instance (kind_view a.entry) (kind_view b.entry) }
{
    match a {
        Kind::Fresh(o, c) => match b {
            Kind::Fresh(p, d) => o == p && c == d,
            _ => false,
        },
        Kind::Unset => is_unset(b),
        _ => false,
    }
}

fn made<'a>(from: Kind<'a>, name: &'a [u8], kind: Kind<'a>) -> Kind<'a>
    ensures { kind_view result ≡ typing.made (kind_view from.entry) name.now (kind_view kind.entry) }
{
    if is_same_instance(from, kind) {
        Kind::Ref(name)
    } else {
        kind
    }
}

/// The kinds, each that is this instance now a reference of this class.
fn all_made<'a>(
    alloc: Global,
    from: Kind<'a>,
    name: &'a [u8],
    kinds: &[Kind<'a>],
) -> Result<Vec<Kind<'a>>, AllocError>
    ensures { IfOk result (λ r. kinds_in r.items ≡ typing.all_made (kind_view from.entry) name.now (kinds_in kinds.now)) }
{
    let mut all = Vec::new(alloc);
    for kind in kinds {
        all.push(made(from, name, *kind))?;
    }
    Ok(all)
}

/// The item of `<init>` called on this kind, and the name that the instance gets.
#[tactic(auto, unfolding(jc_facts::specs::code::Typing::initialized))]
fn initialized<'a>(
    alloc: Global,
    a: Around<'a, '_>,
    m: MemberRef<'a>,
    kind: Kind<'a>,
) -> Result<Option<(Item, &'a [u8])>, AllocError>
    ensures { IfOk result (λ r. option_map {U = Item × Bytes} (λ x. (x.0, x.1.now)) r ≡ typing.initialized (around_view a.entry) (member_view m.entry) (kind_view kind.entry)) }
{
    match kind {
        Kind::Fresh(_, name) => {
            if m.class != name {
                return Ok(None);
            }
            let item = init_item(alloc, a.pool, false, m.class, m.descriptor)?;
            Ok(Some((item, name)))
        }
        Kind::Unset => {
            if !is_own(a, m.class) {
                return Ok(None);
            }
            let item = init_item(alloc, a.pool, true, m.class, m.descriptor)?;
            Ok(Some((item, a.class)))
        }
        Kind::Int => Ok(None),
        Kind::Long => Ok(None),
        Kind::Float => Ok(None),
        Kind::Double => Ok(None),
        Kind::Null => Ok(None),
        Kind::Ref(_) => Ok(None),
        Kind::Empty => Ok(None),
    }
}

/// `invokespecial` of an `<init>`.
#[tactic(auto, unfolding(jc_facts::specs::code::Typing::construct))]
pub(crate) fn construct<'a>(
    alloc: Global,
    a: Around<'a, '_>,
    m: MemberRef<'a>,
    frame: &mut Frame<'a>,
    items: &mut Vec<Item>,
) -> Result<bool, AllocError>
    ensures { IfOk result (λ done. Makes items.old.items items.new.items (frame_view frame.new) (typing.construct (around_view a.entry) (member_view m.entry) (frame_view frame.old)) done) }
{
    let Some(kinds) = method_kinds(alloc, m.descriptor)? else {
        return Ok(false);
    };
    let Some(args) = take(alloc, &mut frame.stack, kinds.params.len())? else {
        return Ok(false);
    };
    let Some(top) = pop(&mut frame.stack) else {
        return Ok(false);
    };
    let Some((item, name)) = initialized(alloc, a, m, top)? else {
        return Ok(false);
    };
    items.push(item)?;
    let fits = fit_all(
        alloc,
        a.pool,
        args.as_slice(),
        kinds.params.as_slice(),
        items,
    )?;
    let stack = all_made(alloc, top, name, frame.stack.as_slice())?;
    let locals = all_made(alloc, top, name, frame.locals.as_slice())?;
    frame.stack = stack;
    frame.locals = locals;
    Ok(fits)
}
