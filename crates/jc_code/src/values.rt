//! Values where values of a kind are due (JVMS 4.10.1.2), and values as receivers.
ghost use Rattle.std.specs.Prelude.{◌≡◌, ◌++◌, IfOk, OnOk};
ghost use Rattle.std.specs.Option.{option_map};
ghost use Rattle.jc_facts.specs.code.Typing as typing;
ghost use Rattle.jc_code.specs.steps.KindView.{kind_view, kinds_in};
ghost use Rattle.jc_code.specs.steps.Pushed.{Adds};

use crate::kinds::Kind;
use jc_facts::client::Item;
use jc_pool::pool::Pool;
use std::alloc::{AllocError, Global};

/// The receiver of an item: the type of a reference, not known for null; None where the kind is no receiver.
pub(crate) fn receiver(kind: Kind<'_>) -> Option<Option<&[u8]>>
    ensures { option_map (λ r. option_map (λ x. x.now) r) result ≡ typing.receiver (kind_view kind.entry) }
{
    match kind {
        Kind::Ref(name) => Some(Some(name)),
        Kind::Null => Some(None),
        Kind::Int => None,
        Kind::Long => None,
        Kind::Float => None,
        Kind::Double => None,
        Kind::Fresh(_, _) => None,
        Kind::Unset => None,
        Kind::Empty => None,
    }
}

fn same_kind(kind: Kind<'_>, due: Kind<'_>) -> bool
    ensures { result ≡ typing.same_kind (kind_view kind.entry) (kind_view due.entry) }
{
    match kind {
        Kind::Int => matches!(due, Kind::Int),
        Kind::Long => matches!(due, Kind::Long),
        Kind::Float => matches!(due, Kind::Float),
        Kind::Double => matches!(due, Kind::Double),
        _ => false,
    }
}

fn assign<'a>(
    alloc: Global,
    pool: &Pool<'a>,
    from: &'a [u8],
    to: &'a [u8],
    items: &mut Vec<Item>,
) -> Result<(), AllocError>
    ensures { OnOk result (items.new.items ≡ items.old.items ++ typing.assign from.now to.now) }
{
    if from == to {
        return Ok(());
    }
    let from = pool.name(alloc, from)?;
    let to = pool.name(alloc, to)?;
    items.push(Item::Assign { from, to })?;
    Ok(())
}

/// Adds the Assign of a value where a value of the second kind is due; false where it doesn't fit.
#[tactic(auto, unfolding(jc_facts::specs::code::Typing::fit))]
pub(crate) fn fit<'a>(
    alloc: Global,
    pool: &Pool<'a>,
    kind: Kind<'a>,
    due: Kind<'a>,
    items: &mut Vec<Item>,
) -> Result<bool, AllocError>
    ensures { IfOk result (λ done. Adds items.old.items items.new.items (typing.fit (kind_view kind.entry) (kind_view due.entry)) done) }
{
    match kind {
        Kind::Ref(from) => match due {
            Kind::Ref(to) => {
                assign(alloc, pool, from, to, items)?;
                Ok(true)
            }
            _ => Ok(false),
        },
        Kind::Null => match due {
            Kind::Ref(_) => Ok(true),
            _ => Ok(false),
        },
        _ => Ok(same_kind(kind, due)),
    }
}

/// Adds the Assigns of values where values of these kinds are due, from left to right.
pub(crate) fn fit_all<'a>(
    alloc: Global,
    pool: &Pool<'a>,
    kinds: &[Kind<'a>],
    due: &[Kind<'a>],
    items: &mut Vec<Item>,
) -> Result<bool, AllocError>
    ensures { IfOk result (λ done. Adds items.old.items items.new.items (typing.fit_all (kinds_in kinds.now) (kinds_in due.now)) done) }
{
    if kinds.len() != due.len() {
        return Ok(false);
    }
    for i in 0..due.len() {
        if !fit(alloc, pool, kinds[i], due[i], items)? {
            return Ok(false);
        }
    }
    Ok(true)
}
