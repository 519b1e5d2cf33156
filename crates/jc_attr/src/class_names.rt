//! The names of a list of classes, which may mention one many times.
ghost use Rattle.std.specs.Prelude.{◌≡◌, ◌<◌, ◌++◌, ◌∷◌, [], List, Some, length, slice_get, IfSome, OnOk};
ghost use Rattle.jc_desc.specs.Pool.{PoolOf};
ghost use Rattle.jc_desc.specs.PoolAnswers.{class_in};
ghost use Rattle.jc_facts.specs.Names.{Bytes};
ghost use Rattle.jc_attr.specs.steps.Firsts.{AreFirsts};

use jc_base::names::Names;
use jc_pool::long_texts::{LONG, MOST_KEPT};
use jc_pool::pool::Pool;
use std::alloc::{AllocError, Global};

/// The index of a Class in the pool, and the place in the list at which it was mentioned first.
#[derive(Clone, Copy, Drop)]
pub(crate) struct First {
    index: u16,
    place: usize,
}

// The place at which the class of this index was mentioned first, where it is kept.
fn first_of(firsts: &[First], index: u16) -> Option<usize>
    ensures { (pool : PoolOf) (names : List Bytes) → AreFirsts pool names firsts.now → IfSome result (λ place. (place < length names) × (slice_get names place ≡ class_in pool index)) }
{
    for first in firsts {
        if first.index == index {
            return Some(first.place);
        }
    }
    None
}

// Keeps the place of the name that was added last, unless there are many. Where there is no memory for
// it, the name is made again.
fn keep(firsts: &mut Vec<First>, index: u16, place: usize)
    ensures { (pool : PoolOf) (names : List Bytes) → AreFirsts pool names firsts.old.items → place < length names → slice_get names place ≡ class_in pool index → AreFirsts pool names firsts.new.items }
{
    if firsts.len() < MOST_KEPT {
        match firsts.push(First { index, place }) {
            Ok(()) => {}
            Err(_) => {}
        }
    }
}

/// Adds the name of the class of this index.
pub(crate) fn add<'a>(
    alloc: Global,
    pool: &Pool<'a>,
    names: &mut Names,
    firsts: &mut Vec<First>,
    index: u16,
    name: &'a [u8],
) -> Result<(), AllocError>
    requires named { class_in pool.now index ≡ Some name.now }
    requires firsts { AreFirsts pool.now names.old firsts.old.items }
    ensures added { OnOk result (names.new ≡ names.old ++ name.now ∷ []) }
    ensures kept { OnOk result (AreFirsts pool.now names.new firsts.new.items) }
{
    if name.len() < LONG {
        return names.push(pool.name(alloc, name)?);
    }
    if let Some(place) = first_of(firsts.as_slice(), index) {
        return names.push_again(alloc, place);
    }
    let place = names.as_slice().len();
    names.push(pool.name(alloc, name)?)?;
    keep(firsts, index, place);
    Ok(())
}
