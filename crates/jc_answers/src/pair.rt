//! The items of two lists, side by side.
ghost use Rattle.std.specs.Prelude.{◌≡◌, IfOk};
ghost use Rattle.std.specs.List.{zip};

use std::alloc::{AllocError, Global};
use std::marker::Model;

/// An item of one list, and that which stands in the same place of another.
#[derive(Drop)]
pub(crate) struct Pair<'a, A, B> {
    pub first: &'a A,
    pub second: &'a B,
}

impl<'a, A, B> Model for Pair<'a, A, B> {
    ghost Value = { A × B };

    ghost view = { λ p. (p.first.now, p.second.now) };
}

/// The items of two lists by their places, as far as both go.
///
/// # Errors
///
/// `AllocError` where memory runs out.
pub(crate) fn pairs<'a, A, B>(
    alloc: Global,
    firsts: &'a [A],
    seconds: &'a [B],
) -> Result<Vec<Pair<'a, A, B>>, AllocError>
    ensures { IfOk result (λ pairs. pairs.items ≡ zip firsts.now seconds.now) }
{
    let mut pairs = Vec::new(alloc);
    for (i, first) in firsts.iter().enumerate() {
        let Some(second) = seconds.get(i) else {
            return Ok(pairs);
        };
        pairs.push(Pair { first, second })?;
    }
    Ok(pairs)
}
