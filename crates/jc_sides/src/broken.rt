//! What a rule says: that an act of clients is broken.
ghost use Rattle.std.specs.Prelude.{◌≡◌};
ghost use Rattle.jc_sides.specs.BrokenOf.{broken_if};

use jc_base::name::Name;
use jc_facts::act::Act;
use jc_facts::link_error::LinkError;
use std::marker::Model;

/// An act of clients that is broken: the act, the name of the seat from which it is where that
/// matters, and the error that it gets with the new release.
#[derive(Drop)]
pub struct BrokenAct<'a> {
    pub act: Act,
    pub seat: Option<&'a Name>,
    pub error: LinkError,
}

impl<'a> Model for BrokenAct<'a> {
    ghost use Rattle.jc_sides.specs.BrokenOf.{BrokenOf};

    ghost Value = { BrokenOf };

    ghost use Rattle.jc_sides.specs.BrokenFields.{broken_of};

    ghost view = { broken_of };
}

/// The act without a seat, where it is broken.
pub fn broken_where<'a>(broken: bool, act: Act, error: LinkError) -> Option<BrokenAct<'a>>
    ensures { result ≡ broken_if broken act error }
{
    if !broken {
        return None;
    }
    Some(BrokenAct {
        act,
        seat: None,
        error,
    })
}
