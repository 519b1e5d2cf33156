//! What an act on a member is now, and was not.
ghost use Rattle.std.specs.Prelude.{◌≡◌};
ghost use Rattle.jc_promises.specs.rule.Findings.{Subject};
ghost use Rattle.jc_sides.specs.BrokenOf.{found};
ghost use Rattle.jc_acts.specs.ClosedActs.{reported};

use jc_base::name::Name;
use jc_facts::act::Act;
use jc_facts::link_error::LinkError;
use jc_sides::broken::BrokenAct;

/// An act that clients of a seat could do with the old side, and its error with the new one
/// (JVMS 5.4.3.2 to 5.4.4).
#[derive(Drop)]
pub struct ClosedAct<'a> {
    pub act: Act,
    /// The name of the class that is the seat.
    pub seat: &'a Name,
    pub error: LinkError,
}

/// The act as one that is broken, if there is one.
pub fn broken<'a>(closed: Option<ClosedAct<'a>>) -> Option<BrokenAct<'a>>
    ensures { (on : Subject) → found on result ≡ reported on closed.entry }
{
    let closed = closed?;
    Some(BrokenAct {
        act: closed.act,
        seat: Some(closed.seat),
        error: closed.error,
    })
}
