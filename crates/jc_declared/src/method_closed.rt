//! The rule on acts on methods that are closed to some clients.
ghost use Rattle.jc_acts.specs.Seats.{AreSeats};
ghost use Rattle.jc_facts.specs.declared.rule_numbers.TheConstants.{METHOD_CLOSED};
ghost use Rattle.jc_declared.specs.steps.Changed.{changed_steady};

use jc_acts::closed_act::broken;
use jc_acts::members::method_closed;
use jc_acts::seats::Seats;
use jc_desc::names::is_initializer;
use jc_facts::finding::Finding;
use jc_facts::key::Key;
use jc_sides::broken::BrokenAct;
use jc_sides::item_rule::ItemRule;
use jc_sides::key_numbers::KeyNumbers;
use jc_sides::members::Members;
use jc_sides::shared::Shared;
use jc_sides::sides::Sides;

/// Acts on methods of kept classes that were open to a client and aren't any more, one finding for a
/// key (JVMS 5.4.3.3, 5.4.3.4, 5.4.4).
#[derive(Drop)]
pub struct MethodClosed<'a> {
    /// The seats of clients.
    pub seats: &'a Seats<'a>,
}

impl<'a> ItemRule for MethodClosed<'a> {
    type Item = Finding;

    ghost rule = { METHOD_CLOSED };

    ghost covers = { changed_steady };

    ghost ready = { λ r s. AreSeats s r.seats.now };

    fn members(&self) -> Members {
        Members::OldMethods
    }

    fn on_key(
        &self,
        sides: &Sides<'_>,
        class: &Shared<'_>,
        key: &Key,
        numbers: &KeyNumbers,
    ) -> Option<BrokenAct<'_>> {
        if is_initializer(key.name.as_bytes()) {
            return None;
        }
        broken(method_closed(sides, self.seats, class, key, numbers))
    }
}
