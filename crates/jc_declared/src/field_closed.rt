//! The rule on acts on fields that are closed to some clients.
ghost use Rattle.jc_acts.specs.Seats.{AreSeats};
ghost use Rattle.jc_facts.specs.declared.rule_numbers.TheConstants.{FIELD_CLOSED};
ghost use Rattle.jc_declared.specs.steps.Changed.{changed_steady};

use jc_acts::closed_act::broken;
use jc_acts::members::field_closed;
use jc_acts::seats::Seats;
use jc_facts::finding::Finding;
use jc_facts::key::Key;
use jc_sides::broken::BrokenAct;
use jc_sides::item_rule::ItemRule;
use jc_sides::key_numbers::KeyNumbers;
use jc_sides::members::Members;
use jc_sides::shared::Shared;
use jc_sides::sides::Sides;

/// Acts on fields of kept classes that were open to a client and aren't any more, one finding for a
/// key (JVMS 5.4.3.2, 5.4.4).
#[derive(Drop)]
pub struct FieldClosed<'a> {
    /// The seats of clients.
    pub seats: &'a Seats<'a>,
}

impl<'a> ItemRule for FieldClosed<'a> {
    type Item = Finding;

    ghost rule = { FIELD_CLOSED };

    ghost covers = { changed_steady };

    ghost ready = { λ r s. AreSeats s r.seats.now };

    fn members(&self) -> Members {
        Members::OldFields
    }

    fn on_key(
        &self,
        sides: &Sides<'_>,
        class: &Shared<'_>,
        key: &Key,
        numbers: &KeyNumbers,
    ) -> Option<BrokenAct<'_>> {
        broken(field_closed(sides, self.seats, class, key, numbers))
    }
}
