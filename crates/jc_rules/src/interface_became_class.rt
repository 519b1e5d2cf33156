//! The rule on interfaces that are none any more.
ghost use Rattle.std.specs.Prelude.{◌≡◌, ◌<◌, refl};
ghost use Rattle.jc_acts.specs.Seats.{AreSeats};
ghost use Rattle.jc_facts.specs.declared.rule_numbers.TheConstants.{INTERFACE_BECAME_CLASS};
ghost use Rattle.jc_facts.specs.world.World.{size};
ghost use Rattle.jc_rules.specs.steps.Losses.{AreLosses, was_interface};
ghost use Rattle.jc_index.specs.Ids.{name_at};

use crate::assigned::assigned_by;
use crate::losses::Losses;
use jc_acts::seats::Seats;
use jc_facts::act::Act;
use jc_facts::flags::is_interface;
use jc_facts::link_error::LinkError;
use jc_index::ids::ClassId;
use jc_sides::broken::BrokenAct;
use jc_sides::class_rule::ClassRule;
use jc_sides::kept::kept;
use jc_sides::sides::Sides;
use std::alloc::{AllocError, Global};

/// Whether the class of the old side was an interface and is none on the new side, where it may be
/// absent.
pub fn is_no_interface_now(sides: &Sides<'_>, id: ClassId) -> bool
    requires { id < size sides.now.old }
    ensures { result ≡ was_interface sides.now (name_at sides.now.old id) }
{
    if !is_interface(sides.old.facts(id).flags) {
        return false;
    }
    match sides.new_id(id) {
        Some(after) => !is_interface(sides.new.facts(after).flags),
        None => true,
    }
}

/// Interfaces that clients could use, or that members expose to them, and that are none any more
/// (JVMS 4.10.1.2).
#[derive(Drop)]
pub struct InterfaceBecameClass<'a> {
    /// The seats of clients.
    pub seats: &'a Seats<'a>,
    /// What was lost, with the members that expose hidden classes.
    pub losses: &'a Losses,
}

impl<'a> ClassRule for InterfaceBecameClass<'a> {
    ghost rule = { INTERFACE_BECAME_CLASS };

    ghost ready = { λ r s. AreSeats s r.seats.now × AreLosses s r.losses.now };

    ghost alone = { record { not_4 = refl; not_5 = refl; not_6 = refl; not_7 = refl; not_8 = refl; not_9 = refl } };

    fn on_class(
        &self,
        _alloc: Global,
        sides: &Sides<'_>,
        id: ClassId,
    ) -> Result<Option<BrokenAct<'_>>, AllocError> {
        if !is_no_interface_now(sides, id) {
            return Ok(None);
        }
        if kept(sides, id).is_some() {
            return Ok(Some(BrokenAct {
                act: Act::Assignment,
                seat: None,
                error: LinkError::VerifyError,
            }));
        }
        let broken = assigned_by(sides, self.seats, &self.losses.exposed, &[id]);
        Ok(broken)
    }
}
