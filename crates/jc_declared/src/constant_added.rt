//! The collision of fields that interfaces have now.
ghost use Rattle.std.specs.Prelude.{◌≡◌, IsTrue};
ghost use Rattle.jc_facts.specs.declared.rule_numbers.TheConstants.{CONSTANT_ADDED};
ghost use Rattle.jc_promises.specs.rule.Bases.{is_base_interface};
ghost use Rattle.jc_promises.specs.rule.Collisions.{constant_added};
ghost use Rattle.jc_declared.specs.steps.Changed.{changed_interface};
ghost use Rattle.jc_sides.specs.Numbering.{AreNumbers};
ghost use Rattle.jc_sides.specs.SharedOf.{IsShared, name_of};

use jc_facts::act::Act;
use jc_facts::key::Key;
use jc_facts::link_error::LinkError;
use jc_facts::verdict::Collision;
use jc_field::find::find_field_by_number;
use jc_sides::broken::{BrokenAct, broken_where};
use jc_sides::item_rule::ItemRule;
use jc_sides::key_numbers::KeyNumbers;
use jc_sides::members::Members;
use jc_sides::shared::Shared;
use jc_sides::sides::Sides;

// Whether the base interface has a field of the key now and had none.
fn is_added(sides: &Sides<'_>, class: &Shared<'_>, key: &Key, numbers: &KeyNumbers) -> bool
    requires shared { IsShared sides.now «class».now }
    requires covered { IsTrue (is_base_interface sides.now.old sides.now.new (name_of «class».now)) }
    requires numbers { AreNumbers sides.now key.now numbers.now }
    ensures { result ≡ constant_added sides.now.old sides.now.new (name_of «class».now) key.now }
{
    find_field_by_number(sides.new, class.new, key, numbers.new).is_some()
        && find_field_by_number(sides.old, class.old, key, numbers.old).is_none()
}

/// Fields that interfaces have now and hadn't, their own or inherited ones (JVMS 5.4.3.2): a client
/// class that implements the interface and has such a field in a superclass finds the interface's
/// instead.
pub struct ConstantAdded;

impl ItemRule for ConstantAdded {
    type Item = Collision;

    ghost rule = { CONSTANT_ADDED };

    ghost covers = { changed_interface };

    fn members(&self) -> Members {
        Members::NewFields
    }

    fn on_key(
        &self,
        sides: &Sides<'_>,
        class: &Shared<'_>,
        key: &Key,
        numbers: &KeyNumbers,
    ) -> Option<BrokenAct<'_>> {
        let added = is_added(sides, class, key, numbers);
        broken_where(
            added,
            Act::GetField,
            LinkError::IncompatibleClassChangeError,
        )
    }
}
