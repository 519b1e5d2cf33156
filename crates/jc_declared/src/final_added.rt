//! The collision of methods that may not be overridden any more.
ghost use Rattle.jc_facts.specs.declared.rule_numbers.TheConstants.{FINAL_ADDED};
ghost use Rattle.jc_declared.specs.steps.Changed.{changed_class};

use crate::newly_final::made_final;
use jc_facts::act::Act;
use jc_facts::key::Key;
use jc_facts::link_error::LinkError;
use jc_facts::verdict::Collision;
use jc_sides::broken::{BrokenAct, broken_where};
use jc_sides::item_rule::ItemRule;
use jc_sides::key_numbers::KeyNumbers;
use jc_sides::members::Members;
use jc_sides::shared::Shared;
use jc_sides::sides::Sides;

/// Methods that are final now in the chain of a base class, where clients couldn't override one of
/// their key and may declare one of their own (JVMS 5.4.5).
pub struct FinalAdded;

impl ItemRule for FinalAdded {
    type Item = Collision;

    ghost rule = { FINAL_ADDED };

    ghost covers = { changed_class };

    fn members(&self) -> Members {
        Members::NewFinals
    }

    fn on_key(
        &self,
        sides: &Sides<'_>,
        class: &Shared<'_>,
        key: &Key,
        numbers: &KeyNumbers,
    ) -> Option<BrokenAct<'_>> {
        let overridable = made_final(sides, class, key, numbers)?;
        let error = LinkError::IncompatibleClassChangeError;
        broken_where(!overridable, Act::Override, error)
    }
}
