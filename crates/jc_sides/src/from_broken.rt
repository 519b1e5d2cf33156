//! What rules on a class and a key make of an act that is broken: a finding, or a collision.
ghost use Rattle.std.specs.Prelude.{◌≡◌, ℕ, Option, None, Some, IfOk, is_some, refl};
ghost use Rattle.std.specs.declared.cmp.Ordering.{Ordering};
ghost use Rattle.jc_facts.specs.declared.key.Key.{Key as KeyOf};
ghost use Rattle.jc_facts.specs.Names.{Bytes};
ghost use Rattle.jc_facts.specs.Orders.{finding_order, collision_order};
ghost use Rattle.jc_sides.specs.BrokenOf.{BrokenOf, found, collided};
ghost use Rattle.jc_sides.specs.Rules.{IsCollision, IsFinding, key_collision, key_finding, on_key};
ghost use Rattle.jc_sides.specs.SidesOf.{SidesOf};

use crate::broken::BrokenAct;
use crate::found::finding;
use jc_base::name::Name;
use jc_facts::finding::Finding;
use jc_facts::key::Key;
use jc_facts::verdict::Collision;
use std::alloc::{AllocError, Global};

/// What rules on a class and a key make of an act that is broken.
pub trait FromBroken: Drop {
    // The order of such things, and the class of one.
    ghost order: { Self → Self → Ordering };

    ghost class_of: { Self → Bytes };

    // What the rule of this number makes of a class and a key, and what stands of it.
    ghost makes: { ℕ → SidesOf → Bytes → KeyOf → Option Self };

    ghost stands: { ℕ → SidesOf → Self → Type 0 };

    // What is made of the class and the key where this is broken.
    ghost made_of: { ℕ → Bytes → KeyOf → Option BrokenOf → Option Self };

    /// That of the rule of this number on the class and the key, if an act is broken.
    ///
    /// # Errors
    ///
    /// `AllocError` where memory runs out.
    fn from_broken(
        alloc: Global,
        rule: u8,
        class: &Name,
        key: &Key,
        broken: Option<BrokenAct<'_>>,
    ) -> Result<Option<Self>, AllocError>
        ensures { IfOk result (λ made. made ≡ made_of rule «class».now key.now broken.entry) };

    ghost made_where: { (rule : ℕ) (x : Bytes) (k : KeyOf) (b : Option BrokenOf) → is_some (made_of rule x k b) ≡ is_some b };
}

impl FromBroken for Finding {
    ghost order = { finding_order };

    ghost class_of = { λ f. f.«class» };

    ghost makes = { key_finding };

    ghost stands = { IsFinding };

    ghost made_of = { λ rule x k b. found (on_key rule x k) b };

    fn from_broken(
        alloc: Global,
        rule: u8,
        class: &Name,
        key: &Key,
        broken: Option<BrokenAct<'_>>,
    ) -> Result<Option<Finding>, AllocError> {
        let found = finding(alloc, rule, class, Some(key), None, broken)?;
        Ok(found)
    }

    ghost made_where = { λ rule x k. elim [ None ↦ refl | Some b ↦ refl ] };
}

impl FromBroken for Collision {
    ghost order = { collision_order };

    ghost class_of = { λ c. c.«class» };

    ghost makes = { key_collision };

    ghost stands = { IsCollision };

    ghost made_of = { collided };

    fn from_broken(
        alloc: Global,
        rule: u8,
        class: &Name,
        key: &Key,
        broken: Option<BrokenAct<'_>>,
    ) -> Result<Option<Collision>, AllocError> {
        let Some(broken) = broken else {
            return Ok(None);
        };
        Ok(Some(Collision {
            rule,
            class: class.copy(alloc)?,
            key: key.copy(alloc)?,
            act: broken.act,
            error: broken.error,
        }))
    }

    ghost made_where = { λ rule x k. elim [ None ↦ refl | Some b ↦ refl ] };
}
