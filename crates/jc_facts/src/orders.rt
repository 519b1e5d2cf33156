//! What the orders of findings and collisions are.
ghost use Rattle.std.specs.Prelude.{◌≡◌, ◌≢◌};
ghost use Rattle.std.specs.declared.cmp.Ordering.TheVariants.{Equal};
ghost use Rattle.jc_facts.specs.declared.finding.Finding.{Finding as FindingView};
ghost use Rattle.jc_facts.specs.declared.verdict.Collision.{Collision as CollisionView};
ghost use Rattle.jc_facts.specs.Orders.{finding_order, collision_order};

use crate::finding::Finding;
use crate::verdict::Collision;

/// `Ord` orders findings by rule, then class, then key or target. Findings of one rule, class and
/// key or target, of which a verdict has one at most, it orders by act, seat and error.
pub fn findings_by_subject()
    ensures { (a b : FindingView) → finding_order a b ≢ Equal → ⟦<Finding as Ord>⟧.cmp a b ≡ finding_order a b }
{}

/// `Ord` orders collisions by rule, then class, then key. Collisions of one rule, class and key, of
/// which a verdict has one at most, it orders by act and error.
pub fn collisions_by_subject()
    ensures { (a b : CollisionView) → collision_order a b ≢ Equal → ⟦<Collision as Ord>⟧.cmp a b ≡ collision_order a b }
{}
