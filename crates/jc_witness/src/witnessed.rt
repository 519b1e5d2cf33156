//! What a witness is made for.
ghost use Rattle.std.specs.Prelude.{IfOk};
ghost use Rattle.jc_facts.specs.declared.verdict.Cause.{Cause};
ghost use Rattle.jc_witness.specs.Ground.{HasShortSide};
ghost use Rattle.jc_witness.specs.Witnesses.{IsWitnessOf, StandsInVerdict};

use crate::planner::Planner;
use crate::witness::WitnessFile;
use std::alloc::{AllocError, Global};

/// What a witness is made for: a finding or a collision.
pub trait Witnessed {
    /// It as one of the two.
    ghost cause: { Self → Cause };

    /// The files of its witness: class files of one to three clients, in byte order of their names.
    /// They link with the old release, and fail with the new one by its error, at the spot of exactly
    /// one of them. Those of a finding meet no collision, and those of a collision meet that one.
    ///
    /// It is asked that it stands in the verdict on the two sides, that each class name on them has at
    /// most 4,090 bytes, and each name and descriptor of a member at most 65,535.
    ///
    /// # Errors
    ///
    /// `AllocError` where memory runs out.
    fn show(&self, alloc: Global, planner: &Planner<'_>) -> Result<Vec<WitnessFile>, AllocError>
        requires stands { StandsInVerdict planner.now.old planner.now.new (cause self.now) }
        requires old_names { HasShortSide planner.now.old }
        requires new_names { HasShortSide planner.now.new }
        ensures { IfOk result (λ files. IsWitnessOf planner.now.old planner.now.new (cause self.now) files.items) };
}
