//! The classes and interfaces that clients could name above themselves, and still can.
ghost use Rattle.std.specs.Prelude.{◌≡◌, IfOk, map};
ghost use Rattle.jc_promises.specs.Pairs.{AreOfOneRun};
ghost use Rattle.jc_rules.specs.Bases.{AreBases};

use jc_index::ids::ClassId;
use jc_sides::classes;
use jc_sides::shared::Shared;
use jc_sides::sides::Sides;
use jc_table::table::Table;
use std::alloc::{AllocError, Global};

// Their numbers on the old side.
fn old_ids(alloc: Global, classes: &[Shared<'_>]) -> Result<Vec<ClassId>, AllocError>
    ensures { IfOk result (λ ids. ids.items ≡ map (λ b. b.old) classes.now) }
{
    let mut ids = Vec::with_capacity(alloc, classes.len())?;
    for class in classes {
        ids.push(class.old)?;
    }
    Ok(ids)
}

/// The bases, as the old table numbers them, in their order.
///
/// # Errors
///
/// `AllocError` where memory runs out.
pub fn bases(alloc: Global, old: &Table, new: &Table) -> Result<Vec<ClassId>, AllocError>
    requires { AreOfOneRun old.now new.now }
    ensures { IfOk result (λ ids. AreBases old.now new.now ids.items) }
{
    let sides = Sides::new(alloc, old, new)?;
    let classes = classes::bases(alloc, &sides)?;
    let ids = old_ids(alloc, classes.as_slice())?;
    Ok(ids)
}
