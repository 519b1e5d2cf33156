//! The warnings on a new release, after an old one.
ghost use Rattle.std.specs.Prelude.{IfOk, IfSome, option_map};
ghost use Rattle.jc_acts.specs.Seats.{AreSeats};
ghost use Rattle.jc_promises.specs.Pairs.{AreOfOneRun};
ghost use Rattle.jc_promises.specs.rule.Warnings.{AreWarnings, WarningStands, is_base, warning_order};
ghost use Rattle.jc_select.specs.Within.{AreWarningsWithin, AnswersStill};
ghost use Rattle.jc_select.specs.steps.Changes.{AreChanges};
ghost use Rattle.jc_sides.specs.Limit.{IsWithin};
ghost use Rattle.jc_sides.specs.SharedOf.{AreThose};

use crate::changes::changes;
use crate::warned::of_base;
use jc_acts::seats::Seats;
use jc_base::items::Items;
use jc_facts::key::Key;
use jc_facts::warning::Warning;
use jc_sides::classes;
use jc_sides::limit::is_over;
use jc_sides::shared::Shared;
use jc_sides::sides::Sides;
use jc_table::table::Table;
use std::alloc::{AllocError, Global};

// The warnings on these bases, which have to be all; None where there are more than the limit allows.
fn of_bases(
    alloc: Global,
    sides: &Sides<'_>,
    seats: &Seats<'_>,
    changes: &[Items<Key>],
    bases: &[Shared<'_>],
    most: Option<usize>,
) -> Result<Option<Vec<Warning>>, AllocError>
    requires seats { AreSeats sides.now seats.now }
    requires changes { AreChanges sides.now changes.now }
    requires bases { AreThose (is_base sides.now.old sides.now.new) sides.now bases.now }
    ensures { IfOk result (λ made. IsWithin warning_order (WarningStands sides.now.old sides.now.new) most (option_map (λ ws. ws.items) made)) }
{
    let mut warnings = Vec::new(alloc);
    for class in bases {
        warnings.append(&mut of_base(alloc, sides, seats, changes, class)?)?;
        if is_over(warnings.len(), most) {
            return Ok(None);
        }
    }
    Ok(Some(warnings))
}

// The warnings; None where there are more than the limit allows.
fn limited(
    alloc: Global,
    sides: &Sides<'_>,
    most: Option<usize>,
) -> Result<Option<Vec<Warning>>, AllocError>
    ensures { IfOk result (λ made. IsWithin warning_order (WarningStands sides.now.old sides.now.new) most (option_map (λ ws. ws.items) made)) }
{
    let bases = classes::bases(alloc, sides)?;
    let seats = Seats::new(alloc, sides, classes::base_classes(alloc, sides)?)?;
    let changes = changes(alloc, sides)?;
    let made = of_bases(
        alloc,
        sides,
        &seats,
        changes.as_slice(),
        bases.as_slice(),
        most,
    )?;
    Ok(made)
}

/// The warnings on a new release, after an old one, in byte order of the classes' names and in the
/// order of the keys: what a base gives to the clients below it to be selected, and gives otherwise now
/// (JVMS 5.4.6). The two sides are of one run.
///
/// # Errors
///
/// `AllocError` where memory runs out.
pub fn warnings(alloc: Global, old: &Table, new: &Table) -> Result<Vec<Warning>, AllocError>
    requires { AreOfOneRun old.now new.now }
    ensures exact { IfOk result (λ ws. AreWarnings old.now new.now ws.items) }

    // Where there is none, and the verdict has no finding, clients that answered all that was due answer all that is due now.
    ensures answered { IfOk result (λ ws. AnswersStill old.now new.now ws.items) }
{
    // A count says that a table stands for a side.
    let _old = old.count();
    let _new = new.count();
    let sides = Sides::new(alloc, old, new)?;
    let made = limited(alloc, &sides, None)?;
    Ok(made.unwrap())
}

/// The same warnings, where they are at most so many; None where they are more. Past the limit no more
/// are made than what one class adds.
///
/// # Errors
///
/// `AllocError` where memory runs out.
pub fn warnings_within(
    alloc: Global,
    old: &Table,
    new: &Table,
    most: usize,
) -> Result<Option<Vec<Warning>>, AllocError>
    requires { AreOfOneRun old.now new.now }
    ensures exact { IfOk result (λ made. AreWarningsWithin old.now new.now most (option_map (λ ws. ws.items) made)) }
    ensures answered { IfOk result (λ made. IfSome (option_map (λ ws. ws.items) made) (AnswersStill old.now new.now)) }
{
    // A count says that a table stands for a side.
    let _old = old.count();
    let _new = new.count();
    let sides = Sides::new(alloc, old, new)?;
    let made = limited(alloc, &sides, Some(most))?;
    Ok(made)
}
