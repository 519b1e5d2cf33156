//! All lines on calls, within a limit.
ghost use Rattle.std.specs.Prelude.{IfOk, IfSome, option_map, ◌⊎◌};
ghost use Rattle.jc_acts.specs.Seats.{AreSeats};
ghost use Rattle.jc_calls.specs.Lines.{LineStands, line_order};
ghost use Rattle.jc_call_lines.specs.LinesWithin.{AreLinesWithin, ReferencesStill};
ghost use Rattle.jc_call_lines.specs.steps.Kinds.{OfKind};
ghost use Rattle.jc_call_kinds.specs.declared.call_line.CallKind.TheVariants.{Reference, Access, Joined, Constants};
ghost use Rattle.jc_sides.specs.Limit.{IsWithin};

use crate::access::accesses;
use crate::constants::constants;
use crate::joins::joins;
use crate::references::references;
use jc_acts::seats::Seats;
use jc_call_kinds::call_line::CallLine;
use jc_calls::references_stay;
use jc_sides::limit::left;
use jc_sides::sides::Sides;
use std::alloc::{AllocError, Global};

// The lines of references and accesses, within a limit.
fn on_methods(
    alloc: Global,
    sides: &Sides<'_>,
    seats: &Seats<'_>,
    most: Option<usize>,
) -> Result<Option<Vec<CallLine>>, AllocError>
    requires { AreSeats sides.now seats.now }
    ensures { IfOk result (λ made. IsWithin line_order (λ l. OfKind Reference sides.now.old sides.now.new l ⊎ OfKind Access sides.now.old sides.now.new l) most (option_map (λ ls. ls.items) made)) }
{
    let Some(first) = references(alloc, sides, seats, most)? else {
        return Ok(None);
    };
    let room = left(most, first.len());
    let Some(second) = accesses(alloc, sides, seats, room)? else {
        return Ok(None);
    };
    let mut lines = first;
    let mut more = second;
    lines.append(&mut more)?;
    Ok(Some(lines))
}

// The lines of joins and constants, within a limit.
fn on_classes(
    alloc: Global,
    sides: &Sides<'_>,
    seats: &Seats<'_>,
    most: Option<usize>,
) -> Result<Option<Vec<CallLine>>, AllocError>
    requires { AreSeats sides.now seats.now }
    ensures { IfOk result (λ made. IsWithin line_order (λ l. OfKind Joined sides.now.old sides.now.new l ⊎ OfKind Constants sides.now.old sides.now.new l) most (option_map (λ ls. ls.items) made)) }
{
    let Some(first) = joins(alloc, sides, seats, most)? else {
        return Ok(None);
    };
    let room = left(most, first.len());
    let Some(second) = constants(alloc, sides, room)? else {
        return Ok(None);
    };
    let mut lines = first;
    let mut more = second;
    lines.append(&mut more)?;
    Ok(Some(lines))
}

// All lines, within a limit.
fn limited(
    alloc: Global,
    sides: &Sides<'_>,
    seats: &Seats<'_>,
    most: Option<usize>,
) -> Result<Option<Vec<CallLine>>, AllocError>
    requires { AreSeats sides.now seats.now }
    ensures { IfOk result (λ made. IsWithin line_order (LineStands sides.now.old sides.now.new) most (option_map (λ ls. ls.items) made)) }
{
    let Some(first) = on_methods(alloc, sides, seats, most)? else {
        return Ok(None);
    };
    let room = left(most, first.len());
    let Some(second) = on_classes(alloc, sides, seats, room)? else {
        return Ok(None);
    };
    let mut lines = first;
    let mut more = second;
    lines.append(&mut more)?;
    Ok(Some(lines))
}

/// The lines on calls between the sides, by kind, then in byte order of the classes' names, then by key or
/// superclass, where they are at most so many, and None where they are more. The two sides are of one run, and the
/// seats are theirs. Past the limit no more lines are made than what one class adds.
///
/// # Errors
///
/// `AllocError` where memory runs out.
pub fn lines_over(
    alloc: Global,
    sides: &Sides<'_>,
    seats: &Seats<'_>,
    most: usize,
) -> Result<Option<Vec<CallLine>>, AllocError>
    requires { AreSeats sides.now seats.now }
    ensures exact { IfOk result (λ made. AreLinesWithin sides.now.old sides.now.new most (option_map (λ ls. ls.items) made)) }
    ensures kept { IfOk result (λ made. IfSome (option_map (λ ls. ls.items) made) (ReferencesStill sides.now.old sides.now.new)) }
{
    // The law of the clause `kept`.
    references_stay();
    let made = limited(alloc, sides, seats, Some(most))?;
    Ok(made)
}
