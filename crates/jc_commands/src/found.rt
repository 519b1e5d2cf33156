//! The verdict on two sides together with the interfaces that classes drop between them and the lines on
//! calls, over what all of them ask of the sides.
ghost use Rattle.std.specs.Prelude.{IfOk, IfErr, IfSome, option_map, true, false};
ghost use Rattle.jc_acts.specs.Seats.{AreSeats};
ghost use Rattle.jc_call_lines.specs.LinesWithin.{AreLinesWithin, ReferencesStill};
ghost use Rattle.jc_promises.specs.Pairs.{AreOfOneRun};
ghost use Rattle.jc_commands.specs.CallsPart.{AreAskedCalls};
ghost use Rattle.jc_commands.specs.DroppedPart.{AreAskedDropped};
ghost use Rattle.jc_commands.specs.steps.Check.{AreFoundWithin, AreJudgedWithin, StopsCalling, StopsDropping};
ghost use Rattle.jc_select.specs.DroppedWithin.{AreDroppedWithin, InterfacesStill};

use jc_acts::seats::Seats;
use jc_call_kinds::call_line::CallLine;
use jc_call_lines::lines::lines_over;
use jc_facts::dropped::Dropped;
use jc_facts::verdict::Verdict;
use jc_releases::limits::{MAX_CALLS, MAX_DROPPED, MAX_FINDINGS};
use jc_releases::stop::{Part, Stop};
use jc_rules::compare::compare_over;
use jc_rules::losses::Losses;
use jc_select::dropped::dropped_over;
use jc_select::losing::Lost;
use jc_sides::classes::base_classes;
use jc_sides::sides::Sides;
use jc_table::table::Table;
use std::alloc::{AllocError, Global};

/// The verdict on two sides, and the dropped interfaces where they are asked for, or why these aren't
/// reported.
#[derive(Drop)]
pub struct Judged {
    pub verdict: Verdict,
    pub dropped: Result<Option<Vec<Dropped>>, Stop>,
}

/// The same, and the lines on calls where they are asked for, or why these aren't reported.
#[derive(Drop)]
pub struct Found {
    pub judged: Judged,
    pub calls: Result<Option<Vec<CallLine>>, Stop>,
}

// ---- the verdict and the dropped interfaces

// The dropped interfaces, which are asked for, unless there are too many.
fn listed(_sides: &Sides<'_>, made: Option<Vec<Dropped>>) -> Result<Option<Vec<Dropped>>, Stop>
    requires exact { AreDroppedWithin _sides.now.old _sides.now.new MAX_DROPPED (option_map (λ ds. ds.items) made) }
    requires kept { IfSome (option_map (λ ds. ds.items) made) (InterfacesStill _sides.now.old _sides.now.new) }
    ensures exact { IfOk result (λ made. AreAskedDropped true _sides.now.old _sides.now.new (option_map (λ ds. ds.items) made)) }
    ensures kept { IfOk result (λ made. IfSome (option_map (λ ds. ds.items) made) (InterfacesStill _sides.now.old _sides.now.new)) }
    ensures stopped { IfErr result (StopsDropping true _sides.now.old _sides.now.new) }
{
    match made {
        Some(dropped) => Ok(Some(dropped)),
        None => Err(Stop::TooMany(Part::Dropped)),
    }
}

// The verdict and the dropped interfaces, over the seats; None where there are too many findings. The
// members of classes are looked at once for both.
fn verdict_and_dropped(
    alloc: Global,
    sides: &Sides<'_>,
    seats: &Seats<'_>,
) -> Result<Option<Judged>, AllocError>
    requires { AreSeats sides.now seats.now }
    ensures { IfOk result (AreJudgedWithin true sides.now.old sides.now.new) }
{
    let lost = Lost::new(alloc, sides)?;
    let losses = Losses::new(alloc, sides, seats, lost.hidden())?;
    let Some(verdict) = compare_over(alloc, sides, seats, &losses, MAX_FINDINGS)? else {
        return Ok(None);
    };
    let made = dropped_over(alloc, sides, seats, losses.exposed(), &lost, MAX_DROPPED)?;
    Ok(Some(Judged {
        verdict,
        dropped: listed(sides, made),
    }))
}

// The verdict over the seats, where dropped interfaces aren't asked for; None where there are too many
// findings.
fn verdict_alone(
    alloc: Global,
    sides: &Sides<'_>,
    seats: &Seats<'_>,
) -> Result<Option<Judged>, AllocError>
    requires { AreSeats sides.now seats.now }
    ensures { IfOk result (AreJudgedWithin false sides.now.old sides.now.new) }
{
    let losses = Losses::new(alloc, sides, seats, &[])?;
    let made = compare_over(alloc, sides, seats, &losses, MAX_FINDINGS)?;
    match made {
        Some(verdict) => Ok(Some(Judged {
            verdict,
            dropped: Ok(None),
        })),
        None => Ok(None),
    }
}

// The verdict over the seats, and the dropped interfaces where they are asked for; None where there are
// too many findings.
fn verdict_over(
    alloc: Global,
    sides: &Sides<'_>,
    seats: &Seats<'_>,
    dropped: bool,
) -> Result<Option<Judged>, AllocError>
    requires { AreSeats sides.now seats.now }
    ensures { IfOk result (AreJudgedWithin dropped sides.now.old sides.now.new) }
{
    if dropped {
        verdict_and_dropped(alloc, sides, seats)
    } else {
        verdict_alone(alloc, sides, seats)
    }
}

// ---- the lines on calls

// The lines on calls, which are asked for, unless there are too many.
fn counted(_sides: &Sides<'_>, made: Option<Vec<CallLine>>) -> Result<Option<Vec<CallLine>>, Stop>
    requires exact { AreLinesWithin _sides.now.old _sides.now.new MAX_CALLS (option_map (λ ls. ls.items) made) }
    requires kept { IfSome (option_map (λ ls. ls.items) made) (ReferencesStill _sides.now.old _sides.now.new) }
    ensures exact { IfOk result (λ made. AreAskedCalls true _sides.now.old _sides.now.new (option_map (λ ls. ls.items) made)) }
    ensures kept { IfOk result (λ made. IfSome (option_map (λ ls. ls.items) made) (ReferencesStill _sides.now.old _sides.now.new)) }
    ensures stopped { IfErr result (StopsCalling true _sides.now.old _sides.now.new) }
{
    match made {
        Some(lines) => Ok(Some(lines)),
        None => Err(Stop::TooMany(Part::Calls)),
    }
}

// The lines on calls over the seats, where they are asked for, or why they aren't reported.
fn called(
    alloc: Global,
    sides: &Sides<'_>,
    seats: &Seats<'_>,
    calls: bool,
) -> Result<Result<Option<Vec<CallLine>>, Stop>, AllocError>
    requires { AreSeats sides.now seats.now }
    ensures exact { IfOk result (λ found. IfOk found (λ made. AreAskedCalls calls sides.now.old sides.now.new (option_map (λ ls. ls.items) made))) }
    ensures kept { IfOk result (λ found. IfOk found (λ made. IfSome (option_map (λ ls. ls.items) made) (ReferencesStill sides.now.old sides.now.new))) }
    ensures stopped { IfOk result (λ found. IfErr found (StopsCalling calls sides.now.old sides.now.new)) }
{
    if !calls {
        return Ok(Ok(None));
    }
    let made = lines_over(alloc, sides, seats, MAX_CALLS)?;
    Ok(counted(sides, made))
}

// ---- all of them

// The same over the seats; None where there are too many findings.
fn found_over(
    alloc: Global,
    sides: &Sides<'_>,
    seats: &Seats<'_>,
    dropped: bool,
    calls: bool,
) -> Result<Option<Found>, AllocError>
    requires { AreSeats sides.now seats.now }
    ensures { IfOk result (AreFoundWithin dropped calls sides.now.old sides.now.new) }
{
    let Some(judged) = verdict_over(alloc, sides, seats, dropped)? else {
        return Ok(None);
    };
    let calls = called(alloc, sides, seats, calls)?;
    Ok(Some(Found { judged, calls }))
}

/// The verdict, and the dropped interfaces and the lines on calls where they are asked for; None where
/// there are too many findings. Only the parts that are asked for are made, and all go by the same sides
/// and seats.
///
/// # Errors
///
/// `AllocError` where memory runs out.
pub fn verdict_with_parts(
    alloc: Global,
    old: &Table,
    new: &Table,
    dropped: bool,
    calls: bool,
) -> Result<Option<Found>, AllocError>
    requires { AreOfOneRun old.now new.now }
    ensures { IfOk result (AreFoundWithin dropped calls old.now new.now) }
{
    let sides = Sides::new(alloc, old, new)?;
    let seats = Seats::new(alloc, &sides, base_classes(alloc, &sides)?)?;
    let found = found_over(alloc, &sides, &seats, dropped, calls)?;
    Ok(found)
}
