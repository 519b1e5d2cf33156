//! Putting the text of a verdict, which is made line by line.
ghost use Rattle.std.specs.Prelude.{◌≡◌, ◌≤◌, ◌<◌, ◌+◌, ◌^◌, ◌++◌, length, IfOk, OnOk, OnErr, IsErrOf};
ghost use Rattle.jc_base.specs.Causes.{Rose};
ghost use Rattle.jc_base.specs.Outside.{TakesAll, TakesFront};
ghost use Rattle.jc_report.specs.Text.{last_line_of, text_of};
ghost use Rattle.jc_report.specs.Listing.{lines_from};
ghost use Rattle.jc_report.specs.steps.Fronted.{fronted, fronted_text};

use crate::entry::Entry;
use crate::text::last_line;
use jc_base::sink::{Sink, SinkError};
use jc_facts::verdict::Verdict;
use std::alloc::{AllocError, Global};

// The line with the front before it.
fn with_front(alloc: Global, front: &[u8], line: Vec<u8>) -> Result<Vec<u8>, AllocError>
    ensures { IfOk result (λ whole. whole.items ≡ front.now ++ line.items) }
{
    if front.is_empty() {
        return Ok(line);
    }
    let mut whole = Vec::from_slice(alloc, front)?;
    whole.extend_from_slice(line.as_slice())?;
    Ok(whole)
}

// The line of an item that has this number, with the front before it.
fn fronted_line<E: Entry>(
    alloc: Global,
    front: &[u8],
    number: usize,
    item: &E,
) -> Result<Vec<u8>, AllocError>
    ensures { IfOk result (λ line. line.items ≡ fronted front.now E.printed item.now number) }
{
    let line = item.line(alloc, number)?;
    with_front(alloc, front, line)
}

// Puts the line of an item that has this number, with the front before it.
fn put_line<O: Sink, E: Entry>(
    alloc: Global,
    front: &[u8],
    number: usize,
    item: &E,
    out: &mut O,
) -> Result<(), SinkError>
    ensures ok { OnOk result (TakesAll (O.state out.old).taken (O.state out.new).taken (fronted front.now E.printed item.now number)) }
    ensures err { OnErr result (TakesFront (O.state out.old).taken (O.state out.new).taken (fronted front.now E.printed item.now number)) }
    ensures never_falls { (O.state out.old).faults ≤ (O.state out.new).faults }
    ensures cause { IsErrOf result SinkError.Fault → Rose (O.state out.old).faults (O.state out.new).faults }
{
    let Ok(line) = fronted_line(alloc, front, number, item) else {
        return Err(SinkError::Memory);
    };
    match out.put(line.as_slice()) {
        Ok(()) => Ok(()),
        Err(error) => Err(error),
    }
}

/// Puts the lines of the items, whose numbers go on from this one, each with the front before it. Each is
/// made, put and dropped.
///
/// # Errors
///
/// `SinkError::Fault` where a put failed, and `SinkError::Memory` where memory runs out.
pub(crate) fn put_each<O: Sink, E: Entry>(
    alloc: Global,
    front: &[u8],
    first: usize,
    items: &[E],
    out: &mut O,
) -> Result<(), SinkError>
    requires { first + length items.now < 2 ^ 64 }
    ensures ok { OnOk result (TakesAll (O.state out.old).taken (O.state out.new).taken (lines_from (fronted front.now E.printed) first items.now)) }
    ensures err { OnErr result (TakesFront (O.state out.old).taken (O.state out.new).taken (lines_from (fronted front.now E.printed) first items.now)) }
    ensures never_falls { (O.state out.old).faults ≤ (O.state out.new).faults }
    ensures cause { IsErrOf result SinkError.Fault → Rose (O.state out.old).faults (O.state out.new).faults }
{
    for (i, item) in items.iter().enumerate() {
        match put_line(alloc, front, first + i, item, out) {
            Ok(()) => {}
            Err(error) => return Err(error),
        }
    }
    Ok(())
}

// The last line of a verdict, with the front before it.
fn fronted_last(alloc: Global, front: &[u8], verdict: &Verdict) -> Result<Vec<u8>, AllocError>
    ensures { IfOk result (λ line. line.items ≡ front.now ++ last_line_of verdict.now) }
{
    let line = last_line(alloc, verdict)?;
    with_front(alloc, front, line)
}

// Puts the last line of a verdict, with the front before it.
fn put_last<O: Sink>(
    alloc: Global,
    front: &[u8],
    verdict: &Verdict,
    out: &mut O,
) -> Result<(), SinkError>
    ensures ok { OnOk result (TakesAll (O.state out.old).taken (O.state out.new).taken (front.now ++ last_line_of verdict.now)) }
    ensures err { OnErr result (TakesFront (O.state out.old).taken (O.state out.new).taken (front.now ++ last_line_of verdict.now)) }
    ensures never_falls { (O.state out.old).faults ≤ (O.state out.new).faults }
    ensures cause { IsErrOf result SinkError.Fault → Rose (O.state out.old).faults (O.state out.new).faults }
{
    let Ok(line) = fronted_last(alloc, front, verdict) else {
        return Err(SinkError::Memory);
    };
    match out.put(line.as_slice()) {
        Ok(()) => Ok(()),
        Err(error) => Err(error),
    }
}

/// Puts the text of a verdict with a front before each line, one call for each line with its line end:
/// the findings, the collisions, the notes, the last line. Each line is made, put and dropped. Nothing is
/// put after a failed call or where there is no memory for a line.
///
/// # Errors
///
/// `SinkError::Fault` where a put failed, and `SinkError::Memory` where memory runs out.
pub(crate) fn put_fronted<O: Sink>(
    alloc: Global,
    front: &[u8],
    verdict: &Verdict,
    out: &mut O,
) -> Result<(), SinkError>
    ensures ok { OnOk result (TakesAll (O.state out.old).taken (O.state out.new).taken (fronted_text front.now verdict.now)) }
    ensures err { OnErr result (TakesFront (O.state out.old).taken (O.state out.new).taken (fronted_text front.now verdict.now)) }
    ensures never_falls { (O.state out.old).faults ≤ (O.state out.new).faults }
    ensures cause { IsErrOf result SinkError.Fault → Rose (O.state out.old).faults (O.state out.new).faults }
{
    let findings = verdict.findings.as_slice();
    match put_each(alloc, front, 1, findings, out) {
        Ok(()) => {}
        Err(error) => return Err(error),
    }
    let next = findings.len() + 1;
    match put_each(alloc, front, next, verdict.collisions.as_slice(), out) {
        Ok(()) => {}
        Err(error) => return Err(error),
    }
    match put_each(alloc, front, 0, verdict.notes.as_slice(), out) {
        Ok(()) => {}
        Err(error) => return Err(error),
    }
    match put_last(alloc, front, verdict, out) {
        Ok(()) => Ok(()),
        Err(error) => Err(error),
    }
}

/// Puts the text of a verdict, one call for each line with its line end: the findings, the collisions,
/// the notes, the last line. Each line is made, put and dropped. Nothing is put after a failed call or
/// where there is no memory for a line.
///
/// # Errors
///
/// `SinkError::Fault` where a put failed, and `SinkError::Memory` where memory runs out.
pub fn put_text<O: Sink>(alloc: Global, verdict: &Verdict, out: &mut O) -> Result<(), SinkError>
    ensures ok { OnOk result (TakesAll (O.state out.old).taken (O.state out.new).taken (text_of verdict.now)) }
    ensures err { OnErr result (TakesFront (O.state out.old).taken (O.state out.new).taken (text_of verdict.now)) }
    ensures never_falls { (O.state out.old).faults ≤ (O.state out.new).faults }
    ensures cause { IsErrOf result SinkError.Fault → Rose (O.state out.old).faults (O.state out.new).faults }
{
    match put_fronted(alloc, &[], verdict, out) {
        Ok(()) => Ok(()),
        Err(error) => Err(error),
    }
}
