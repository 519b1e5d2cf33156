//! The lines of a verdict, as they are numbered.
ghost use Rattle.std.specs.Prelude.{◌≡◌, ◌++◌, cond, [], map, IfOk, OnOk};
ghost use Rattle.jc_facts.specs.declared.rule_numbers.TheConstants.{CLASS_CLOSED};
ghost use Rattle.jc_used.specs.Lines.{as_finding, names_or_none, permitted_by, lets_in, lets_in_by, line_of, lines_of, findings_in as findings_of_lines};

use crate::line::Line;
use jc_base::items::Items;
use jc_base::name::Name;
use jc_facts::class_facts::ClassFacts;
use jc_facts::finding::Finding;
use jc_facts::rule_numbers::CLASS_CLOSED;
use jc_facts::verdict::{Collision, Verdict};
use jc_table::table::Table;
use std::alloc::{AllocError, Global};
use std::mem::replace;

/// Copies of the names.
///
/// # Errors
///
/// `AllocError` where memory runs out.
pub fn copied(alloc: Global, names: &[Name]) -> Result<Vec<Name>, AllocError>
    ensures { IfOk result (λ copies. copies.items ≡ names.now) }
{
    let mut copies = Vec::with_capacity(alloc, names.len())?;
    for name in names {
        copies.push(name.copy(alloc)?)?;
    }
    Ok(copies)
}

// Copies of the names that the class permits.
fn permitted(alloc: Global, class: &ClassFacts) -> Result<Vec<Name>, AllocError>
    ensures { IfOk result (λ names. names.items ≡ names_or_none class.now.permits) }
{
    match &class.permits {
        None => Ok(Vec::new(alloc)),
        Some(permits) => copied(alloc, permits.as_slice()),
    }
}

// The names that the class lets stand below itself with this side.
#[tactic(auto, unfolding(crate::specs::Lines::lets_in))]
fn lets_in(alloc: Global, side: &Table, name: &Name) -> Result<Vec<Name>, AllocError>
    ensures { IfOk result (λ names. names.items ≡ lets_in side.now name.now) }
{
    match side.get(name.as_bytes()) {
        None => Ok(Vec::new(alloc)),
        Some(class) => {
            if side.is_of_clients(class) {
                permitted(alloc, side.facts(class))
            } else {
                Ok(Vec::new(alloc))
            }
        }
    }
}

// What is asked of a class that is closed.
fn lets_in_by(alloc: Global, side: &Table, finding: &Finding) -> Result<Vec<Name>, AllocError>
    ensures { IfOk result (λ names. names.items ≡ lets_in_by side.now finding.now) }
{
    if finding.rule == CLASS_CLOSED {
        lets_in(alloc, side, &finding.class)
    } else {
        Ok(Vec::new(alloc))
    }
}

fn line_of(alloc: Global, side: &Table, finding: Finding) -> Result<Line, AllocError>
    ensures { IfOk result (λ line. line ≡ line_of side.now finding) }
{
    let names = lets_in_by(alloc, side, &finding)?;
    Ok(Line {
        finding,
        lets_in: Items::from_vec(names),
    })
}

// The finding that is printed as the collision is.
fn as_finding(collision: Collision) -> Finding
    ensures { result ≡ as_finding collision }
{
    let Collision {
        rule,
        class,
        key,
        act,
        error,
    } = collision;
    Finding {
        rule,
        class,
        key: Some(key),
        target: None,
        act,
        seat: None,
        error,
    }
}

fn push_findings(
    alloc: Global,
    lines: &mut Vec<Line>,
    side: &Table,
    findings: Vec<Finding>,
) -> Result<(), AllocError>
    ensures { OnOk result (lines.new.items ≡ lines.old.items ++ map (line_of side.now) findings.items) }
{
    for finding in findings {
        lines.push(line_of(alloc, side, finding)?)?;
    }
    Ok(())
}

fn push_collisions(
    alloc: Global,
    lines: &mut Vec<Line>,
    side: &Table,
    collisions: Vec<Collision>,
) -> Result<(), AllocError>
    ensures { OnOk result (lines.new.items ≡ lines.old.items ++ map (line_of side.now) (map as_finding collisions.items)) }
{
    for collision in collisions {
        lines.push(line_of(alloc, side, as_finding(collision))?)?;
    }
    Ok(())
}

/// The lines of a verdict on a new side, its findings and then its collisions, as they are numbered.
///
/// # Errors
///
/// `AllocError` where memory runs out.
pub fn lines_of(alloc: Global, new: &Table, verdict: Verdict) -> Result<Vec<Line>, AllocError>
    ensures { IfOk result (λ lines. lines.items ≡ lines_of new.now verdict) }
{
    let mut verdict = verdict;
    let findings = replace(&mut verdict.findings, Items::from_vec(Vec::new(alloc)));
    let collisions = replace(&mut verdict.collisions, Items::from_vec(Vec::new(alloc)));
    let mut lines = Vec::new(alloc);
    push_findings(alloc, &mut lines, new, findings.into_vec())?;
    push_collisions(alloc, &mut lines, new, collisions.into_vec())?;
    Ok(lines)
}

fn finding_in(line: Line) -> Finding
    ensures { result ≡ line.finding }
{
    let Line {
        finding,
        lets_in: _,
    } = line;
    finding
}

/// The findings of the lines, and those that are printed as the collisions are, as they are numbered.
///
/// # Errors
///
/// `AllocError` where memory runs out.
pub fn findings_in(alloc: Global, lines: Vec<Line>) -> Result<Vec<Finding>, AllocError>
    ensures { IfOk result (λ findings. findings.items ≡ findings_of_lines lines.items) }
{
    let mut findings = Vec::new(alloc);
    for line in lines {
        findings.push(finding_in(line))?;
    }
    Ok(findings)
}
