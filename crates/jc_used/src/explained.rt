//! The line that explains each loss.
ghost use Rattle.std.specs.Prelude.{◌≡◌, ◌==◌, ◌<◌, ◌^◌, length, map, count_by, IfOk};
ghost use Rattle.std.specs.List.{list_any};
ghost use Rattle.jc_used.specs.Explains.{first_from, first_explaining, explained_by, is_number};

use crate::line::Line;
use crate::spots::explains_spot;
use crate::ties::{Ties, ties_of};
use jc_facts::class_facts::ClassFacts;
use jc_facts::client::Item;
use jc_facts::link_error::LinkError;
use jc_facts::outcome::Outcome;
use std::alloc::{AllocError, Global};

// The number of the first of the lines that explains it, from 1 on.
fn first_of(ties: &Ties<'_>, lines: &[Line], item: &Option<Item>, error: LinkError) -> Option<usize>
    ensures { result ≡ first_from ties.now 1 lines.now item.now error }
{
    for (i, line) in lines.iter().enumerate() {
        if explains_spot(ties, line, item, error) {
            return Some(i + 1);
        }
    }
    None
}

// The same of a loss of the clients, of which all this is lost.
fn first_explaining(
    alloc: Global,
    clients: &[ClassFacts],
    lines: &[Line],
    lost: &[Outcome],
    loss: &Outcome,
) -> Result<Option<usize>, AllocError>
    ensures { IfOk result (λ number. number ≡ first_explaining clients.now lost.now lines.now loss.now) }
{
    let ties = ties_of(alloc, clients, lost, loss)?;
    match loss.error {
        None => Ok(None),
        Some(error) => Ok(first_of(&ties, lines, &loss.item, error)),
    }
}

/// Of each loss of the clients the number of the first of the lines that explains it, from 1 on; none where
/// none does.
///
/// # Errors
///
/// `AllocError` where memory runs out.
#[tactic(auto, unfolding(crate::specs::Explains::explained_by))]
pub fn explained(
    alloc: Global,
    clients: &[ClassFacts],
    lines: &[Line],
    lost: &[Outcome],
) -> Result<Vec<Option<usize>>, AllocError>
    ensures { IfOk result (λ numbers. numbers.items ≡ explained_by clients.now lines.now lost.now) }
{
    let mut numbers = Vec::with_capacity(alloc, lost.len())?;
    for loss in lost {
        numbers.push(first_explaining(alloc, clients, lines, lost, loss)?)?;
    }
    Ok(numbers)
}

/// Whether one of the numbers is this one.
pub fn has_number(numbers: &[Option<usize>], number: usize) -> bool
    ensures { result ≡ list_any (is_number number) numbers.now }
{
    for one in numbers {
        if *one == Some(number) {
            return true;
        }
    }
    false
}
