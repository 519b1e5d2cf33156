//! Which lines of a check explain what clients lose.
ghost use Rattle.std.specs.Prelude.{◌≡◌, ◌++◌, [], count_by, IfOk, OnOk};
ghost use Rattle.jc_answers.specs.Used.{clients_by, used_where, used_from};

use jc_facts::finding::Finding;
use jc_used::explained::has_number;
use std::alloc::{AllocError, Global};
use std::marker::Model;

/// Which lines of a check explain what one client loses.
#[derive(Debug, Drop)]
pub struct Explained {
    /// Of each of its losses, in their order, the number of the first line that explains it, from 1 on;
    /// none where none does. A client that isn't linked has none.
    pub numbers: Vec<Option<usize>>,
}

impl Model for Explained {
    ghost use Rattle.std.specs.Prelude.{ℕ, List, Option};

    ghost Value = { List (Option ℕ) };

    ghost view = { λ e. e.numbers.items };
}

impl Explained {
    /// That of clients that lose nothing, or of which no line is asked for.
    pub(crate) fn none(alloc: Global) -> Explained
        ensures { result ≡ [] }
    {
        Explained {
            numbers: Vec::new(alloc),
        }
    }
}

/// A line of a check that explains a loss. A contract sees the finding without where it lies.
#[derive(Drop)]
pub(crate) struct UsedLine<'a> {
    /// As `check` numbers it.
    pub number: usize,
    /// How many clients it breaks.
    pub clients: usize,
    /// The finding, or that which is printed as the collision is.
    pub finding: &'a Finding,
}

impl<'a> Model for UsedLine<'a> {
    ghost use Rattle.jc_answers.specs.Used.{UsedOf};

    ghost Value = { UsedOf };

    ghost view = { λ u. record { number = u.number; clients = u.clients; finding = u.finding.now } };
}

// How many clients the line of this number breaks.
fn count_clients(explained: &[Explained], number: usize) -> usize
    ensures { result ≡ clients_by explained.now number }
{
    let mut count = 0;
    for client in explained {
        if has_number(client.numbers.as_slice(), number) {
            count += 1;
        }
    }
    count
}

// Adds the line, where it breaks a client.
fn push_used<'a>(
    used: &mut Vec<UsedLine<'a>>,
    number: usize,
    clients: usize,
    finding: &'a Finding,
) -> Result<(), AllocError>
    ensures { OnOk result (used.new.items ≡ used.old.items ++ used_where number clients finding.now) }
{
    if clients == 0 {
        return Ok(());
    }
    used.push(UsedLine {
        number,
        clients,
        finding,
    })?;
    Ok(())
}

/// The lines that explain a loss, of all the lines of the check.
///
/// # Errors
///
/// `AllocError` where memory runs out.
pub(crate) fn used_lines<'a>(
    alloc: Global,
    explained: &[Explained],
    entries: &'a [Finding],
) -> Result<Vec<UsedLine<'a>>, AllocError>
    ensures { IfOk result (λ used. used.items ≡ used_from explained.now 1 entries.now) }
{
    let mut used = Vec::new(alloc);
    for (i, finding) in entries.iter().enumerate() {
        let clients = count_clients(explained, i + 1);
        push_used(&mut used, i + 1, clients, finding)?;
    }
    Ok(used)
}
