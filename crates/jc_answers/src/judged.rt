//! What is said of clients, and which lines explain what they lose.
ghost use Rattle.std.specs.Prelude.{◌≡◌, List, option_map, IfOk};
ghost use Rattle.jc_facts.specs.declared.client.ClientClass.{ClientClass as ClientOf};
ghost use Rattle.jc_facts.specs.client.Valid.{facts_of};
ghost use Rattle.jc_answers.specs.Answers.{answer_of as answer_on};
ghost use Rattle.jc_answers.specs.Numbered.{numbers_of as numbers_on, numbers_by};
ghost use Rattle.jc_answers.specs.steps.Trees.{IsOfTwoTrees};
ghost use Rattle.jc_losses.specs.Ground.{side_of_ground};
ghost use Rattle.jc_trees.specs.ClassLists.{IsClassList};

use crate::answer::{Answer, answer_of};
use crate::used::Explained;
use jc_facts::class_facts::ClassFacts;
use jc_facts::client::ClientClass;
use jc_losses::grounds::Ground;
use jc_losses::judge::judge;
use jc_used::explained::explained;
use jc_used::line::Line;
use std::alloc::{AllocError, Global};

/// What is said of the clients of one tree, and which lines explain what they lose.
#[derive(Drop)]
pub struct Said {
    pub answer: Answer,
    pub explained: Explained,
}

// Copies of the records of clients.
fn records_of(alloc: Global, clients: &[ClientClass]) -> Result<Vec<ClassFacts>, AllocError>
    ensures { IfOk result (λ records. records.items ≡ facts_of clients.now) }
{
    let mut records = Vec::with_capacity(alloc, clients.len())?;
    for client in clients {
        records.push(client.facts.copy(alloc)?)?;
    }
    Ok(records)
}

// What is said of the clients.
fn answered(
    alloc: Global,
    old: &Ground,
    new: &Ground,
    clients: Vec<ClientClass>,
) -> Result<Answer, AllocError>
    requires old { IsOfTwoTrees old.now }
    requires new { IsOfTwoTrees new.now }
    requires clients { IsClassList clients.items }
    ensures { IfOk result (λ answer. answer ≡ answer_on (side_of_ground old.now) (side_of_ground new.now) clients.items) }
{
    let judged = judge(alloc, old, new, clients)?;
    Ok(answer_of(judged))
}

// The numbers of the lines that explain what the clients with these records lose.
fn numbers_of(
    alloc: Global,
    records: &[ClassFacts],
    lines: &[Line],
    answer: &Answer,
) -> Result<Vec<Option<usize>>, AllocError>
    ensures { IfOk result (λ numbers. (clients : List ClientOf) → records.now ≡ facts_of clients → numbers.items ≡ numbers_on lines.now clients answer.now) }
{
    match answer {
        Answer::Judged(losses) => explained(alloc, records, lines, losses.lost.as_slice()),
        Answer::Refused(_) => Ok(Vec::new(alloc)),
    }
}

// What is said of the clients, and which of these lines explain what they lose.
fn with_lines(
    alloc: Global,
    old: &Ground,
    new: &Ground,
    clients: Vec<ClientClass>,
    lines: &[Line],
) -> Result<Said, AllocError>
    requires old { IsOfTwoTrees old.now }
    requires new { IsOfTwoTrees new.now }
    requires clients { IsClassList clients.items }
    ensures answer { IfOk result (λ said. said.answer ≡ answer_on (side_of_ground old.now) (side_of_ground new.now) clients.items) }
    ensures numbers { IfOk result (λ said. said.explained ≡ numbers_on lines.now clients.items said.answer) }
{
    let records = records_of(alloc, clients.as_slice())?;
    let answer = answered(alloc, old, new, clients)?;
    let numbers = numbers_of(alloc, records.as_slice(), lines, &answer)?;
    Ok(Said {
        answer,
        explained: Explained { numbers },
    })
}

/// What is said of the clients, and, where lines are given, which of them explain what they lose.
///
/// # Errors
///
/// `AllocError` where memory runs out.
pub(crate) fn said_of_clients(
    alloc: Global,
    old: &Ground,
    new: &Ground,
    clients: Vec<ClientClass>,
    lines: Option<&[Line]>,
) -> Result<Said, AllocError>
    requires old { IsOfTwoTrees old.now }
    requires new { IsOfTwoTrees new.now }
    requires clients { IsClassList clients.items }
    ensures answer { IfOk result (λ said. said.answer ≡ answer_on (side_of_ground old.now) (side_of_ground new.now) clients.items) }
    ensures numbers { IfOk result (λ said. said.explained ≡ numbers_by (option_map (λ ls. ls.now) lines.entry) clients.items said.answer) }
{
    match lines {
        Some(lines) => {
            let said = with_lines(alloc, old, new, clients, lines)?;
            Ok(said)
        }
        None => {
            let answer = answered(alloc, old, new, clients)?;
            Ok(Said {
                answer,
                explained: Explained::none(alloc),
            })
        }
    }
}
