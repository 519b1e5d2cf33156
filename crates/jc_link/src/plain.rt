//! Plain programs for what linking asks of clients: a walk along the list.
ghost use Rattle.std.specs.Prelude.{◌≡◌, ◌↔◌, IfOk, IsTrue};
ghost use Rattle.std.specs.List.{All};
ghost use Rattle.jc_facts.specs.world.World.{differ_by_name};
ghost use Rattle.jc_facts.specs.client.Valid.{facts_of, IsValidClient};

use jc_facts::class_facts::ClassFacts;
use jc_facts::client::ClientClass;
use jc_facts::client_validity::is_valid_client;
use jc_index::plain;
use std::alloc::{AllocError, Global};

/// Whether all of the clients are valid.
///
/// # Errors
///
/// `AllocError` where memory runs out.
pub fn are_valid(alloc: Global, clients: &[ClientClass]) -> Result<bool, AllocError>
    ensures { IfOk result (λ valid. IsTrue valid ↔ All IsValidClient clients.now) }
{
    for client in clients {
        let valid = is_valid_client(alloc, client)?;
        if !valid {
            return Ok(false);
        }
    }
    Ok(true)
}

// Copies of the records of the clients.
fn records_of(alloc: Global, clients: &[ClientClass]) -> Result<Vec<ClassFacts>, AllocError>
    ensures { IfOk result (λ classes. classes.items ≡ facts_of clients.now) }
{
    let mut classes = Vec::new(alloc);
    for client in clients {
        classes.push(client.facts.copy(alloc)?)?;
    }
    Ok(classes)
}

/// Whether no two of the clients have one name. The time grows with the square of their number.
///
/// # Errors
///
/// `AllocError` where memory runs out.
pub fn names_differ(alloc: Global, clients: &[ClientClass]) -> Result<bool, AllocError>
    ensures { IfOk result (λ differ. differ ≡ differ_by_name (facts_of clients.now)) }
{
    let facts = records_of(alloc, clients)?;
    Ok(plain::names_differ(facts.as_slice()))
}
