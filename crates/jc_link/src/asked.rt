//! What is asked of clients, apart from their records.
ghost use Rattle.std.specs.Prelude.{◌≡◌, ◌++◌, map, IfOk};
ghost use Rattle.jc_facts.specs.client.Valid.{facts_of};
ghost use Rattle.jc_link.specs.steps.Asked.{asked_of};

use jc_base::items::Items;
use jc_base::name::Name;
use jc_facts::class_facts::ClassFacts;
use jc_facts::client::{ClientClass, Item};
use std::alloc::{AllocError, Global};

/// What is asked of a client: its loading, and its items.
#[derive(Drop)]
pub struct Asked {
    pub name: Name,
    pub items: Items<Item>,
}

/// The records of a release with those of clients behind them, and what is asked of each client.
#[derive(Drop)]
pub struct Parts {
    pub records: Vec<ClassFacts>,
    pub asked: Vec<Asked>,
}

/// The records of the release, with those of the clients behind them, and what is asked of each client. No
/// record is copied.
///
/// # Errors
///
/// `AllocError` where memory runs out.
pub fn parted(
    alloc: Global,
    release: Vec<ClassFacts>,
    clients: Vec<ClientClass>,
) -> Result<Parts, AllocError>
    ensures records { IfOk result (λ parts. parts.records.items ≡ release.items ++ facts_of clients.items) }
    ensures asked { IfOk result (λ parts. parts.asked.items ≡ map asked_of clients.items) }
{
    let mut records = release;
    let mut asked = Vec::new(alloc);
    for client in clients {
        let ClientClass { facts, items } = client;
        let name = facts.name.copy(alloc)?;
        records.push(facts)?;
        asked.push(Asked { name, items })?;
    }
    Ok(Parts { records, asked })
}
