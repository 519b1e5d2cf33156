//! Clients in byte order of their names.
ghost use Rattle.std.specs.Prelude.{◌≡◌, OnOk, IsTrue};
ghost use Rattle.std.specs.List.Sorted.{IsPermutation, IsSortedBy};
ghost use Rattle.std.specs.Ordering.{is_lt};
ghost use Rattle.jc_facts.specs.Exactly.{name_order};
ghost use Rattle.jc_facts.specs.world.World.{differ_by_name};
ghost use Rattle.jc_facts.specs.client.Valid.{facts_of};
ghost use Rattle.jc_facts.specs.client.Linked.{in_order};

use jc_facts::client::ClientClass;
use std::alloc::AllocError;

// Sorts the clients by their names.
fn sort_by_name(clients: &mut Vec<ClientClass>) -> Result<(), AllocError>
    ensures permutation { IsPermutation clients.old.items clients.new.items }
    ensures sorted { OnOk result (IsSortedBy (λ x y. is_lt (name_order x.facts.name y.facts.name)) clients.new.items) }
{
    clients.sort_by(|a, b| a.facts.name.cmp(&b.facts.name))?;
    Ok(())
}

/// Puts the clients, whose names differ, into byte order of their names.
///
/// # Errors
///
/// `AllocError` where memory runs out.
pub fn sort(clients: &mut Vec<ClientClass>) -> Result<(), AllocError>
    requires { IsTrue (differ_by_name (facts_of clients.now.items)) }
    ensures { OnOk result (clients.new.items ≡ in_order clients.old.items) }
{
    sort_by_name(clients)?;
    Ok(())
}
