//! Whether a client is valid.
ghost use Rattle.std.specs.Prelude.{◌≡◌, ◌↔◌, ◌||◌, ◌&&◌, IfOk, IsTrue};
ghost use Rattle.std.specs.List.{list_all};
ghost use Rattle.jc_facts.specs.Names.{same};
ghost use Rattle.jc_desc.specs.Names.{is_init_name, is_clinit_name};
ghost use Rattle.jc_facts.specs.client.Acts.{is_act_on_field};
ghost use Rattle.jc_facts.specs.Options.{some_and};
ghost use Rattle.jc_facts.specs.client.Valid.{IsValidClient, is_item_of};

use crate::act::Act;
use crate::class_facts::ClassFacts;
use crate::client::{ClientClass, Item};
use crate::validity::is_valid;
use jc_base::name::Name;
use std::alloc::{AllocError, Global};

/// Whether the act is one of the four on fields (JVMS 6.5).
pub fn is_field_act(act: Act) -> bool
    ensures { result ≡ is_act_on_field act }
{
    matches!(
        act,
        Act::GetStatic | Act::PutStatic | Act::GetField | Act::PutField
    )
}

fn is_initializer(name: &Name) -> bool
    ensures { result ≡ (is_init_name name.now || is_clinit_name name.now) }
{
    let name = name.as_bytes();
    name == b"<init>".as_slice() || name == b"<clinit>".as_slice()
}

fn is_super(facts: &ClassFacts, class: &Name) -> bool
    ensures { result ≡ some_and (same class.now) facts.now.superclass }
{
    match &facts.superclass {
        None => false,
        Some(name) => class.as_bytes() == name.as_bytes(),
    }
}

/// Whether a valid client of this record may have the item: an `Init` names the class or its
/// superclass, and no act on a method names an initializer (JVMS 2.9, 4.9.1).
pub fn is_valid_item(facts: &ClassFacts, item: &Item) -> bool
    ensures { result ≡ is_item_of facts.now item.now }
{
    match item {
        Item::Init { class, .. } => {
            class.as_bytes() == facts.name.as_bytes() || is_super(facts, class)
        }
        Item::Access { act, key, .. } => is_field_act(*act) || !is_initializer(&key.name),
        _ => true,
    }
}

fn are_valid_items(client: &ClientClass) -> bool
    ensures { result ≡ list_all (is_item_of client.now.facts) client.now.items }
{
    client
        .items
        .as_slice()
        .iter()
        .all(|item| is_valid_item(&client.facts, item))
}

/// Whether the client is valid: its record is, and it may have each of its items.
///
/// # Errors
///
/// `AllocError` where memory runs out.
pub fn is_valid_client(alloc: Global, client: &ClientClass) -> Result<bool, AllocError>
    ensures { IfOk result (λ valid. IsTrue valid ↔ IsValidClient client.now) }
{
    let facts = is_valid(alloc, &client.facts)?;
    let items = are_valid_items(client);
    Ok(facts && items)
}
