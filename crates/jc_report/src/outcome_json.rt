//! The JSON of outcomes.
ghost use Rattle.std.specs.Prelude.{◌≡◌, ◌++◌, codes, IfOk};
ghost use Rattle.serde_json.specs.Data.{string};
ghost use Rattle.serde_json.specs.View.{view};
ghost use Rattle.jc_report.specs.LinkText.{line_of_outcome};
ghost use Rattle.jc_report.specs.OutcomeJson.{word_of_item, class_of_item, member_of_item, receiver_of_item, error_or_null, outcome_json};
ghost use Rattle.jc_report.specs.Text.{printed};

use crate::entry::Entry;
use crate::json_values::{key_value, name_or_null_value, name_value};
use crate::link_text::outcome_line;
use crate::printed::push_printed;
use crate::printed_words::{act_word, error_name};
use jc_base::name::Name;
use jc_facts::client::Item;
use jc_facts::link_error::LinkError;
use jc_facts::outcome::Outcome;
use serde_json::{Value, json};
use std::alloc::{AllocError, Global};

// The word of what an item does.
fn item_word(item: &Item) -> &'static str
    ensures { result.now ≡ word_of_item item.now }
{
    match item {
        Item::Class { .. } => "class",
        Item::New { .. } => "new",
        Item::Init { .. } => "init",
        Item::Access { act, .. } => act_word(*act),
        Item::Assign { .. } => "assign",
    }
}

// The class that an item names; of an assignment the type of the value.
fn item_class(item: &Item) -> &Name
    ensures { result.now ≡ class_of_item item.now }
{
    match item {
        Item::Class { class } => class,
        Item::New { class, .. } => class,
        Item::Init { class, .. } => class,
        Item::Access { class, .. } => class,
        Item::Assign { from, .. } => from,
    }
}

// The initializer of this descriptor.
fn init_value(alloc: Global, descriptor: &Name) -> Result<Value, AllocError>
    ensures { IfOk result (λ v. view v ≡ string (codes "<init>" ++ printed descriptor.now)) }
{
    let mut text = String::from_str(alloc, "<init>")?;
    push_printed(&mut text, descriptor.as_bytes())?;
    Ok(Value::String(text))
}

// The member that an item names; of an assignment the type that the value is used as.
fn item_member(alloc: Global, item: &Item) -> Result<Value, AllocError>
    ensures { IfOk result (λ v. view v ≡ member_of_item item.now) }
{
    match item {
        Item::Class { .. } => Ok(Value::Null),
        Item::New { descriptor, .. } => init_value(alloc, descriptor),
        Item::Init { descriptor, .. } => init_value(alloc, descriptor),
        Item::Access { key, .. } => key_value(alloc, key),
        Item::Assign { to, .. } => name_value(alloc, to),
    }
}

// The receiver of an item, where it has one that is known.
fn item_receiver(alloc: Global, item: &Item) -> Result<Value, AllocError>
    ensures { IfOk result (λ v. view v ≡ receiver_of_item item.now) }
{
    match item {
        Item::Class { .. } => Ok(Value::Null),
        Item::New { .. } => Ok(Value::Null),
        Item::Init { .. } => Ok(Value::Null),
        Item::Access { receiver, .. } => name_or_null_value(alloc, receiver),
        Item::Assign { .. } => Ok(Value::Null),
    }
}

// The name of an error, or null where there is none.
fn error_value(alloc: Global, error: Option<LinkError>) -> Result<Value, AllocError>
    ensures { IfOk result (λ v. view v ≡ error_or_null error) }
{
    match error {
        None => Ok(Value::Null),
        Some(error) => {
            let name = String::from_str(alloc, error_name(error))?;
            Ok(Value::String(name))
        }
    }
}

// The object of an outcome.
fn outcome_value(alloc: Global, outcome: &Outcome) -> Result<Value, AllocError>
    ensures { IfOk result (λ v. view v ≡ outcome_json outcome.now) }
{
    match &outcome.item {
        None => json!(in alloc; {
            "class": name_value(alloc, &outcome.class)?,
            "error": error_value(alloc, outcome.error)?,
            "member": null,
            "name": null,
            "operation": null,
            "receiver": null
        }),
        Some(item) => json!(in alloc; {
            "class": name_value(alloc, &outcome.class)?,
            "error": error_value(alloc, outcome.error)?,
            "member": item_member(alloc, item)?,
            "name": name_value(alloc, item_class(item))?,
            "operation": item_word(item),
            "receiver": item_receiver(alloc, item)?
        }),
    }
}

impl Entry for Outcome {
    ghost printed = { λ outcome number. line_of_outcome outcome };

    ghost shaped = { λ outcome number. outcome_json outcome };

    fn line(&self, alloc: Global, _number: usize) -> Result<Vec<u8>, AllocError> {
        outcome_line(alloc, self)
    }

    fn value(&self, alloc: Global, _number: usize) -> Result<Value, AllocError> {
        outcome_value(alloc, self)
    }
}
