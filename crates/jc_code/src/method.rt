//! The items of a method: of its one Code (JVMS 4.6, 4.7.3).
ghost use Rattle.std.specs.Prelude.{◌≡◌, ◌||◌, IfOk, codes, false};
ghost use Rattle.std.specs.Option.{option_map};
ghost use Rattle.std.specs.Result.{result_map_both};
ghost use Rattle.jc_facts.specs.code.ClientItems as client;
ghost use Rattle.jc_facts.specs.file.ClassSteps.{has_this_name};
ghost use Rattle.jc_attr.specs.Views.{attribute_view, code_view};
ghost use Rattle.jc_code.specs.steps.Views.{around_view};
ghost use Rattle.jc_facts.specs.file.Refusals as refusals;
ghost use Rattle.jc_code.specs.steps.Pushed.{in_front, with_before};

use crate::around::Around;
use crate::catches::catches;
use crate::scan::scan;
use crate::typing::typed_code;
use jc_attr::attribute::{Attribute, attribute_at};
use jc_attr::code::{CodeParts, code};
use jc_desc::fault::Fault;
use jc_desc::limits::MAX_CODE;
use jc_facts::client::Item;
use jc_facts::code_fault::{CodeFault, CodeReason};
use std::alloc::{AllocError, Global};

/// The parts of a Code, where it is of its form and its code is neither empty nor longer than `MAX_CODE` bytes.
#[tactic(auto, unfolding(jc_facts::specs::code::ClientItems::layout_of))]
fn layout(body: &[u8]) -> Option<CodeParts<'_>>
    ensures { option_map (λ c. code_view c) result ≡ client.layout_of body.now }
{
    match code(body) {
        None => None,
        Some(c) => {
            if 1 <= c.bytes.len() && c.bytes.len() <= MAX_CODE {
                Some(c)
            } else {
                None
            }
        }
    }
}

/// The items, or in their place those of typing where there are some.
fn choose(scanned: Vec<Item>, typed: Option<Vec<Item>>) -> Vec<Item>
    ensures { result.items ≡ client.of_code (option_map (λ x. x.items) typed) scanned.items }
{
    match typed {
        None => scanned,
        Some(typed) => typed,
    }
}

/// Adds the items of a Code, at whose first instruction so many bytes of the file are left.
#[tactic(auto, unfolding(jc_facts::specs::code::ClientItems::items_of_code))]
fn items_of_code(
    alloc: Global,
    a: Around<'_, '_>,
    left: usize,
    c: CodeParts<'_>,
    items: &mut Vec<Item>,
) -> Result<Result<(), CodeFault>, AllocError>
    ensures { IfOk result (λ r. result_map_both (λ _. items.new.items) (λ e. e) r ≡ in_front items.old.items (client.items_of_code (around_view a.entry) left (code_view c.entry))) }
{
    let mut scanned = Vec::new(alloc);
    match scan(alloc, a, left, c.bytes, &mut scanned)? {
        Ok(()) => {}
        Err(fault) => return Ok(Err(fault)),
    }
    let table = left.saturating_sub(c.bytes.len() + 2);
    match catches(alloc, a.pool, table, c.catches, &mut scanned)? {
        Ok(()) => {}
        Err(fault) => return Ok(Err(fault)),
    }
    let typed = typed_code(alloc, a, c)?;
    let mut chosen = choose(scanned, typed);
    items.append(&mut chosen)?;
    Ok(Ok(()))
}

/// Adds the items of a Code that stands where so many bytes are left; where one came before, it is refused.
#[tactic(auto, unfolding(jc_facts::specs::code::ClientItems::code_items))]
fn code_items(
    alloc: Global,
    a: Around<'_, '_>,
    before: bool,
    left: usize,
    body: &[u8],
    items: &mut Vec<Item>,
) -> Result<Result<(), CodeFault>, AllocError>
    ensures { IfOk result (λ r. result_map_both (λ _. items.new.items) (λ e. e) r ≡ in_front items.old.items (client.code_items (around_view a.entry) before left body.now)) }
{
    if before {
        return Ok(Err(CodeFault {
            left,
            reason: CodeReason::BadLayout,
        }));
    }
    match layout(body) {
        None => Ok(Err(CodeFault {
            left,
            reason: CodeReason::BadLayout,
        })),
        Some(c) => {
            let at_code = left.saturating_sub(6 + c.start as usize);
            let read = items_of_code(alloc, a, at_code, c, items)?;
            Ok(read)
        }
    }
}

fn is_code(attribute: Attribute<'_, '_>) -> bool
    ensures { result ≡ has_this_name (attribute_view attribute.entry) (codes "Code") }
{
    attribute.name == b"Code".as_slice()
}

fn or_code(before: bool, attribute: Attribute<'_, '_>) -> bool
    ensures { result ≡ (before || has_this_name (attribute_view attribute.entry) (codes "Code")) }
{
    before || is_code(attribute)
}

#[tactic(auto, unfolding(jc_facts::specs::code::ClientItems::attribute_items))]
fn attribute_items(
    alloc: Global,
    a: Around<'_, '_>,
    before: bool,
    left: usize,
    attribute: Attribute<'_, '_>,
    items: &mut Vec<Item>,
) -> Result<Result<(), CodeFault>, AllocError>
    ensures { IfOk result (λ r. result_map_both (λ _. items.new.items) (λ e. e) r ≡ in_front items.old.items (client.attribute_items (around_view a.entry) before left (attribute_view attribute.entry))) }
{
    if is_code(attribute) {
        let read = code_items(alloc, a, before, left, attribute.body, items)?;
        Ok(read)
    } else {
        Ok(Ok(()))
    }
}

/// A fault of the reader, which a class file that is read hasn't.
pub(crate) fn unread(fault: Fault) -> CodeFault
    ensures { result ≡ refusals.unread fault }
{
    CodeFault {
        left: fault.left,
        reason: CodeReason::BadLayout,
    }
}

/// Adds the items of n attributes of a method, and gives what comes behind them.
#[tactic(auto, using(crate::proofs::EachMethod::attributes_done))]
pub(crate) fn attributes_items<'b>(
    alloc: Global,
    a: Around<'_, '_>,
    count: u16,
    bytes: &'b [u8],
    items: &mut Vec<Item>,
) -> Result<Result<&'b [u8], CodeFault>, AllocError>
    ensures { IfOk result (λ r. result_map_both (λ x. (items.new.items, x.now)) (λ e. e) r ≡ with_before items.old.items (client.attributes_items (around_view a.entry) false count bytes.now)) }
{
    let mut before = false;
    let mut rest = bytes;
    for _ in 0..count {
        let (attribute, after) = match attribute_at(a.pool, rest) {
            Ok(read) => read,
            Err(fault) => return Ok(Err(unread(fault))),
        };
        match attribute_items(alloc, a, before, rest.len(), attribute, items)? {
            Ok(()) => {}
            Err(fault) => return Ok(Err(fault)),
        }
        before = or_code(before, attribute);
        rest = after;
    }
    Ok(Ok(rest))
}
