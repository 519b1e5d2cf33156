//! The items of a whole client class file.
ghost use Rattle.std.specs.Prelude.{◌≡◌, ◌≤◌, Ok, length, IfOk, MatchResult};
ghost use Rattle.std.specs.Option.{option_map};
ghost use Rattle.std.specs.Result.{result_map_both};
ghost use Rattle.jc_facts.specs.declared.class_facts.ClassFacts.{ClassFacts};
ghost use Rattle.jc_facts.specs.file.ClassGrammar.{Reads};
ghost use Rattle.jc_facts.specs.code.ClientItems as client;
ghost use Rattle.jc_facts.specs.client.Valid.{IsValidClient};
ghost use Rattle.jc_facts.specs.file.Refusals.{◌>>=◌ as ◌>=>◌};
ghost use Rattle.jc_attr.specs.Views.{head_view};
ghost use Rattle.jc_code.specs.Fails.{CodeFails};
ghost use Rattle.jc_desc.specs.declared.limits.TheConstants.{MAX_CLASS_BYTES};

use crate::bootstrap_rows::{boots_body, lent, rows};
use crate::method::unread;
use crate::methods::methods_items;
use jc_attr::class_head::{ClassHead, head_at};
use jc_attr::skips::{behind_interfaces, behind_members};
use jc_desc::bytes::u16_at;
use jc_facts::client::Item;
use jc_facts::code_fault::{CodeFault, CodeReason};
use jc_pool::pool::Pool;
use std::alloc::{AllocError, Global};

/// The items of the methods of a class whose first BootstrapMethods has these contents.
fn class_items<'a>(
    alloc: Global,
    pool: &Pool<'a>,
    head: ClassHead<'a>,
    body: Option<&[u8]>,
    count: u16,
    bytes: &[u8],
) -> Result<Result<Vec<Item>, CodeFault>, AllocError>
    ensures { IfOk result (λ r. result_map_both (λ x. x.items) (λ e. e) r ≡ (client.methods_items pool.now (head_view head.entry) (client.boots_of (option_map (λ x. x.now) body.entry)) count bytes.now >=> λ all. Ok all.0)) }
{
    let rows = rows(alloc, pool, body)?;
    let mut items = Vec::new(alloc);
    match methods_items(alloc, pool, head, lent(&rows), count, bytes, &mut items)? {
        Ok(_) => Ok(Ok(items)),
        Err(fault) => Ok(Err(fault)),
    }
}

#[tactic(auto, unfolding(jc_facts::specs::code::ClientItems::items))]
fn items(alloc: Global, bytes: &[u8]) -> Result<Result<Vec<Item>, CodeFault>, AllocError>
    ensures { IfOk result (λ r. result_map_both (λ x. x.items) (λ e. e) r ≡ client.items bytes.now) }
{
    let (pool, rest) = match Pool::read_front(alloc, bytes)? {
        Ok(read) => read,
        Err(fault) => return Ok(Err(unread(fault))),
    };
    let (head, rest) = match head_at(&pool, rest) {
        Ok(read) => read,
        Err(fault) => return Ok(Err(unread(fault))),
    };
    let fields = match behind_interfaces(rest) {
        Ok(rest) => rest,
        Err(fault) => return Ok(Err(unread(fault))),
    };
    let methods = match behind_members(fields) {
        Ok(rest) => rest,
        Err(fault) => return Ok(Err(unread(fault))),
    };
    let attributes = match behind_members(methods) {
        Ok(rest) => rest,
        Err(fault) => return Ok(Err(unread(fault))),
    };
    let (body, _) = match boots_body(&pool, attributes) {
        Ok(read) => read,
        Err(fault) => return Ok(Err(unread(fault))),
    };
    let (count, rest) = match u16_at(methods) {
        Ok(read) => read,
        Err(fault) => return Ok(Err(unread(fault))),
    };
    let found = class_items(alloc, &pool, head, body, count, rest)?;
    Ok(found)
}

/// Why a client class file gives no items.
#[derive(Clone, Copy, Debug, PartialEq, Eq)]
pub enum CodeError {
    /// The first refusal of the file's code: its offset in bytes from the file's start, and why.
    BadCode { offset: u32, reason: CodeReason },
    /// Memory ran out.
    Memory,
}

/// What the code of a class file does with other classes: the items of its methods in file order
/// (JVMS 4.7.3, 6.5). The bytes are at most 4,194,304, and a class file.
///
/// # Errors
///
/// `BadCode` exactly where the code is refused, with the first refusal; where memory runs out,
/// `Memory`, about which nothing is said.
pub fn items_of(alloc: Global, bytes: &[u8]) -> Result<Vec<Item>, CodeError>
    requires { length bytes.now ≤ MAX_CLASS_BYTES }
    ensures exact { MatchResult result (λ found. client.items bytes.now ≡ Ok found.items) (CodeFails bytes.now) }
    ensures valid { IfOk result (λ found. (facts : ClassFacts) → Reads bytes.now facts → IsValidClient (record { facts = facts; items = found.items })) }
{
    match items(alloc, bytes) {
        Ok(Ok(found)) => Ok(found),
        Ok(Err(fault)) => Err(CodeError::BadCode {
            offset: bytes.len().saturating_sub(fault.left) as u32,
            reason: fault.reason,
        }),
        Err(_) => Err(CodeError::Memory),
    }
}
