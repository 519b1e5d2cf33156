//! The exception table of a Code (JVMS 4.7.3).
ghost use Rattle.std.specs.Prelude.{◌≡◌, ◌/◌, length, IfOk};
ghost use Rattle.std.specs.Result.{result_map_both};
ghost use Rattle.jc_facts.specs.code.Code as code;
ghost use Rattle.jc_code.specs.steps.Pushed.{Adds, in_front};

use crate::entries::named;
use crate::numbers::{after, short_in};
use jc_facts::client::Item;
use jc_facts::code_fault::{CodeFault, CodeReason};
use jc_pool::pool::Pool;
use std::alloc::{AllocError, Global};

/// Adds the item of a catch type; false where it is neither 0 nor a Class.
fn caught(alloc: Global, pool: &Pool<'_>, i: u16, items: &mut Vec<Item>) -> Result<bool, AllocError>
    ensures { IfOk result (λ done. Adds items.old.items items.new.items (code.caught pool.now i) done) }
{
    if i == 0 {
        Ok(true)
    } else {
        named(alloc, pool, i, items)
    }
}

/// Adds the items of an exception table, at whose first entry so many bytes of the file are left.
#[tactic(auto, using(crate::proofs::EachInstruction::catches_done))]
pub(crate) fn catches(
    alloc: Global,
    pool: &Pool<'_>,
    left: usize,
    bytes: &[u8],
    items: &mut Vec<Item>,
) -> Result<Result<(), CodeFault>, AllocError>
    ensures { IfOk result (λ r. result_map_both (λ _. items.new.items) (λ e. e) r ≡ in_front items.old.items (code.catches_at pool.now left (length bytes.now / 8) bytes.now)) }
{
    let mut here = left;
    let mut rest = bytes;
    for _ in 0..bytes.len() / 8 {
        if !caught(alloc, pool, short_in(6, rest), items)? {
            return Ok(Err(CodeFault {
                left: here,
                reason: CodeReason::BadEntry,
            }));
        }
        here = here.saturating_sub(8);
        rest = after(8, rest);
    }
    Ok(Ok(()))
}
