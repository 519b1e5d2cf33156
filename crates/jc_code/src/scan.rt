//! The scan of code: its instructions one after the other (JVMS 4.7.3, 4.9.1).
ghost use Rattle.std.specs.Prelude.{◌≡◌, ◌≤◌, ◌+◌, length, IfOk};
ghost use Rattle.std.specs.Result.{result_map_both};
ghost use Rattle.jc_facts.specs.code.Code as code;
ghost use Rattle.jc_code.specs.steps.Views.{around_view};
ghost use Rattle.jc_code.specs.steps.Pushed.{grown, in_front};

use crate::around::Around;
use crate::lengths::instruction_len;
use crate::numbers::{after, short_in};
use crate::opcodes;
use crate::uses::used;
use jc_facts::client::Item;
use jc_facts::code_fault::{CodeFault, CodeReason};
use std::alloc::{AllocError, Global};

/// The pool index behind an opcode: one byte for `ldc`, two for the others; 0 where they aren't there.
pub(crate) fn operand(op: u8, rest: &[u8]) -> u16
    ensures { result ≡ code.operand op rest.now }
{
    if op == opcodes::LDC {
        match rest.split_first() {
            None => 0,
            Some((first, _)) => *first as u16,
        }
    } else {
        short_in(0, rest)
    }
}

/// The length of an instruction, whose items are added.
#[tactic(auto, unfolding(jc_facts::specs::code::Code::instruction_at))]
fn instruction(
    alloc: Global,
    a: Around<'_, '_>,
    left: usize,
    pc: usize,
    op: u8,
    rest: &[u8],
    items: &mut Vec<Item>,
) -> Result<Result<usize, CodeFault>, AllocError>
    ensures exact { IfOk result (λ r. result_map_both (λ n. (n, items.new.items)) (λ e. e) r ≡ grown items.old.items (code.instruction_at (around_view a.entry) left pc op rest.now)) }
    ensures fits { IfOk result (λ r. IfOk r (λ n. n ≤ length rest.now + 1)) }
{
    let left = left.saturating_sub(pc);
    match instruction_len(pc, op, rest) {
        Err(reason) => Ok(Err(CodeFault { left, reason })),
        Ok(len) => {
            if used(alloc, a, op, operand(op, rest), items)? {
                Ok(Ok(len))
            } else {
                Ok(Err(CodeFault {
                    left,
                    reason: CodeReason::BadEntry,
                }))
            }
        }
    }
}

/// The length of the instruction in front, whose items are added.
#[tactic(auto, unfolding(jc_facts::specs::code::Code::next_at))]
fn next(
    alloc: Global,
    a: Around<'_, '_>,
    left: usize,
    pc: usize,
    bytes: &[u8],
    items: &mut Vec<Item>,
) -> Result<Result<usize, CodeFault>, AllocError>
    ensures exact { IfOk result (λ r. result_map_both (λ n. (n, items.new.items)) (λ e. e) r ≡ grown items.old.items (code.next_at (around_view a.entry) left pc bytes.now)) }
    ensures fits { IfOk result (λ r. IfOk r (λ n. n ≤ length bytes.now)) }
{
    match bytes.split_first() {
        None => Ok(Ok(0)),
        Some((op, rest)) => {
            let read = instruction(alloc, a, left, pc, *op, rest, items)?;
            Ok(read)
        }
    }
}

/// Adds the items of code, at whose first byte so many bytes of the file are left.
#[tactic(auto, using(crate::proofs::EachInstruction::scan_done))]
pub(crate) fn scan(
    alloc: Global,
    a: Around<'_, '_>,
    left: usize,
    bytes: &[u8],
    items: &mut Vec<Item>,
) -> Result<Result<(), CodeFault>, AllocError>
    ensures { IfOk result (λ r. result_map_both (λ _. items.new.items) (λ e. e) r ≡ in_front items.old.items (code.scan_at (around_view a.entry) left (length bytes.now) 0 bytes.now)) }
{
    let mut pc = 0;
    let mut rest = bytes;
    for _ in 0..bytes.len() {
        let len = match next(alloc, a, left, pc, rest, items)? {
            Ok(len) => len,
            Err(fault) => return Ok(Err(fault)),
        };
        pc += len;
        rest = after(len, rest);
    }
    Ok(Ok(()))
}
