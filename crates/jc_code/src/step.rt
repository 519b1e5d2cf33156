//! One instruction of a straight-line method.
ghost use Rattle.std.specs.Prelude.{◌≡◌, ◌≤◌, ◌+◌, codes, ℕ, get_or, List, IfOk, IfSome, length};
ghost use Rattle.std.specs.Option.{option_map};
ghost use Rattle.jc_facts.specs.declared.client.Item.{Item};
ghost use Rattle.jc_facts.specs.code.Typing as typing;
ghost use Rattle.jc_code.specs.steps.Views.{around_view};
ghost use Rattle.jc_code.specs.steps.KindView.{kind_view};
ghost use Rattle.jc_code.specs.steps.FrameView.{frame_view};
ghost use Rattle.jc_code.specs.steps.InstructionView.{instruction_view};
ghost use Rattle.jc_code.specs.steps.Steps.{Makes, step_with};

use crate::acts::act_on;
use crate::around::Around;
use crate::construct::construct;
use crate::frame::Frame;
use crate::instruction::{Instruction, decode};
use crate::kinds::Kind;
use crate::lengths::instruction_len;
use crate::scan::operand;
use crate::stack::{cast, dup, load, pop_one, pop_two, push_only, push_with, store};
use jc_facts::client::Item;
use std::alloc::{AllocError, Global};

/// The kind of a constant that is a class.
fn class_kind<'a>() -> Kind<'a>
    ensures { kind_view result ≡ typing.ref (codes "java/lang/Class") }
{
    Kind::Ref(b"java/lang/Class".as_slice())
}

/// Does what the instruction at this place does; false where the method isn't straight.
#[tactic(auto, unfolding(jc_facts::specs::code::Typing::run))]
fn run<'a>(
    alloc: Global,
    a: Around<'a, '_>,
    pc: usize,
    instruction: Instruction<'a>,
    frame: &mut Frame<'a>,
    items: &mut Vec<Item>,
) -> Result<bool, AllocError>
    ensures { IfOk result (λ done. Makes items.old.items items.new.items (frame_view frame.new) (typing.run (around_view a.entry) pc (instruction_view instruction.entry) (frame_view frame.old)) done) }
{
    match instruction {
        Instruction::Nothing => Ok(true),
        Instruction::Pushes(kind) => push_only(frame, kind, items),
        Instruction::LoadsClass(name) => push_with(alloc, a.pool, name, class_kind(), frame, items),
        Instruction::Loads(number, place) => load(number, place as usize, frame, items),
        Instruction::Stores(number, place) => store(number, place as usize, frame, items),
        Instruction::Pops => pop_one(frame, items),
        Instruction::PopsTwo => pop_two(frame, items),
        Instruction::Dups => dup(frame, items),
        Instruction::Makes(name) => push_with(
            alloc,
            a.pool,
            name,
            Kind::Fresh(pc, name),
            frame,
            items,
        ),
        Instruction::Casts(name) => cast(alloc, a.pool, name, Kind::Ref(name), frame, items),
        Instruction::Tests(name) => cast(alloc, a.pool, name, Kind::Int, frame, items),
        Instruction::Uses(act, m) => act_on(alloc, a, act, m, frame, items),
        Instruction::Constructs(m) => construct(alloc, a, m, frame, items),
    }
}

/// The byte behind the opcode; 0 where it isn't there.
fn near(rest: &[u8]) -> u8
    ensures { result ≡ get_or rest.now 0 0 }
{
    match rest.split_first() {
        None => 0,
        Some((first, _)) => *first,
    }
}

/// The length of the instruction, and what it is; None where it stands in no straight method.
fn decoded<'a>(
    a: Around<'a, '_>,
    pc: usize,
    op: u8,
    rest: &[u8],
) -> Option<(usize, Instruction<'a>)>
    ensures exact { option_map {U = ℕ × typing.Instruction} (λ x. (x.0, instruction_view x.1)) result ≡ typing.decoded_at (around_view a.entry) pc op rest.now }
    ensures fits { IfSome result (λ x. x.0 ≤ length rest.now + 1) }
{
    match instruction_len(pc, op, rest) {
        Err(_) => None,
        Ok(len) => match decode(a, op, near(rest), operand(op, rest)) {
            None => None,
            Some(instruction) => Some((len, instruction)),
        },
    }
}

/// Does what the instruction in front does, and gives its length; None where the method isn't straight.
#[tactic(auto, unfolding(jc_facts::specs::code::Typing::step_at))]
pub(crate) fn step<'a>(
    alloc: Global,
    a: Around<'a, '_>,
    pc: usize,
    op: u8,
    rest: &[u8],
    frame: &mut Frame<'a>,
    items: &mut Vec<Item>,
) -> Result<Option<usize>, AllocError>
    ensures exact { IfOk result (λ r. option_map {U = ℕ × List Item × typing.Frame} (λ n. (n, items.new.items, frame_view frame.new)) r ≡ step_with items.old.items (typing.step_at (around_view a.entry) pc (frame_view frame.old) op rest.now)) }
    ensures fits { IfOk result (λ r. IfSome r (λ n. n ≤ length rest.now + 1)) }
{
    let Some((len, instruction)) = decoded(a, pc, op, rest) else {
        return Ok(None);
    };
    if run(alloc, a, pc, instruction, frame, items)? {
        Ok(Some(len))
    } else {
        Ok(None)
    }
}
