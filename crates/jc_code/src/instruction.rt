//! The instructions of straight-line methods (JVMS 6.5), with what their pool entries hold.
ghost use Rattle.std.specs.Prelude.{◌≡◌};
ghost use Rattle.std.specs.Option.{option_map};
ghost use Rattle.jc_desc.specs.PoolAnswers.{class_in};
ghost use Rattle.jc_facts.specs.code.Typing as typing;
ghost use Rattle.jc_pool.specs.Views.{member_view};
ghost use Rattle.jc_code.specs.steps.Views.{around_view};
ghost use Rattle.jc_code.specs.steps.InstructionView.{instruction_view};

use crate::around::Around;
use crate::entries::{either, holds_tag};
use crate::kinds::Kind;
use crate::lengths::between;
use crate::opcodes;
use jc_attr::classes::is_bracketed;
use jc_desc::names::is_init;
use jc_desc::tags;
use jc_facts::act::Act;
use jc_pool::pool::{MemberRef, Pool};

/// An instruction of a straight-line method that is no return.
#[derive(Clone, Copy)]
pub(crate) enum Instruction<'a> {
    Nothing,
    Pushes(Kind<'a>),
    LoadsClass(&'a [u8]),
    Loads(u8, u8),
    Stores(u8, u8),
    Pops,
    PopsTwo,
    Dups,
    Makes(&'a [u8]),
    Casts(&'a [u8]),
    Tests(&'a [u8]),
    Uses(Act, MemberRef<'a>),
    Constructs(MemberRef<'a>),
}

/// `ldc` and `ldc_w`
#[tactic(auto, unfolding(jc_facts::specs::code::Typing::constant_in))]
fn constant_in<'a>(pool: &Pool<'a>, i: u16) -> Option<Instruction<'a>>
    ensures { option_map (λ i. instruction_view i) result ≡ typing.constant_in pool.now i }
{
    if holds_tag(pool, i, tags::INTEGER) {
        return Some(Instruction::Pushes(Kind::Int));
    }
    if holds_tag(pool, i, tags::FLOAT) {
        return Some(Instruction::Pushes(Kind::Float));
    }
    if holds_tag(pool, i, tags::STRING) {
        return Some(Instruction::Pushes(Kind::Ref(b"java/lang/String".as_slice())));
    }
    match pool.class(i) {
        None => None,
        Some(name) => Some(Instruction::LoadsClass(name)),
    }
}

/// `ldc2_w`
fn wide_in<'a>(pool: &Pool<'a>, i: u16) -> Option<Instruction<'a>>
    ensures { option_map (λ i. instruction_view i) result ≡ typing.wide_in pool.now i }
{
    if holds_tag(pool, i, tags::LONG) {
        return Some(Instruction::Pushes(Kind::Long));
    }
    if holds_tag(pool, i, tags::DOUBLE) {
        return Some(Instruction::Pushes(Kind::Double));
    }
    None
}

/// The member of a class that isn't an array.
fn plain_in<'a>(a: Around<'a, '_>, i: u16) -> Option<MemberRef<'a>>
    ensures { option_map (λ m. member_view m) result ≡ typing.plain_in (around_view a.entry) i }
{
    match a.pool.member_ref(i) {
        None => None,
        Some(m) => { if is_bracketed(m.class) { None } else { Some(m) } }
    }
}

fn act_in<'a>(a: Around<'a, '_>, act: Act, interface: Act, i: u16) -> Option<Instruction<'a>>
    ensures { option_map (λ i. instruction_view i) result ≡ typing.act_in (around_view a.entry) act interface i }
{
    match plain_in(a, i) {
        None => None,
        Some(m) => Some(Instruction::Uses(either(m, act, interface), m)),
    }
}

/// `invokespecial`
fn special_in<'a>(a: Around<'a, '_>, i: u16) -> Option<Instruction<'a>>
    ensures { option_map (λ i. instruction_view i) result ≡ typing.special_in (around_view a.entry) i }
{
    match plain_in(a, i) {
        None => None,
        Some(m) => {
            if is_init(m.name) {
                Some(Instruction::Constructs(m))
            } else {
                Some(Instruction::Uses(
                    either(m, Act::InvokeSpecial, Act::InvokeSpecialInterface),
                    m,
                ))
            }
        }
    }
}

/// An instruction without a pool entry, by its opcode and the byte behind it.
#[tactic(auto, unfolding(jc_facts::specs::code::Typing::plain_instruction))]
fn plain_instruction<'a>(op: u8, near: u8) -> Option<Instruction<'a>>
    ensures { option_map (λ i. instruction_view i) result ≡ typing.plain_instruction op near }
{
    if op == 0 {
        Some(Instruction::Nothing)
    } else if op == 1 {
        Some(Instruction::Pushes(Kind::Null))
    } else if between(2, 8, op) || op == 16 || op == 17 {
        Some(Instruction::Pushes(Kind::Int))
    } else if op == 9 || op == 10 {
        Some(Instruction::Pushes(Kind::Long))
    } else if between(11, 13, op) {
        Some(Instruction::Pushes(Kind::Float))
    } else if op == 14 || op == 15 {
        Some(Instruction::Pushes(Kind::Double))
    } else if between(21, 25, op) {
        Some(Instruction::Loads(op - 21, near))
    } else if between(26, 45, op) {
        Some(Instruction::Loads((op - 26) / 4, (op - 26) % 4))
    } else if between(54, 58, op) {
        Some(Instruction::Stores(op - 54, near))
    } else if between(59, 78, op) {
        Some(Instruction::Stores((op - 59) / 4, (op - 59) % 4))
    } else if op == opcodes::POP {
        Some(Instruction::Pops)
    } else if op == opcodes::POP2 {
        Some(Instruction::PopsTwo)
    } else if op == opcodes::DUP {
        Some(Instruction::Dups)
    } else {
        None
    }
}

fn named<'a>(a: Around<'a, '_>, i: u16) -> Option<&'a [u8]>
    ensures { option_map (λ x. x.now) result ≡ class_in a.entry.pool.now i }
{
    a.pool.class(i)
}

/// An instruction with a pool entry, by its opcode and the index.
#[tactic(auto, unfolding(jc_facts::specs::code::Typing::entry_instruction))]
fn entry_instruction<'a>(a: Around<'a, '_>, op: u8, i: u16) -> Option<Instruction<'a>>
    ensures { option_map (λ i. instruction_view i) result ≡ typing.entry_instruction (around_view a.entry) op i }
{
    if op == opcodes::LDC || op == opcodes::LDC_W {
        constant_in(a.pool, i)
    } else if op == opcodes::LDC2_W {
        wide_in(a.pool, i)
    } else if op == opcodes::GETSTATIC {
        act_in(a, Act::GetStatic, Act::GetStatic, i)
    } else if op == opcodes::PUTSTATIC {
        act_in(a, Act::PutStatic, Act::PutStatic, i)
    } else if op == opcodes::GETFIELD {
        act_in(a, Act::GetField, Act::GetField, i)
    } else if op == opcodes::PUTFIELD {
        act_in(a, Act::PutField, Act::PutField, i)
    } else if op == opcodes::INVOKEVIRTUAL {
        act_in(a, Act::InvokeVirtual, Act::InvokeVirtual, i)
    } else if op == opcodes::INVOKESPECIAL {
        special_in(a, i)
    } else if op == opcodes::INVOKESTATIC {
        act_in(a, Act::InvokeStatic, Act::InvokeStaticInterface, i)
    } else if op == opcodes::INVOKEINTERFACE {
        act_in(a, Act::InvokeInterface, Act::InvokeInterface, i)
    } else if op == opcodes::NEW {
        match named(a, i) {
            None => None,
            Some(name) => Some(Instruction::Makes(name)),
        }
    } else if op == opcodes::CHECKCAST {
        match named(a, i) {
            None => None,
            Some(name) => Some(Instruction::Casts(name)),
        }
    } else if op == opcodes::INSTANCEOF {
        match named(a, i) {
            None => None,
            Some(name) => Some(Instruction::Tests(name)),
        }
    } else {
        None
    }
}

/// The instruction of this opcode, with the byte behind it and its pool index.
#[tactic(auto, unfolding(jc_facts::specs::code::Typing::decode))]
pub(crate) fn decode<'a>(a: Around<'a, '_>, op: u8, near: u8, i: u16) -> Option<Instruction<'a>>
    ensures { option_map (λ i. instruction_view i) result ≡ typing.decode (around_view a.entry) op near i }
{
    if between(opcodes::LDC, opcodes::LDC2_W, op) || opcodes::GETSTATIC <= op {
        entry_instruction(a, op, i)
    } else {
        plain_instruction(op, near)
    }
}
