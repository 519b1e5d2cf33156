//! The instructions of bodies (JVMS 6.5).
ghost use Rattle.std.specs.Prelude.{◌≡◌, ◌≤◌, ◌++◌, ◌∷◌, OnOk, IfOk};
ghost use Rattle.jc_facts.specs.written.PoolEntries.{class, member, two, index_of};
ghost use Rattle.jc_facts.specs.written.Bodies.{opcode_of_zero, number_of_kind, load_bytes, opcode_of_return, opcode_of_act, tag_of_act, init_name, behind_use, slots_or_none, step_bytes, steps_bytes};
ghost use Rattle.jc_desc.specs.Reading.{slots_of_method};

use crate::entry::Entry;
use crate::needs::act_tag;
use crate::numbers::push_two;
use crate::opcodes;
use crate::pool::index;
use indexmap::IndexSet;
use jc_base::name::Name;
use jc_desc::method::slots;
use jc_desc::tags;
use jc_facts::act::Act;
use jc_facts::blueprint::{Primitive, Slot, Step};
use jc_facts::key::Key;
use std::alloc::{AllocError, Global};

fn zero_opcode(prim: Primitive) -> u8
    ensures { result ≡ opcode_of_zero prim }
{
    match prim {
        Primitive::Int => opcodes::ICONST_0,
        Primitive::Long => opcodes::LCONST_0,
        Primitive::Float => opcodes::FCONST_0,
        Primitive::Double => opcodes::DCONST_0,
    }
}

fn kind_number(slot: Slot) -> u8
    ensures number { result ≡ number_of_kind slot }
    ensures small { result ≤ 4 }
{
    match slot {
        Slot::Int => 0,
        Slot::Long => 1,
        Slot::Float => 2,
        Slot::Double => 3,
        Slot::Ref => 4,
    }
}

fn return_opcode(returned: Option<Slot>) -> u8
    ensures { result ≡ opcode_of_return returned }
{
    match returned {
        None => opcodes::RETURN,
        Some(slot) => opcodes::IRETURN + kind_number(slot),
    }
}

fn act_opcode(act: Act) -> u8
    ensures { result ≡ opcode_of_act act }
{
    match act {
        Act::GetStatic => opcodes::GETSTATIC,
        Act::PutStatic => opcodes::PUTSTATIC,
        Act::GetField => opcodes::GETFIELD,
        Act::PutField => opcodes::PUTFIELD,
        Act::InvokeVirtual => opcodes::INVOKEVIRTUAL,
        Act::InvokeSpecial | Act::InvokeSpecialInterface => opcodes::INVOKESPECIAL,
        Act::InvokeStatic | Act::InvokeStaticInterface => opcodes::INVOKESTATIC,
        Act::InvokeInterface => opcodes::INVOKEINTERFACE,
        _ => 0,
    }
}

/// The slots of the parameters of a method; none where the bytes are no method descriptor.
pub(crate) fn param_slots(descriptor: &[u8]) -> u32
    ensures { result ≡ slots_or_none (slots_of_method descriptor.now) }
{
    match slots(descriptor) {
        Some(count) => count,
        None => 0,
    }
}

fn push_load(bytes: &mut Vec<u8>, kind: u8, local: u16) -> Result<(), AllocError>
    requires { kind ≤ 4 }
    ensures { OnOk result (bytes.new.items ≡ bytes.old.items ++ load_bytes kind local) }
{
    if local < 4 {
        Ok(bytes.push(opcodes::ILOAD_0 + 4 * kind + local as u8)?)
    } else {
        bytes.extend_from_slice(&[opcodes::ILOAD + kind, (local % 256) as u8])
    }
}

fn push_behind(bytes: &mut Vec<u8>, act: Act, descriptor: &[u8]) -> Result<(), AllocError>
    ensures { OnOk result (bytes.new.items ≡ bytes.old.items ++ behind_use act descriptor.now) }
{
    match act {
        Act::InvokeInterface => {
            let count = u64::from(param_slots(descriptor)) + 1;
            bytes.extend_from_slice(&[(count % 256) as u8, 0])
        }
        _ => Ok(()),
    }
}

// An opcode and the index of a class.
fn push_class<'a>(
    bytes: &mut Vec<u8>,
    pool: &IndexSet<Entry<'a>>,
    opcode: u8,
    name: &'a Name,
) -> Result<(), AllocError>
    ensures { OnOk result (bytes.new.items ≡ bytes.old.items ++ opcode ∷ two (index_of pool.now.keys (class name.now))) }
{
    bytes.push(opcode)?;
    push_two(bytes, index(pool, Entry::class(name.as_bytes())))
}

fn push_use<'a>(
    bytes: &mut Vec<u8>,
    pool: &IndexSet<Entry<'a>>,
    act: Act,
    name: &'a Name,
    key: &'a Key,
) -> Result<(), AllocError>
    ensures { OnOk result (bytes.new.items ≡ bytes.old.items ++ (opcode_of_act act ∷ (two (index_of pool.now.keys (member (tag_of_act act) name.now key.now.name key.now.descriptor)) ++ behind_use act key.now.descriptor))) }
{
    bytes.push(act_opcode(act))?;
    let entry = Entry::member(
        act_tag(act),
        name.as_bytes(),
        key.name.as_bytes(),
        key.descriptor.as_bytes(),
    );
    push_two(bytes, index(pool, entry))?;
    push_behind(bytes, act, key.descriptor.as_bytes())
}

fn push_construct<'a>(
    bytes: &mut Vec<u8>,
    pool: &IndexSet<Entry<'a>>,
    name: &'a Name,
    descriptor: &'a Name,
) -> Result<(), AllocError>
    ensures { OnOk result (bytes.new.items ≡ bytes.old.items ++ 183 ∷ two (index_of pool.now.keys (member 10 name.now init_name descriptor.now))) }
{
    bytes.push(opcodes::INVOKESPECIAL)?;
    let entry = Entry::member(
        tags::METHOD_REF,
        name.as_bytes(),
        b"<init>",
        descriptor.as_bytes(),
    );
    push_two(bytes, index(pool, entry))
}

fn push_step<'a>(
    bytes: &mut Vec<u8>,
    pool: &IndexSet<Entry<'a>>,
    step: &'a Step,
) -> Result<(), AllocError>
    ensures { OnOk result (bytes.new.items ≡ bytes.old.items ++ step_bytes pool.now.keys step.now) }
{
    match step {
        Step::Null => Ok(bytes.push(opcodes::ACONST_NULL)?),
        Step::Zero(prim) => Ok(bytes.push(zero_opcode(*prim))?),
        Step::Load(slot, local) => push_load(bytes, kind_number(*slot), *local),
        Step::New(name) => push_class(bytes, pool, opcodes::NEW, name),
        Step::Dup => Ok(bytes.push(opcodes::DUP)?),
        Step::Pop => Ok(bytes.push(opcodes::POP)?),
        Step::Pop2 => Ok(bytes.push(opcodes::POP2)?),
        Step::Cast(name) => push_class(bytes, pool, opcodes::CHECKCAST, name),
        Step::Member(act, name, key) => push_use(bytes, pool, *act, name, key),
        Step::Construct(name, descriptor) => push_construct(bytes, pool, name, descriptor),
        Step::Return(returned) => Ok(bytes.push(return_opcode(*returned))?),
    }
}

/// The code of a body.
pub(crate) fn code<'a>(
    alloc: Global,
    pool: &IndexSet<Entry<'a>>,
    steps: &'a [Step],
) -> Result<Vec<u8>, AllocError>
    ensures { IfOk result (λ code. code.items ≡ steps_bytes pool.now.keys steps.now) }
{
    let mut bytes = Vec::new(alloc);
    for step in steps {
        push_step(&mut bytes, pool, step)?;
    }
    Ok(bytes)
}
