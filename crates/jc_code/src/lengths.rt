//! How long instructions are (JVMS 6.5, chapter 7).
ghost use Rattle.std.specs.Prelude.{◌≡◌, ◌≤◌, ◌+◌, length, IfOk};
ghost use Rattle.jc_facts.specs.code.Lengths.{is_between, known_length, is_one_byte_long, is_two_bytes_long, is_three_bytes_long, is_five_bytes_long, wide_length, shifted_up, padding_length, table_length, lookup_length, word_at_byte, varying_length, length_within, told_length, instruction_length};

use crate::opcodes;
use byteorder::{BigEndian, ByteOrder};
use jc_facts::code_fault::CodeReason;

/// From low to high, both included.
pub(crate) fn between(low: u8, high: u8, n: u8) -> bool
    ensures { result ≡ is_between low high n }
{
    low <= n && n <= high
}

/// Opcodes of instructions of one byte.
#[tactic(auto, unfolding(jc_facts::specs::code::Lengths::is_one_byte_long))]
fn takes_one(op: u8) -> bool
    ensures { result ≡ is_one_byte_long op }
{
    between(0, 15, op)
        || between(26, 53, op)
        || between(59, 131, op)
        || between(133, 152, op)
        || between(172, 177, op)
        || op == 190
        || op == 191
        || op == 194
        || op == 195
}

#[tactic(auto, unfolding(jc_facts::specs::code::Lengths::is_two_bytes_long))]
fn takes_two_bytes(op: u8) -> bool
    ensures { result ≡ is_two_bytes_long op }
{
    op == 16 || op == 18 || between(21, 25, op) || between(54, 58, op) || op == 169 || op == 188
}

#[tactic(auto, unfolding(jc_facts::specs::code::Lengths::is_three_bytes_long))]
fn takes_three(op: u8) -> bool
    ensures { result ≡ is_three_bytes_long op }
{
    op == 17
        || op == 19
        || op == 20
        || op == 132
        || between(153, 168, op)
        || between(178, 184, op)
        || op == 187
        || op == 189
        || op == 192
        || op == 193
        || op == 198
        || op == 199
}

#[tactic(auto, unfolding(jc_facts::specs::code::Lengths::is_five_bytes_long))]
fn takes_five(op: u8) -> bool
    ensures { result ≡ is_five_bytes_long op }
{
    op == 185 || op == 186 || op == 200 || op == 201
}

/// The length of an instruction that is always equally long; 0 for the others.
#[tactic(auto, unfolding(jc_facts::specs::code::Lengths::known_length))]
fn fixed_len(op: u8) -> usize
    ensures { result ≡ known_length op }
{
    if takes_one(op) {
        1
    } else if takes_two_bytes(op) {
        2
    } else if takes_three(op) {
        3
    } else if op == opcodes::MULTIANEWARRAY {
        4
    } else if takes_five(op) {
        5
    } else {
        0
    }
}

/// The length of `wide` with the instruction of this opcode behind it.
fn wide_len(op: u8) -> Result<usize, CodeReason>
    ensures { result ≡ wide_length op }
{
    if between(21, 25, op) || between(54, 58, op) || op == 169 {
        Ok(4)
    } else if op == 132 {
        Ok(6)
    } else {
        Err(CodeReason::BadOpcode)
    }
}

/// A number of 32 bits with a sign, plus 2 to the 31st.
fn lifted(n: u32) -> usize
    ensures value { result ≡ shifted_up n }
    ensures bound { result ≤ 4294967295 }
{
    if n < 2147483648 {
        (n + 2147483648) as usize
    } else {
        (n - 2147483648) as usize
    }
}

/// The padding of a switch at this place of the code.
fn padding(pc: usize) -> usize
    ensures value { result ≡ padding_length pc }
    ensures bound { result ≤ 3 }
{
    3 - pc % 4
}

fn word_at(i: usize, bytes: &[u8]) -> u32
    requires { i + 4 ≤ length bytes.now }
    ensures { result ≡ word_at_byte i bytes.now }
{
    let word = &bytes[i..];
    if word.len() < 4 {
        0
    } else {
        BigEndian::read_u32(word)
    }
}

/// The length of a `tableswitch` with this padding, low and high.
fn table_len(pad: usize, low: u32, high: u32) -> Result<usize, CodeReason>
    requires { pad ≤ 3 }
    ensures { result ≡ table_length pad low high }
{
    let first = lifted(low);
    let last = lifted(high);
    if last < first {
        Err(CodeReason::BadOpcode)
    } else {
        Ok(13 + pad + 4 * (last - first + 1))
    }
}

/// The length of a `lookupswitch` with this padding and number of pairs.
fn lookup_len(pad: usize, pairs: u32) -> Result<usize, CodeReason>
    requires { pad ≤ 3 }
    ensures { result ≡ lookup_length pad pairs }
{
    if pairs < 2147483648 {
        Ok(9 + pad + 8 * pairs as usize)
    } else {
        Err(CodeReason::BadOpcode)
    }
}

/// The length of `wide` and of the switches, where the bytes that tell it are there.
#[tactic(auto, unfolding(jc_facts::specs::code::Lengths::varying_length))]
fn varying_len(op: u8, pc: usize, rest: &[u8]) -> Result<usize, CodeReason>
    ensures { result ≡ varying_length op pc rest.now }
{
    if op == opcodes::WIDE {
        if rest.len() < 1 {
            Err(CodeReason::CutShort)
        } else {
            wide_len(rest[0])
        }
    } else if op == opcodes::TABLESWITCH {
        let pad = padding(pc);
        if rest.len() < pad + 12 {
            Err(CodeReason::CutShort)
        } else {
            table_len(pad, word_at(pad + 4, rest), word_at(pad + 8, rest))
        }
    } else if op == opcodes::LOOKUPSWITCH {
        let pad = padding(pc);
        if rest.len() < pad + 8 {
            Err(CodeReason::CutShort)
        } else {
            lookup_len(pad, word_at(pad + 4, rest))
        }
    } else {
        Err(CodeReason::BadOpcode)
    }
}

fn len_of(op: u8, pc: usize, rest: &[u8]) -> Result<usize, CodeReason>
    ensures { result ≡ told_length op pc rest.now }
{
    let len = fixed_len(op);
    if len == 0 {
        varying_len(op, pc, rest)
    } else {
        Ok(len)
    }
}

fn fit_len(rest: usize, len: Result<usize, CodeReason>) -> Result<usize, CodeReason>
    ensures exact { result ≡ length_within (rest + 1) len }
    ensures fits { IfOk result (λ n. n ≤ rest + 1) }
{
    match len {
        Err(reason) => Err(reason),
        Ok(n) => {
            if rest < n && rest + 1 < n {
                Err(CodeReason::CutShort)
            } else {
                Ok(n)
            }
        }
    }
}

/// The length of the instruction at this place, whose opcode and following bytes are these.
#[tactic(auto, unfolding(jc_facts::specs::code::Lengths::instruction_length))]
pub(crate) fn instruction_len(pc: usize, op: u8, rest: &[u8]) -> Result<usize, CodeReason>
    ensures exact { result ≡ instruction_length pc op rest.now }
    ensures fits { IfOk result (λ n. n ≤ length rest.now + 1) }
{
    fit_len(rest.len(), len_of(op, pc, rest))
}
