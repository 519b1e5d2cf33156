//! The entries of a pool, read in their order (JVMS 4.4).
ghost use Rattle.std.specs.Prelude.{◌≡◌, ◌≤◌, IfOk};
ghost use Rattle.std.specs.Result.{result_map_both};
ghost use Rattle.jc_desc.specs.Pool.{short_from, first_of, second_of, slot_of_index, body_length, is_wide_tag};
ghost use Rattle.jc_desc.specs.PoolSteps.{utf8_from, body_from, entry_from};
ghost use Rattle.jc_pool.specs.Slots.{slot_of, slots_of};
ghost use Rattle.jc_pool.specs.steps.Slots.{all_slots_at};

use crate::text::is_text;
use byteorder::{BigEndian, ByteOrder};
use jc_desc::bytes::{bytes_at, u8_at, u16_at};
use jc_desc::fault::{Fault, Reason};
use jc_desc::tags;
use std::alloc::{AllocError, Global};

/// What an index of the pool holds: the tag of an entry, and the bytes behind the tag, of a Utf8 its
/// text alone. Tag 0 holds nothing.
#[derive(Clone, Copy, Debug)]
pub struct Slot<'a> {
    pub tag: u8,
    pub body: &'a [u8],
    /// How many bytes of the file are left at the tag.
    pub left: usize,
}

/// Index 0, and the second index of a Long or a Double.
pub const NOTHING: Slot<'static> = Slot {
    tag: 0,
    body: &[],
    left: 0,
};

/// What an index holds.
pub(crate) fn at<'a>(slots: &[Slot<'a>], index: u16) -> Slot<'a>
    ensures { slot_of result ≡ slot_of_index (slots_of slots.now) index }
{
    if (index as usize) < slots.len() {
        slots[index as usize]
    } else {
        NOTHING
    }
}

/// The number in the two bytes from place `i` on, or 0 where they aren't there.
pub(crate) fn short_in(i: usize, body: &[u8]) -> u16
    requires { i ≤ 8 }
    ensures { result ≡ short_from i body.now }
{
    if body.len() < i + 2 {
        return 0;
    }
    BigEndian::read_u16(&body[i..])
}

/// The first index of an entry.
pub(crate) fn first(slot: Slot<'_>) -> u16
    ensures { result ≡ first_of (slot_of slot.entry) }
{
    short_in(0, slot.body)
}

/// The second index of an entry.
pub(crate) fn second(slot: Slot<'_>) -> u16
    ensures { result ≡ second_of (slot_of slot.entry) }
{
    short_in(2, slot.body)
}

fn body_len(tag: u8) -> Option<usize>
    ensures { result ≡ body_length tag }
{
    match tag {
        tags::INTEGER | tags::FLOAT => Some(4),
        tags::LONG | tags::DOUBLE => Some(8),
        tags::CLASS | tags::STRING | tags::METHOD_TYPE | tags::MODULE | tags::PACKAGE => Some(2),
        tags::FIELD_REF | tags::METHOD_REF | tags::INTERFACE_METHOD_REF => Some(4),
        tags::NAME_AND_TYPE | tags::DYNAMIC | tags::INVOKE_DYNAMIC => Some(4),
        tags::METHOD_HANDLE => Some(3),
        _ => None,
    }
}

fn is_wide(tag: u8) -> bool
    ensures { result ≡ is_wide_tag tag }
{
    tag == tags::LONG || tag == tags::DOUBLE
}

fn text_at(bytes: &[u8]) -> Result<(&[u8], &[u8]), Fault>
    ensures { result_map_both (λ x. (x.0.now, x.1.now)) (λ e. e) result ≡ utf8_from bytes.now }
{
    let (len, rest) = u16_at(bytes)?;
    match bytes_at(len as usize, rest) {
        Ok(parts) => Ok(parts),
        Err(fault) => Err(fault),
    }
}

#[tactic(auto, unfolding(jc_desc::specs::PoolSteps::body_from))]
fn body_at(left: usize, tag: u8, bytes: &[u8]) -> Result<(&[u8], &[u8]), Fault>
    ensures { result_map_both (λ x. (x.0.now, x.1.now)) (λ e. e) result ≡ body_from left tag bytes.now }
{
    if tag == tags::UTF8 {
        return text_at(bytes);
    }
    match body_len(tag) {
        None => Err(Fault {
            left,
            reason: Reason::BadTag,
        }),
        Some(len) => bytes_at(len, bytes),
    }
}

#[tactic(auto, unfolding(jc_desc::specs::PoolSteps::entry_from))]
fn entry_at(follows: bool, bytes: &[u8]) -> Result<(Slot<'_>, &[u8]), Fault>
    ensures { result_map_both (λ x. (slot_of x.0, x.1.now)) (λ e. e) result ≡ entry_from follows bytes.now }
{
    let left = bytes.len();
    let (tag, rest) = u8_at(bytes)?;
    let (body, rest) = body_at(left, tag, rest)?;
    if !follows && is_wide(tag) {
        return Err(Fault {
            left,
            reason: Reason::BadIndex,
        });
    }
    if tag == tags::UTF8 && !is_text(body) {
        return Err(Fault {
            left,
            reason: Reason::BadUtf8,
        });
    }
    Ok((Slot { tag, body, left }, rest))
}

/// What the indices 0 to `count` hold, and the bytes behind the entries, or the first fault of an
/// entry by itself. Takes memory for the table.
///
/// # Errors
///
/// `AllocError` where memory runs out; within, the first fault of an entry.
pub fn slots_at(
    alloc: Global,
    count: u16,
    bytes: &[u8],
) -> Result<Result<(Vec<Slot<'_>>, &[u8]), Fault>, AllocError>
    ensures { IfOk result (λ r. result_map_both (λ x. (slots_of x.0.items, x.1.now)) (λ e. e) r ≡ all_slots_at count bytes.now) }
{
    // An entry has three bytes or more, so a false count takes no more memory than a true one.
    let room = (count as usize).min(bytes.len() / 3) + 1;
    let mut slots = Vec::with_capacity(alloc, room)?;
    slots.push(NOTHING)?;
    let mut rest = bytes;
    let mut second = false;
    for i in 0..count {
        if second {
            slots.push(NOTHING)?;
            second = false;
        } else {
            let (slot, after) = match entry_at(i + 1 < count, rest) {
                Ok(entry) => entry,
                Err(fault) => return Ok(Err(fault)),
            };
            second = is_wide(slot.tag);
            slots.push(slot)?;
            rest = after;
        }
    }
    Ok(Ok((slots, rest)))
}
