//! A pool, whose texts are parts of the file's bytes.
ghost use Rattle.std.specs.Prelude.{◌≡◌, ◌≤◌, length, IfOk, MatchResult};
ghost use Rattle.std.specs.Option.{option_map};
ghost use Rattle.std.specs.Result.{result_map_both};
ghost use Rattle.jc_desc.specs.declared.limits.TheConstants.{MAX_CLASS_BYTES};
ghost use Rattle.jc_desc.specs.Pool.{PoolOf};
ghost use Rattle.jc_desc.specs.PoolGrammar.{ReadsPool};
ghost use Rattle.jc_desc.specs.PoolSteps.{pool_at, linked};
ghost use Rattle.jc_desc.specs.PoolAnswers.{tag_in, utf8_in, class_in, module_in, package_in, member_ref_in, member_of, handle_in, dynamic_in, constant_in, word_from, double_word_from};
ghost use Rattle.jc_pool.specs.Slots.{slot_of, slots_of};
ghost use Rattle.jc_pool.specs.Views.{member_view, handle_view, constant_view, PoolFails};

use crate::entry::{Slot, at, first, slots_at};
use crate::links::{descriptor, is_member_ref, kind, links_fault, pair, target, text};
use crate::names::Names;
use crate::start::start;
use byteorder::{BigEndian, ByteOrder};
use jc_base::name::Name;
use jc_base::recent_names::RecentNames;
use jc_desc::bytes::{malformed, u16_at};
use jc_desc::fault::{Fault, Malformed};
use jc_desc::tags;
use std::alloc::{AllocError, Global};
use std::cell::RefCell;
use std::marker::Model;
use thiserror::Error;

/// The constant pool of a class file, with the file's major version. Its slices are parts of the
/// file's bytes.
pub struct Pool<'a> {
    major: u16,
    slots: Vec<Slot<'a>>,
    // Behind a shared reference, as no answer depends on which names were made before.
    names: RefCell<Names<'a>>,
}

// One call at each exit of a function that owns it, where a derived drop is written out.
impl Drop for Pool<'_> {
    fn drop(self) {
        let Pool {
            major: _,
            slots: _,
            names: _,
        } = self;
    }
}

impl<'a> Model for Pool<'a> {
    ghost use Rattle.jc_desc.specs.Pool.{PoolOf};
    ghost use Rattle.jc_pool.specs.Slots.{slots_of};

    ghost Value = { PoolOf };

    ghost view = { λ p. record { major = p.major; slots = slots_of p.slots.items } };
}

/// Why a pool isn't read.
#[derive(Clone, Copy, Debug, PartialEq, Eq, Error)]
pub enum PoolError {
    /// The first fault of the bytes up to the end of the pool.
    #[error("{:?} at {}", .0.reason, .0.offset)]
    Malformed(Malformed),
    /// Out of memory.
    #[error("out of memory")]
    Memory,
}

/// A reference to a member. The tag is `FIELD_REF`, `METHOD_REF` or `INTERFACE_METHOD_REF`.
#[derive(Clone, Copy, Debug, PartialEq, Eq)]
pub struct MemberRef<'a> {
    pub tag: u8,
    pub class: &'a [u8],
    pub name: &'a [u8],
    pub descriptor: &'a [u8],
}

/// A use of a member by a MethodHandle, of a kind from 1 to 9 (JVMS 4.4.8).
#[derive(Clone, Copy, Debug, PartialEq, Eq)]
pub struct HandleRef<'a> {
    pub kind: u8,
    pub member: MemberRef<'a>,
}

/// A constant. Numbers are bit patterns; a text is modified UTF-8.
#[derive(Clone, Copy, Debug, PartialEq, Eq)]
pub enum PoolConstant<'a> {
    Int(u32),
    Float(u32),
    Long(u64),
    Double(u64),
    Text(&'a [u8]),
}

fn word_in(body: &[u8]) -> u32
    ensures { result ≡ word_from body.now }
{
    if body.len() < 4 {
        0
    } else {
        BigEndian::read_u32(body)
    }
}

fn double_word_in(body: &[u8]) -> u64
    ensures { result ≡ double_word_from body.now }
{
    if body.len() < 8 {
        0
    } else {
        BigEndian::read_u64(body)
    }
}

fn member<'a>(slots: &[Slot<'a>], slot: Slot<'a>) -> MemberRef<'a>
    ensures { member_view result ≡ member_of (slots_of slots.now) (slot_of slot.entry) }
{
    let named = pair(slots, slot);
    MemberRef {
        tag: slot.tag,
        class: text(slots, at(slots, first(slot))),
        name: text(slots, named),
        descriptor: descriptor(slots, named),
    }
}

impl<'a> Pool<'a> {
    /// The pool in front of a class file and the bytes behind it, or the first fault in the order of
    /// the steps: magic, version, count, entries, then what they name. Takes memory for a table of
    /// the entries.
    ///
    /// # Errors
    ///
    /// `AllocError` where memory runs out; within, the first fault.
    pub fn read_front(
        alloc: Global,
        bytes: &'a [u8],
    ) -> Result<Result<(Pool<'a>, &'a [u8]), Fault>, AllocError>
        ensures { IfOk result (λ r. result_map_both (λ x. (x.0, x.1.now)) (λ e. e) r ≡ pool_at bytes.now) }
    {
        let read = Pool::front(alloc, None, bytes)?;
        Ok(read)
    }

    /// The same. Its names share the bytes of those that were made of the files before.
    ///
    /// # Errors
    ///
    /// `AllocError` where memory runs out.
    pub fn read_front_after(
        alloc: Global,
        recent: &'a RecentNames,
        bytes: &'a [u8],
    ) -> Result<Result<(Pool<'a>, &'a [u8]), Fault>, AllocError>
        ensures { IfOk result (λ r. result_map_both (λ x. (x.0, x.1.now)) (λ e. e) r ≡ pool_at bytes.now) }
    {
        let read = Pool::front(alloc, Some(recent), bytes)?;
        Ok(read)
    }

    #[tactic(auto, unfolding(jc_desc::specs::PoolSteps::pool_at))]
    fn front(
        alloc: Global,
        recent: Option<&'a RecentNames>,
        bytes: &'a [u8],
    ) -> Result<Result<(Pool<'a>, &'a [u8]), Fault>, AllocError>
        ensures { IfOk result (λ r. result_map_both (λ x. (x.0, x.1.now)) (λ e. e) r ≡ pool_at bytes.now) }
    {
        let (major, rest) = match start(bytes) {
            Ok(started) => started,
            Err(fault) => return Ok(Err(fault)),
        };
        let (count, rest) = match u16_at(rest) {
            Ok(counted) => counted,
            Err(fault) => return Ok(Err(fault)),
        };
        let (slots, rest) = match slots_at(alloc, count.saturating_sub(1), rest)? {
            Ok(entries) => entries,
            Err(fault) => return Ok(Err(fault)),
        };
        match links_fault(alloc, slots.as_slice())? {
            Some(fault) => Ok(Err(fault)),
            None => {
                let names = RefCell::new(Names::new(alloc, recent));
                Ok(Ok((
                    Pool {
                        major,
                        slots,
                        names,
                    },
                    rest,
                )))
            }
        }
    }

    /// The pool of a class file of at most 4,194,304 bytes, and the offset after it.
    ///
    /// # Errors
    ///
    /// `Malformed` exactly where the bytes don't begin with a pool, with the first fault; `Memory`
    /// where there is none for the table of the entries.
    pub fn read(alloc: Global, bytes: &'a [u8]) -> Result<(Pool<'a>, u32), PoolError>
        requires { length bytes.now ≤ MAX_CLASS_BYTES }
        ensures { MatchResult result (λ x. ReadsPool bytes.now x.0 x.1) (PoolFails bytes.now) }
    {
        match Pool::read_front(alloc, bytes) {
            Ok(Ok((pool, rest))) => Ok((pool, bytes.len().saturating_sub(rest.len()) as u32)),
            Ok(Err(fault)) => Err(PoolError::Malformed(malformed(bytes, fault))),
            Err(_) => Err(PoolError::Memory),
        }
    }

    /// The name of these bytes of the file. Names of a long text share one copy of it, however often
    /// the file mentions it.
    ///
    /// # Errors
    ///
    /// `AllocError` where memory runs out.
    pub fn name(&self, alloc: Global, text: &'a [u8]) -> Result<Name, AllocError>
        ensures { IfOk result (λ name. name ≡ text.now) }
    {
        match self.names.try_borrow_mut() {
            Ok(mut names) => names.name(alloc, text),
            Err(_) => Name::from_bytes(alloc, text),
        }
    }

    /// The file's major version.
    pub fn major(&self) -> u16
        ensures { result ≡ self.now.major }
    {
        self.major
    }

    /// The tag of the entry at the index. None exactly where the index holds none.
    pub fn tag(&self, index: u16) -> Option<u8>
        ensures { result ≡ tag_in self.now index }
    {
        let slot = at(self.slots.as_slice(), index);
        if slot.tag == 0 { None } else { Some(slot.tag) }
    }

    /// The text of a Utf8. None exactly where the index holds no Utf8.
    pub fn utf8(&self, index: u16) -> Option<&'a [u8]>
        ensures { option_map (λ text. text.now) result ≡ utf8_in self.now index }
    {
        let slot = at(self.slots.as_slice(), index);
        if slot.tag == tags::UTF8 {
            Some(slot.body)
        } else {
            None
        }
    }

    /// The name of a Class, or its array descriptor. None exactly where the index holds no Class.
    pub fn class(&self, index: u16) -> Option<&'a [u8]>
        ensures { option_map (λ text. text.now) result ≡ class_in self.now index }
    {
        let slot = at(self.slots.as_slice(), index);
        if slot.tag == tags::CLASS {
            Some(text(self.slots.as_slice(), slot))
        } else {
            None
        }
    }

    /// The text that a Module names (JVMS 4.4.11), whatever it is. None exactly where the index holds no
    /// Module.
    pub fn module(&self, index: u16) -> Option<&'a [u8]>
        ensures { option_map (λ text. text.now) result ≡ module_in self.now index }
    {
        let slot = at(self.slots.as_slice(), index);
        if slot.tag == tags::MODULE {
            Some(text(self.slots.as_slice(), slot))
        } else {
            None
        }
    }

    /// The text that a Package names (JVMS 4.4.12), whatever it is. None exactly where the index holds no
    /// Package.
    pub fn package(&self, index: u16) -> Option<&'a [u8]>
        ensures { option_map (λ text. text.now) result ≡ package_in self.now index }
    {
        let slot = at(self.slots.as_slice(), index);
        if slot.tag == tags::PACKAGE {
            Some(text(self.slots.as_slice(), slot))
        } else {
            None
        }
    }

    /// The member that a Fieldref, Methodref or InterfaceMethodref names. None exactly where the
    /// index holds none of these.
    pub fn member_ref(&self, index: u16) -> Option<MemberRef<'a>>
        ensures { option_map (λ m. member_view m) result ≡ member_ref_in self.now index }
    {
        let slot = at(self.slots.as_slice(), index);
        if is_member_ref(slot.tag) {
            Some(member(self.slots.as_slice(), slot))
        } else {
            None
        }
    }

    /// The use of a member by a MethodHandle. None exactly where the index holds no MethodHandle.
    pub fn handle(&self, index: u16) -> Option<HandleRef<'a>>
        ensures { option_map (λ h. handle_view h) result ≡ handle_in self.now index }
    {
        let slot = at(self.slots.as_slice(), index);
        if slot.tag != tags::METHOD_HANDLE {
            return None;
        }
        let named = at(self.slots.as_slice(), target(slot));
        Some(HandleRef {
            kind: kind(slot),
            member: member(self.slots.as_slice(), named),
        })
    }

    /// The number of the bootstrap method of a Dynamic or InvokeDynamic. None exactly where the
    /// index holds neither.
    pub fn dynamic(&self, index: u16) -> Option<u16>
        ensures { result ≡ dynamic_in self.now index }
    {
        let slot = at(self.slots.as_slice(), index);
        if slot.tag == tags::DYNAMIC || slot.tag == tags::INVOKE_DYNAMIC {
            Some(first(slot))
        } else {
            None
        }
    }

    /// The constant of an Integer, Float, Long, Double or String. None exactly where the index
    /// holds none of these.
    pub fn constant(&self, index: u16) -> Option<PoolConstant<'a>>
        ensures { option_map (λ c. constant_view c) result ≡ constant_in self.now index }
    {
        let slot = at(self.slots.as_slice(), index);
        match slot.tag {
            tags::INTEGER => Some(PoolConstant::Int(word_in(slot.body))),
            tags::FLOAT => Some(PoolConstant::Float(word_in(slot.body))),
            tags::LONG => Some(PoolConstant::Long(double_word_in(slot.body))),
            tags::DOUBLE => Some(PoolConstant::Double(double_word_in(slot.body))),
            tags::STRING => Some(PoolConstant::Text(text(self.slots.as_slice(), slot))),
            _ => None,
        }
    }
}
