//! Class files to be written: a class record, and a body for each method that has one.
use crate::act::Act;
use crate::class_facts::ClassFacts;
use crate::key::Key;
use jc_base::items::Items;
use jc_base::name::Name;

/// A primitive type of which a body pushes zero. Boolean, byte, char and short are ints on the stack
/// (JVMS 2.11.1).
#[derive(Clone, Copy, PartialEq, Eq, Debug, Drop)]
pub enum Primitive {
    Int,
    Long,
    Float,
    Double,
}

/// What a load or a return moves: an int, long, float or double, or a reference (JVMS 2.6.1).
#[derive(Clone, Copy, PartialEq, Eq, Debug, Drop)]
pub enum Slot {
    Int,
    Long,
    Float,
    Double,
    Ref,
}

/// One instruction of a body (JVMS 6.5).
#[derive(PartialEq, Eq, Debug, Drop)]
pub enum Step {
    /// `aconst_null`.
    Null,
    /// `iconst_0`, `lconst_0`, `fconst_0` or `dconst_0`.
    Zero(Primitive),
    /// `iload`, `lload`, `fload`, `dload` or `aload` of this local; in its short form for locals 0
    /// to 3, else in the form of two bytes, which has room for locals up to 255.
    Load(Slot, u16),
    /// `new` of this class.
    New(Name),
    /// `dup`.
    Dup,
    /// `pop`.
    Pop,
    /// `pop2`.
    Pop2,
    /// `checkcast` to this class or array.
    Cast(Name),
    /// One of the four field instructions or of the six kinds of invoke instructions, with the class
    /// and the member that it names. An act that is no instruction has none, and no blueprint with
    /// such a step can be written.
    Member(Act, Name, Key),
    /// `invokespecial` of `<init>`, with the class and the descriptor.
    Construct(Name, Name),
    /// `return`, or `ireturn`, `lreturn`, `freturn`, `dreturn` or `areturn`.
    Return(Option<Slot>),
}

/// The instructions of a method, in order.
#[derive(PartialEq, Eq, Debug, Drop)]
pub struct Body {
    pub steps: Items<Step>,
}

/// A class file to be written: what it says of its class, and one body, or none, for each method in
/// order.
#[derive(PartialEq, Eq, Debug, Drop)]
pub struct Blueprint {
    pub facts: ClassFacts,
    pub bodies: Items<Option<Body>>,
}
