//! Code that is refused (JVMS 4.7.3, 4.9.1).

/// Why code is refused.
#[derive(Clone, Copy, PartialEq, Eq, Debug)]
pub enum CodeReason {
    /// A Code attribute isn't of its form, doesn't fill its length, is the method's second, or its code is
    /// empty or longer than 65,535 bytes; at the attribute's first byte (JVMS 4.7.3).
    BadLayout,
    /// No instruction has this opcode, `wide` stands before one that has no wide form, or a switch has its
    /// low above its high or a negative number of pairs; at the instruction (JVMS 6.5).
    BadOpcode,
    /// An instruction passes the end of the code; at the instruction.
    CutShort,
    /// A pool index doesn't hold an entry of the kinds that the instruction may name, a bootstrap method
    /// isn't there or isn't whole, or a catch type is neither 0 nor a class; at the instruction, or at the
    /// entry of the exception table (JVMS 4.9.1).
    BadEntry,
}

/// A refusal, and how many bytes of the file are left from it on, its own first byte counted.
#[derive(Clone, Copy, PartialEq, Eq, Debug)]
pub struct CodeFault {
    pub left: usize,
    pub reason: CodeReason,
}
