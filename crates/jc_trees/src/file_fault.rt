//! Why class files aren't read.
use jc_base::name::Name;
use jc_base::text::Text;
use jc_desc::fault::Malformed;
use jc_facts::code_fault::CodeReason;

/// Why a class file isn't read.
#[derive(Debug, Drop)]
pub enum FileFault {
    /// It has more bytes than the limit.
    TooLong,
    /// It is no class file, or, where it is read as the file of a module, none of these (JVMS 4.1).
    Malformed(Malformed),
    /// It is that of a class of this name, which belongs elsewhere.
    Misplaced(Name),
    /// It is a client's whose code is refused, first at this offset in bytes (JVMS 4.7.3, 4.9.1).
    BadCode { offset: u32, reason: CodeReason },
}

/// Why the class files of a tree aren't read.
#[derive(Debug, Drop)]
pub enum TreeFault {
    /// There are more than the limit.
    TooManyFiles,
    /// One's path is longer than the limit.
    LongPath,
    /// The first of them, in the order of paths, that isn't read.
    File(Text, FileFault),
}
