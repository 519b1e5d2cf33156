//! The limits on class files.

/// The most bytes of a class file that is read.
pub const MAX_CLASS_BYTES: u32 = 4_194_304;

/// The most bytes of a text of a class file (JVMS 4.4.7).
pub const MAX_TEXT: usize = 65_535;

/// The most bytes of the code of a method (JVMS 4.9.1).
pub const MAX_CODE: usize = 65_535;
