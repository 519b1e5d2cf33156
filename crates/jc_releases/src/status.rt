//! The exit statuses.

/// What was asked is so, or was done.
pub const PASSED: u8 = 0;

/// What was asked isn't so.
pub const NOT_PASSED: u8 = 1;

/// The words ask for nothing that is built.
pub const USAGE: u8 = 2;

/// A class file isn't read, or the classes of the trees don't go with each other.
pub const BAD_INPUT: u8 = 3;

/// A call on a tree failed.
pub const READ_FAULT: u8 = 4;

/// A put failed.
pub const WRITE_FAULT: u8 = 5;

/// There was no memory.
pub const NO_MEMORY: u8 = 6;

/// There is more than a limit allows.
pub const LIMIT: u8 = 7;
