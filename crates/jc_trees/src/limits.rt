//! The limits on trees.

/// The most class files of a tree.
pub const MAX_FILES: usize = 40_000;

/// The most bytes of a class file's path.
pub const MAX_PATH: usize = 4_096;
