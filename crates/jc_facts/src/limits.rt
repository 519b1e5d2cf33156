//! The limits on classes.

/// The most bytes of the name of a class that clients have or that is written: what a path of 4,096
/// bytes has room for in front of `.class`.
pub const MAX_CLASS_NAME: usize = 4_090;

/// The most classes of a side.
pub const MAX_SIDE_CLASSES: usize = 120_000;
