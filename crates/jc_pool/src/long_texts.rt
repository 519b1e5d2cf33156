//! Which texts of a class file are long, so that what was found out about one is kept for the list that
//! mentions it.

/// The least bytes of a long text: of a shorter one everything is found out again, which costs little.
pub const LONG: usize = 1_024;

/// The most long texts of one list of which something is kept: a file has no more of the greatest
/// length.
pub const MOST_KEPT: usize = 64;
