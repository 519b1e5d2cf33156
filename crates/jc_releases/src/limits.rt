//! The limits on what a check reports.

/// The most findings and collisions of a verdict that is printed.
pub const MAX_FINDINGS: usize = 999_999;

/// The most warnings of selection that are printed.
pub const MAX_WARNINGS: usize = 999_999;

/// The most dropped interfaces that are printed.
pub const MAX_DROPPED: usize = 999_999;

/// The most lines on calls that are printed.
pub const MAX_CALLS: usize = 999_999;
