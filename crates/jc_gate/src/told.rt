//! What gates are told.

/// What gates are told of a check before they see its rules.
#[derive(Clone, Copy, Drop)]
pub struct Told {
    /// The step between the versions of the two releases, where both are said: 1, 2 or 3.
    pub step: Option<u8>,
    /// Whether all that tells what ends otherwise when it runs was asked for, and tells nothing: warnings,
    /// dropped interfaces and lines on calls.
    pub clear: bool,
}
