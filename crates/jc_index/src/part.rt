//! A part of a list.

/// The items of a list from one place up to another.
#[derive(Clone, Copy)]
pub struct Part {
    /// The place of its first item.
    pub start: usize,
    /// The place after its last item.
    pub end: usize,
}
