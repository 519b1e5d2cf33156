//! A bootstrap method of a class.

/// A bootstrap method: the index of its method handle, and of the indices of its arguments, two bytes
/// each, those that say something.
#[derive(Drop)]
pub(crate) struct Row {
    pub handle: u16,
    pub arguments: Vec<u8>,
}
