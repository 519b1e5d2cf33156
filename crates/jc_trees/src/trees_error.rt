//! Why trees aren't read.
use crate::file_fault::TreeFault;
use crate::tree::TreeName;

/// Why the trees of a command aren't read.
#[derive(Debug, Drop)]
pub enum TreesError {
    /// The class files of the tree aren't read.
    Unread(TreeName, TreeFault),
    /// A call on the tree failed.
    Fault(TreeName),
    /// There was no memory.
    Memory,
}
