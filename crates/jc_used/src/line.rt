//! The lines of a verdict.
use jc_base::items::Items;
use jc_base::name::Name;
use jc_facts::finding::Finding;

/// A finding or a collision, as a line of a check.
#[derive(Drop)]
pub struct Line {
    /// The finding, or that which is printed as the collision is.
    pub finding: Finding,
    /// Of a class that is closed, the names that it lets stand below itself with the new release.
    pub lets_in: Items<Name>,
}
