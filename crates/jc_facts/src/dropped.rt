//! Interfaces that classes no longer have.
use jc_base::name::Name;

/// A class whose values clients could hold and still can, and an interface that it had above it and has
/// no more. What takes such a value as one of the interface links, and fails when it runs (JVMS 6.5).
///
/// They are ordered by class, then by interface.
#[derive(PartialEq, Eq, PartialOrd, Ord, Debug, Drop)]
pub struct Dropped {
    pub class: Name,
    pub interface: Name,
}
