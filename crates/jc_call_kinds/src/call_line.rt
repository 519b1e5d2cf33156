//! Lines on calls: what ends otherwise when it runs, though all that the verdict asks of still links.
use jc_base::name::Name;
use jc_facts::key::Key;

/// What a line on calls says of its class.
#[derive(Clone, Copy, PartialEq, Eq, PartialOrd, Ord, Debug, Drop)]
pub enum CallKind {
    /// Method references to the method, named through the class, no longer link (JVMS 5.4.3.5).
    Reference,
    /// A client's subclass that declares the key with less access than the interface asks, which the class
    /// now has above it, no longer answers calls of the interface (JVMS 6.5, `invokeinterface`).
    Access,
    /// Values of the class and of another one no longer meet at the superclass, which clients can't name: a client
    /// in whose code two such values meet is refused (JVMS 4.10.1.4).
    Joined,
    /// A `switch` that lists all constants of the enum, or all subclasses that the class permits, misses one.
    Constants,
}

/// A change by which what clients do ends otherwise when it runs: the class, the key where it is of one, and
/// the superclass that values of the class no longer have, of `Joined` alone.
///
/// They are ordered by kind, then by class, then by key, then by superclass.
#[derive(PartialEq, Eq, PartialOrd, Ord, Debug, Drop)]
pub struct CallLine {
    pub kind: CallKind,
    pub class: Name,
    pub key: Option<Key>,
    pub target: Option<Name>,
}
