//! Why clients aren't linked.
use jc_base::name::Name;
use jc_index::root::RootPart;
use thiserror::Error;

/// Why a client of a side may not have its name: the first part that holds.
#[derive(Clone, Copy, PartialEq, Eq, Debug)]
pub enum ClientPart {
    /// The platform or the release declares a class of this name.
    Declared,
    /// One of their classes names it as its superclass or as an interface.
    Super,
    /// They declare a class of its package (JVMS 5.3).
    Package,
    /// It has more than 4,090 bytes.
    Length,
    /// It is no UTF-8 text.
    Encoding,
}

/// Why clients aren't linked.
#[derive(Debug, Drop, Error)]
pub enum LinkRefusal {
    /// The first part of the platform's `java/lang/Object` that isn't as it has to be.
    #[error("java/lang/Object: {0:?}")]
    BadRoot(RootPart),
    /// The first name in byte order that both the platform and the release declare.
    #[error("{0:?} is declared twice")]
    Overlap(Name),
    /// The first client in byte order whose name isn't allowed, and why.
    #[error("client {name:?}: {part:?}")]
    ClientName { name: Name, part: ClientPart },
    /// Out of memory.
    #[error("out of memory")]
    Memory,
}
