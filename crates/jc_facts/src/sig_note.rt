//! Notes on generic signatures.
use crate::key::Key;
use jc_base::name::Name;

/// What has changed of a generic signature (JVMS 4.7.9.1): the first of these that holds.
#[derive(Clone, Copy, PartialEq, Eq, Debug, Drop)]
pub enum SigChange {
    /// A text that is there isn't of its grammar.
    Unread,
    /// There was one, and there is none any more.
    Gone,
    /// There was none, and there is one now.
    New,
    /// The type parameters of a class or a method.
    Parameters,
    /// The superclass of a class.
    Superclass,
    /// The interfaces of a class.
    Interfaces,
    /// What a method takes.
    Arguments,
    /// What a method gives.
    Result,
    /// What a method throws.
    Throws,
    /// The type of a field.
    Whole,
}

/// A class, or where there is a key a member of it, whose generic signature has changed: what links as
/// before may not compile any more.
///
/// Notes are ordered by class, the class itself first, then by key.
#[derive(PartialEq, Eq, Debug, Drop)]
pub struct SigNote {
    pub class: Name,
    pub key: Option<Key>,
    pub change: SigChange,
}
