//! Warnings: what may go wrong when a call selects the method that it runs (JVMS 5.4.6).
use crate::key::Key;
use jc_base::name::Name;

/// What the chain of a class has of a key: the first class of it that declares the key as an instance
/// method that isn't private says so. It is what a call runs first of all (JVMS 5.4.6).
#[derive(Clone, Copy, PartialEq, Eq, Debug, Drop)]
pub enum ChainKind {
    /// No class of the chain declares the key so.
    Nothing,
    /// The first that does declares it abstract.
    Abstract,
    /// The first that does declares a method that can run.
    Concrete,
}

/// What has changed of a key that a base class or interface gives to the clients below it.
#[derive(Clone, Copy, PartialEq, Eq, PartialOrd, Ord, Debug, Drop)]
pub enum WarnKind {
    /// Its chain answered the key, and doesn't any more.
    Lost,
    /// Its chain had nothing of the key, and has an abstract method now.
    Abstract,
    /// Its chain has nothing of the key, and the interfaces above give it otherwise.
    Defaults,
}

/// A change by which a call may find no method to run, though it links.
///
/// Warnings are ordered by class, then by key.
#[derive(PartialEq, Eq, PartialOrd, Ord, Debug, Drop)]
pub struct Warning {
    pub class: Name,
    pub key: Key,
    pub kind: WarnKind,
}
