//! The verdict on a new release.
use crate::act::Act;
use crate::finding::Finding;
use crate::key::Key;
use crate::link_error::LinkError;
use jc_base::items::Items;
use jc_base::name::Name;

/// A change that breaks only clients which already stand in its way.
///
/// Its rule is one of the last three in `rule_numbers`.
/// Collisions are ordered by rule, then class, then key, then act, then error.
#[derive(PartialEq, Eq, PartialOrd, Ord, Debug, Drop)]
pub struct Collision {
    pub rule: u8,
    pub class: Name,
    pub key: Key,
    pub act: Act,
    pub error: LinkError,
}

/// What a witness is made for.
#[derive(PartialEq, Eq, Debug, Drop)]
pub enum Cause {
    Finding(Finding),
    Collision(Collision),
}

/// Where a client of a witness fails with the new release.
#[derive(Clone, Copy, PartialEq, Eq, Debug, Drop)]
pub enum Spot {
    /// Its class doesn't load.
    Load,
    /// Its item of this number, from 0, has the error.
    Item(u32),
}

/// What is worth telling and breaks no client's linking.
#[derive(PartialEq, Eq, Debug, Drop)]
pub enum Note {
    /// A class of the old or the new release that doesn't load.
    Unloadable {
        old: bool,
        class: Name,
        error: LinkError,
    },
    /// A constant field whose value has changed or is no longer there.
    Fixed {
        class: Name,
        key: Key,
    },
}

/// What a new release breaks: the findings in their order, the collisions in theirs, and the notes.
#[derive(PartialEq, Eq, Debug)]
pub struct Verdict {
    pub findings: Items<Finding>,
    pub collisions: Items<Collision>,
    pub notes: Items<Note>,
}

// One call at each exit of a function that owns it, where a derived drop is written out.
impl Drop for Verdict {
    fn drop(self) {
        let Verdict {
            findings: _,
            collisions: _,
            notes: _,
        } = self;
    }
}
