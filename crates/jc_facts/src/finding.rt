//! Findings.
use crate::act::Act;
use crate::key::Key;
use crate::link_error::LinkError;
use jc_base::name::Name;

/// A change of a library that breaks some client: which rule finds it, by its number in
/// `rule_numbers`, the class and its member or target, what the client does, from which seat where
/// that matters, and the error that it gets with the new release.
#[derive(PartialEq, Eq, PartialOrd, Ord, Debug)]
pub struct Finding {
    pub rule: u8,
    pub class: Name,
    pub key: Option<Key>,
    pub target: Option<Name>,
    pub act: Act,
    pub seat: Option<Name>,
    pub error: LinkError,
}

// One call at each exit of a function that owns it, where a derived drop is written out.
impl Drop for Finding {
    fn drop(self) {
        let Finding {
            rule: _,
            class: _,
            key: _,
            target: _,
            act: _,
            seat: _,
            error: _,
        } = self;
    }
}
