//! The classes of a side, the platform with one release of a library, found by their names.
#![tactic(auto)]

pub mod by_number;
pub mod keys;
pub mod naming;
pub mod table;
