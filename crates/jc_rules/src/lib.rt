//! The rules on what classes have lost above themselves, and the comparison of two releases by all rules.
#![tactic(auto)]

mod assigned;
pub mod bases;
pub mod compare;
mod interface_became_class;
pub mod losses;
mod superclass_lost;
