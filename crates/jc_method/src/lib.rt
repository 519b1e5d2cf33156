//! The lookup of methods (JVMS 5.4.3.3, 5.4.3.4).
#![tactic(auto)]

pub mod find;
pub mod keys;
mod own;
pub mod walk;
