//! The lookup of fields (JVMS 5.4.3.2).
#![tactic(auto)]

pub mod find;
pub mod keys;
pub mod plain;
pub mod walk;
