//! Generic signatures (JVMS 4.7.9.1): trees of them, read from texts and written as texts, and what has
//! changed of them between two releases.
#![tactic(auto)]

mod bytes;
mod change;
pub mod laws;
pub mod notes;
mod parameters;
pub mod read;
mod records;
mod signed;
pub mod tree;
mod types;
pub mod write;
