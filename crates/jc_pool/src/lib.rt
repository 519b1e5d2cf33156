//! The constant pool of a class file (JVMS 4.4): entries found by their index in constant time,
//! whose names, descriptors and texts are parts of the file's bytes and not copies.
#![tactic(auto)]

mod entry;
mod forms;
pub mod laws;
mod links;
pub mod long_names;
pub mod long_texts;
mod names;
pub mod pool;
mod start;
mod text;

pub use jc_desc::fault::{Malformed, Reason};
