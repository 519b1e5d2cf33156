//! Class files from class records and the bodies of their methods (JVMS 4.1).
#![tactic(auto)]

mod attributes;
mod entry;
pub mod formed;
mod indices;
pub mod laws;
mod limits;
mod members;
mod needs;
mod numbers;
mod opcodes;
mod pool;
mod pool_bytes;
mod says;
mod stack;
mod steps;
pub mod write;

pub use jc_facts::blueprint::{Blueprint, Body, Primitive, Slot, Step};
