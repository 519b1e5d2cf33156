//! Loading over the classes of a side by their numbers (JVMS 5.3.5): what keeps each class from
//! loading, an order in which those that load can be loaded, and what of a platform loads by itself.
#![tactic(auto)]

pub mod faults;
pub mod laws;
mod overriding;
pub mod platform;
pub mod search;
mod supertypes;
