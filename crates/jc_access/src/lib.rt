//! Access, assignment and the check on protected members (JVMS 4.10.1.2, 5.4.4).
#![tactic(auto)]

pub mod access;
pub mod assigning;
pub mod names;
mod nests;
pub mod protection;
