//! What clients may miss though all links: warnings of selection, where a call may find no method to run
//! (JVMS 5.4.6), and interfaces that classes drop.
#![tactic(auto)]

mod asked;
mod chain;
mod changes;
pub mod dropped;
pub mod losing;
mod marks;
mod parts;
mod walks;
mod warned;
pub mod warnings;
