//! The lines on calls between two sides: what ends otherwise when it runs, though all links.
#![tactic(auto)]

mod access;
mod choice;
mod constants;
mod joins;
pub mod lines;
mod openly;
mod references;
