//! Which line of a verdict explains what a client loses.
#![tactic(auto)]

mod above;
mod errors;
pub mod explained;
pub mod laws;
pub mod line;
pub mod lines;
mod loading;
mod members;
mod spots;
mod ties;
mod types;
