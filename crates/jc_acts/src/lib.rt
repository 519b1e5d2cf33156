//! Acts on members: which is the first that is closed to a seat now, and to which seat.
#![tactic(auto)]

mod asked;
mod chains;
pub mod closed_act;
mod closing;
mod commons;
pub mod laws;
pub mod lookup;
pub mod lost;
pub mod members;
mod open;
pub mod plain;
mod root;
pub mod seats;
mod touched;
