//! Gates: what sees the rules of findings and collisions, and says whether they pass.
#![tactic(auto)]

pub mod ask;
pub mod at_most;
pub mod calls;
pub mod collisions;
pub mod gate;
pub mod links;
pub mod told;
