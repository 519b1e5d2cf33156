//! The witness files of a verdict: what they are made of, their paths, and how they are put.
#![tactic(auto)]

pub mod put_witnesses;
pub mod shown;
mod witness_path;
