//! Tests of generic signatures.
#![tactic(auto)]

#[cfg(test)]
mod notes;
#[cfg(test)]
mod texts;
#[cfg(test)]
mod trees;
