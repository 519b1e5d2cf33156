//! What is said of the clients of several trees, as text and as JSON.
#![tactic(auto)]

pub mod answer;
mod client_json;
mod client_text;
pub mod clients_json;
pub mod clients_text;
mod entry;
pub mod judged;
pub mod laws;
mod pair;
#[cfg(test)]
mod tests;
pub mod trees;
pub mod used;
mod used_entry;
pub mod used_json;
pub mod used_text;
