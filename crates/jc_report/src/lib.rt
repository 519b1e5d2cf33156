//! The printed forms of verdicts and of outcomes.
#![tactic(auto)]

mod calls;
mod dropped;
pub mod entries;
pub mod entry;
pub mod history_text;
pub mod json;
pub mod json_line;
pub mod json_values;
pub mod laws;
mod lines;
pub mod link_text;
pub mod made_text;
mod outcome_json;
pub mod printed;
mod printed_words;
pub mod put_history;
pub mod put_lines;
pub mod put_listing;
pub mod put_text;
pub mod sig_notes;
pub mod text;
pub mod warnings;
