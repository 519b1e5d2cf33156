//! Two releases side by side, and what every rule that compares them is made of.
#![tactic(auto)]

pub mod broken;
pub mod class_rule;
pub mod classes;
pub mod clients;
pub mod found;
pub mod from_broken;
pub mod item_rule;
pub mod kept;
pub mod key_numbers;
pub mod limit;
pub mod members;
pub mod shared;
pub mod sides;
pub mod translation;
