//! The classes of a side by their numbers: their order by name, what stands above each, and the
//! choice among superinterfaces.
#![tactic(auto)]

mod above;
pub mod among;
pub mod choose;
pub mod class_list;
mod class_lists;
mod final_keys;
pub mod finals;
mod hashed_keys;
pub mod hierarchy;
pub mod ids;
pub mod index;
pub mod members;
pub mod mentioned;
pub mod modules;
mod name_key;
pub mod name_set;
mod named_above;
mod named_classes;
pub mod names;
mod order;
pub mod overlap;
pub mod own;
mod part;
mod parts;
pub mod plain;
mod platform_list;
mod reach;
pub mod root;
mod seals;
pub mod shared_platform;
pub mod side;
pub mod side_finals;
pub mod supers;
