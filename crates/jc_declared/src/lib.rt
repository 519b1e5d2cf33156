//! The rules that look at one class, or at one member of it, in both releases, whatever the classes above it have lost; and the notes.
#![tactic(auto)]

pub mod capture_added;
pub mod changed;
pub mod class_closed;
pub mod class_gone;
pub mod constant_added;
pub mod constructor_closed;
pub mod field_closed;
pub mod final_added;
mod final_methods;
pub mod interface_method_lost;
pub mod method_closed;
pub mod method_made_final;
mod newly_final;
pub mod note_constant;
pub mod note_unloadable;
mod own;
