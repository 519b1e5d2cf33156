//! What planned clients are made of: drafts of their classes, the steps and descriptors of their methods, the package that they stand in, and which class or
//! constructor of a library they take where several would do.
#![tactic(auto)]

pub mod bodies;
pub mod classes;
pub mod constructor;
pub mod draft;
mod lowest;
pub mod package;
pub mod permitted;
pub mod texts;
pub mod two_names;
