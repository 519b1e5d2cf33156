//! What loading says of the classes of a side (JVMS 5.3.5): which fault a class has, who may extend it, and which of its methods may not be overridden.
#![tactic(auto)]

pub mod extending;
pub mod finals;
pub mod loading;
