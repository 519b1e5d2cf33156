//! Tests of the items of client files: what the code of class files does, and where it is refused.
#![tactic(auto)]

#[cfg(test)]
mod code;
