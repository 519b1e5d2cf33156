//! The lines on calls of a report: what each kind says of its class and member.
#![tactic(auto)]

pub mod call_line;
