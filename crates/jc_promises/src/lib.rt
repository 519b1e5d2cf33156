//! What is promised of two sides: what the rules find, and which clients are planned to show it; which
//! clients are in scope, what is in reach of them, and what a new release keeps for them.
//!
//! These definitions change with what is promised, and have no code. What they stand on, names, files,
//! worlds and what code does, is in `jc_facts`.
#![tactic(auto)]
