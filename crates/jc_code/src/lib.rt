//! What the code of client class files does with other classes: the items of their methods (JVMS 4.7.3, 6.5).
//!
//! [`items::items_of`] walks the methods of a file. The code of each is scanned, instruction by instruction,
//! and refused at its first fault. A straight-line method is typed besides, and gives its items with the types
//! of receivers and the assignments of values.
#![tactic(auto)]

mod acts;
mod around;
mod bootstrap_items;
mod bootstrap_rows;
mod catches;
mod construct;
mod entries;
mod frame;
mod instruction;
pub mod items;
mod kinds;
mod lengths;
mod method;
mod methods;
mod numbers;
mod opcodes;
mod returns;
mod row;
mod scan;
mod stack;
mod start;
mod step;
mod typing;
mod uses;
mod values;

pub use items::CodeError;
pub use jc_facts::code_fault::CodeReason;
