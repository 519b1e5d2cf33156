//! Names and descriptors of class files (JVMS 4.2, 4.3), with the definitions that everything
//! above leans on: names, types and their texts, modified UTF-8, and the constant pool (JVMS 4.4).
#![tactic(auto)]

pub mod bytes;
pub mod fault;
pub mod field;
pub mod laws;
pub mod limits;
pub mod method;
pub mod names;
pub mod pool_texts;
pub mod tags;
pub mod utf8;
pub mod versions;
