//! Names, texts, lists, and what the tool sees of the outside: trees of files, sinks of bytes and
//! folders that it writes files to.
#![tactic(auto)]

pub mod file_buf;
mod file_map;
pub mod folder;
pub mod items;
pub mod mem_file;
pub mod mem_folder;
pub mod mem_sink;
pub mod mem_trees;
pub mod name;
pub mod names;
pub mod recent_names;
pub mod root_faults;
mod schedule;
pub mod sink;
pub mod sure_folder;
pub mod sure_sink;
pub mod sure_trees;
pub mod text;
pub mod trees;
