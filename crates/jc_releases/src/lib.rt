//! What a command is asked for before its report: the trees that it reads, their releases over one platform, the step between two versions,
//! and, where there is no report, the line and the exit status that say why.
#![tactic(auto)]

pub mod command;
pub mod limits;
pub mod releases;
pub mod status;
pub mod stop;
pub mod unread;
pub mod versions;
