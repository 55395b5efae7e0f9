//! The words after the program's name, and the command that they are, if any.
#![tactic(auto)]

mod command;

pub use command::{Command, Input, JOB_LIMIT, USAGE, command_of, limit_by, worked_commands};
