//! The top call: reads or makes the text of a command, and writes what the command makes of it.
#![tactic(auto)]

mod alone;
mod checking;
mod decks;
mod differing;
pub mod laws;
mod listing;
mod loading;
mod making;
mod outcome;
mod reason;
mod refusal;
mod resuming;
mod running;
mod saving;
mod slot;
mod status;
mod top_call;
mod watching;
pub mod worked;

pub use decks::{DecksError, assemble_decks};
pub use kdf_command::{Command, Input, command_of, worked_commands};
pub use outcome::Outcome;
pub use status::Status;
pub use top_call::run_with;
