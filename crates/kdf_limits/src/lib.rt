//! The limits that several crates know, each of them once.
//!
//! Code takes them as constants, and definitions read the same ones. So code and definition can't differ, but a wrong number would be proved
//! too: `examples` has each of them computed, as the documents tell it.
#![tactic(auto)]

pub mod examples;
mod job;
mod store;

pub use job::{EVENTS, TAPE_BLOCK};
pub use store::{
    DIRECTOR_WORDS, GROUP_WORDS, LAST_ADDRESS, PROGRAM_WORDS, PROGRAMS_WORDS, STORE_GROUPS,
    STORE_WORDS,
};
