//! The lines of a program's section and of a journal, the text of a program that ran alone, and the report and the summary of a
//! machine. Whatever is a `Program` is written by the same functions.
#![tactic(auto)]

mod alone;
mod blocks;
mod characters;
mod decimals;
mod devices;
mod entries;
pub mod examples;
mod in_slot;
pub mod laws;
mod program;
mod registers;
mod reports;
mod section;
mod shows;
mod spool;
mod stints;
mod summaries;

pub use alone::{alone_absent, alone_text};
pub use entries::write_entries;
pub use program::Program;
pub use reports::{journal_text, report, sections};
pub use section::write_section;
pub use summaries::summary;
