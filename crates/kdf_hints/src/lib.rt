//! Hints: what may have led to a fault of a job or of a deck, and the column of a fault in its line.
#![tactic(auto)]

mod fault_columns;
mod form_names;
mod hint;
mod hint_byte;
mod hint_deck;
mod hint_form;
mod hint_job;
mod hint_line;
mod hint_medium;
mod hint_names;
mod hint_number;
mod hint_seen;
mod hint_stores;
mod job_lines;
mod near;

pub use fault_columns::{column_of, kind_above};
pub use hint::{write_none, write_plain};
pub use hint_deck::{Faulty, least_store, write_deck_hint};
pub use hint_job::{FaultyLine, write_job_hint};
