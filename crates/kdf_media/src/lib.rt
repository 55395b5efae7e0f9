//! The media of a job: paper tape that is read, cards, paper tape that is punched, and lines that are printed. Each device shows
//! its state as a record; the words that an order reads and the state that it leaves are those of `specs/Media`.
//!
//! All characters are codes below 64.
#![tactic(auto)]

mod block;
mod blocks;
mod cards;
mod cuts;
mod end_message;
pub mod examples;
mod packed_cards;
mod printed;
mod reader;
mod stack;
mod writer;

pub use block::Block;
pub use cards::Cards;
pub use cuts::{Cut, Lines, Uncut};
pub use end_message::through_end;
pub use reader::Reader;
pub use stack::{CARD_LENGTH, Stack};
pub use writer::{Printer, Punch, Writer};
