//! Magnetic tape: blocks of words, some with a last-block mark, and the place between them. A tape shows its state as a record; the
//! states that its orders leave are those of `specs/Tape`.
//!
//! All characters are codes below 64.
#![tactic(auto)]

mod blocks;
pub mod examples;
mod tape;
mod tape_block;

pub use tape::MagTape;
pub use tape_block::TapeBlock;
