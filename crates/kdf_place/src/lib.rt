//! Places a deck: the words of its image, where it starts, and where its references stand; or its
//! first late fault.
//!
//! A deck is walked from its front with a place (`here`): the part, and the syllable that the sum of
//! all sizes before has come to. The walk says what each name means (`entries`). In the order of their
//! numbers (`table`) those that stand twice are found (`twice`), and of each the first meaning counts
//! (`meanings`, `names`): parts, references, the stores of the groups. With these each statement is
//! held against what it names (`late`), and where nothing is wrong, it is spelt into the image
//! (`picture`, with `spell`, `words` and `constants`). What came of it can be printed (`listings`).
#![tactic(auto)]

mod assembler;
mod constants;
mod entries;
pub mod examples;
mod here;
mod image;
mod late;
pub mod laws;
mod listings;
mod meanings;
mod names;
mod picture;
mod spell;
mod table;
mod twice;
mod words;

pub use assembler::{assemble, assemble_text};
pub use image::{Image, Label};
pub use listings::{listing, listing_absent};
