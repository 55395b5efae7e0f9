//! JSON and sentences: texts in quotes, numbers and lists, statements without comments, and where a line or a deck stands in a text.
#![tactic(auto)]

mod decimals;
mod deck_lines;
mod json;
mod places;
mod spaced;
mod words;

pub use decimals::{write_after, write_decimal};
pub use deck_lines::deck_line;
pub use json::{
    count_of, write_byte, write_code, write_comma, write_items, write_number, write_text,
};
pub use places::{Spot, after, before, from, is, line_of, spot_after};
pub use spaced::{length_of, squeezed, write_spaced};
pub use words::{without_comments, write_count, write_separator};
