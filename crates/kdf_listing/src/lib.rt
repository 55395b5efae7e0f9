//! Decks that were read: the statements of each in its text and in the store, its stores, and its listing.
#![tactic(auto)]

mod decks;
mod layout;
mod listing;
mod spots;
mod stores;

pub use decks::{Deck, layout_of};
pub use layout::{Layout, Row, StatementKind, lay_out, statement_of};
pub use listing::{absent_text, listing_text};
pub use spots::{write_at, write_order, write_spot};
pub use stores::{GROUPS, count_in, end_of};
