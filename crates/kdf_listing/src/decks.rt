//! The decks of a job.

use crate::layout::Layout;

/// The deck of a slot.
#[derive(Drop)]
pub struct Deck<'a> {
    pub p: u8,
    pub layout: Layout<'a>,
}

/// The layout of the deck of a slot.
pub fn layout_of<'a, 'b>(decks: &'a [Deck<'b>], p: u8) -> Option<&'a Layout<'b>> {
    for deck in decks {
        if deck.p == p {
            return Some(&deck.layout);
        }
    }
    None
}
