//! The image of a deck.

use kdf_word::Word;

/// A deck in the words of a store.
#[derive(Drop)]
pub struct Image {
    /// The words from address 0 on, at most 8,192.
    pub words: Vec<Word>,
    /// The syllable number of the first order of the main part: 6 times the word, and the syllable.
    pub start: u16,
    /// The references, in the order of the deck.
    pub labels: Vec<Label>,
}

/// A reference of a part, and its syllable number `at`. The main part is 0.
#[derive(Clone, Copy, PartialEq, Eq)]
pub struct Label {
    pub part: u16,
    pub number: u16,
    pub at: u16,
}
