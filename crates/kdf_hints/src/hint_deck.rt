//! What may have led to a fault of a deck.

use crate::hint::{write_begin, write_close, write_none, write_place, write_plain, write_value};
use crate::hint_byte::write_byte_hint;
use crate::hint_form::write_form_hint;
use crate::hint_names::write_names_hint;
use crate::hint_number::write_number_hint;
use kdf_json::{Spot, before, from, length_of, spot_after};
use kdf_limits::PROGRAM_WORDS;
use kdf_usercode::DeckFault;
use std::alloc::{AllocError, Global};
use std::fmt::Write;

/// A fault in a deck: the deck's text, the spot of its first byte in the job, the words of its store, and the place of the fault, an offset in the deck.
#[derive(Clone, Copy)]
pub struct Faulty<'a> {
    pub text: &'a [u8],
    pub first: Spot,
    pub store: u16,
    pub fault: DeckFault,
    pub place: u32,
}

impl Faulty<'_> {
    /// The spot of a byte of the deck in the job.
    pub fn spot(self, offset: u32) -> Spot {
        spot_after(before(self.text, offset), self.first)
    }
}

/// Writes the hint on a fault of a deck at a statement, whose image has so many words if it is too large.
pub fn write_deck_hint(
    alloc: Global,
    out: &mut String,
    faulty: Faulty<'_>,
    statement: &[u8],
    words: Option<u32>,
) -> Result<(), AllocError> {
    match faulty.fault {
        DeckFault::BadByte => write_byte_hint(out, from(faulty.text, faulty.place)),
        DeckFault::Floating => write_plain(out, "floating"),
        DeckFault::NoSemicolon => write_semicolon_hint(out, faulty),
        DeckFault::UnknownOrder | DeckFault::ConstantRange => {
            write_form_hint(alloc, out, faulty, statement)
        }
        DeckFault::BadNumber => write_number_hint(alloc, out, statement),
        DeckFault::TooLarge => write_size_hint(out, faulty.store, words),
        DeckFault::ReferenceTwice
        | DeckFault::ReferenceMissing
        | DeckFault::PartTwice
        | DeckFault::PartMissing
        | DeckFault::VRange
        | DeckFault::YRange => write_names_hint(alloc, out, faulty),
        _ => write_none(out),
    }
}

/// Writes where the last `;` of a deck is missing.
fn write_semicolon_hint(out: &mut String, faulty: Faulty<'_>) -> Result<(), AllocError> {
    write_begin(out, "semicolon_missing")?;
    write_place(out, faulty.spot(length_of(faulty.text)))?;
    write_close(out)
}

/// Writes how many words an image has, and the least store for it; or else that no store is large enough.
fn write_size_hint(out: &mut String, store: u16, words: Option<u32>) -> Result<(), AllocError> {
    match words {
        Some(words) => write_words_hint(out, words),
        None if store < PROGRAM_WORDS => {
            write_begin(out, "image_too_large")?;
            write_value(out, "most", u64::from(PROGRAM_WORDS))?;
            write_close(out)
        }
        None => write_none(out),
    }
}

fn write_words_hint(out: &mut String, words: u32) -> Result<(), AllocError> {
    write_begin(out, "image_size")?;
    let ending = if words == 1 { "" } else { "s" };
    write!(out, ",\"words\":\"{words} word{ending}\"")?;
    write_value(out, "store", u64::from(least_store(words)))?;
    write_close(out)
}

/// The least store for so many words: a store is whole groups of 32 words.
pub fn least_store(words: u32) -> u32 {
    words.div_ceil(32).saturating_mul(32)
}
