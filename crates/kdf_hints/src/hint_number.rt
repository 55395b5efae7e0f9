//! What may have led to a number of a statement that is out of range.

use crate::hint::{write_begin, write_close, write_none, write_value};
use crate::hint_form::digits_of;
use kdf_job::TEXT_LIMIT;
use kdf_json::{before, count_of, from, squeezed};
use kdf_usercode::{DeckError, DeckFault, read_deck};
use std::alloc::{AllocError, Global};
use std::fmt::Write;

/// No number of a statement is larger.
const MOST_NUMBER: u64 = 281_474_976_710_656;

/// A statement is longer than any that has a number to be looked for.
const LONGEST: usize = 64;

/// Writes the largest number that a statement can have in the place of the first that is out of range.
pub fn write_number_hint(
    alloc: Global,
    out: &mut String,
    statement: &[u8],
) -> Result<(), AllocError> {
    let text = squeezed(alloc, statement)?;
    match largest_in(alloc, &text)? {
        Some(number) => {
            write_begin(out, "largest")?;
            write_value(out, "number", number)?;
            write_close(out)
        }
        None => write_none(out),
    }
}

/// The largest number in the place of the first number of a statement with which alone it is out of range.
fn largest_in(alloc: Global, text: &[u8]) -> Result<Option<u64>, AllocError> {
    if text.len() > LONGEST {
        return Ok(None);
    }
    let mut previous = 0;
    for (i, byte) in text.iter().enumerate() {
        if is_begin(previous, *byte) {
            let number = NumberInText::at(text, count_of(i));
            if !number.is_wrong(alloc, 1)? {
                return Ok(Some(number.largest(alloc)?));
            }
        }
        previous = *byte;
    }
    Ok(None)
}

/// Whether a byte begins a decimal number after another byte.
fn is_begin(previous: u8, byte: u8) -> bool {
    byte.is_ascii_digit() && !previous.is_ascii_digit() && previous != b'B'
}

/// A number in a statement: what stands before it, the number, and what stands after it.
#[derive(Clone, Copy)]
struct NumberInText<'a> {
    before: &'a [u8],
    number: u64,
    after: &'a [u8],
}

impl<'a> NumberInText<'a> {
    /// The number that begins at a place of a text.
    fn at(text: &'a [u8], i: u32) -> NumberInText<'a> {
        let rest = from(text, i);
        NumberInText {
            before: before(text, i),
            number: number_of(rest),
            after: from(rest, digits_of(rest)),
        }
    }

    /// The largest number in this place that isn't out of range, if 1 isn't: each halving leaves half of those that may be it.
    fn largest(self, alloc: Global) -> Result<u64, AllocError> {
        let mut least = 1u64;
        let mut most = self.number;
        for _halving in 0..48 {
            let half = most.saturating_sub(least) / 2;
            if half > 0 {
                let middle = least.saturating_add(half);
                if self.is_wrong(alloc, middle)? {
                    most = middle;
                } else {
                    least = middle;
                }
            }
        }
        Ok(least)
    }

    /// Whether the statement has a number out of range with this number in the place.
    fn is_wrong(self, alloc: Global, number: u64) -> Result<bool, AllocError> {
        let mut digits = String::new(alloc);
        write!(digits, "{number}")?;
        let mut deck = Vec::new(alloc);
        deck.extend_from_slice(b"PROGRAM;\n")?;
        deck.extend_from_slice(self.before)?;
        deck.extend_from_slice(digits.as_bytes())?;
        deck.extend_from_slice(self.after)?;
        deck.extend_from_slice(b";\nFINISH;\n")?;
        is_wrong_deck(alloc, &deck)
    }
}

/// Whether a deck has a number out of range.
fn is_wrong_deck(alloc: Global, deck: &[u8]) -> Result<bool, AllocError> {
    if deck.len() > TEXT_LIMIT {
        return Ok(false);
    }
    match read_deck(alloc, deck) {
        Ok(_) => Ok(false),
        Err(DeckError::Memory) => Err(AllocError),
        Err(DeckError::Fault(fault, _)) => Ok(fault == DeckFault::BadNumber),
    }
}

/// The number that a text begins with, or the largest that one is taken for.
fn number_of(text: &[u8]) -> u64 {
    let mut number = 0u64;
    for byte in text {
        if !byte.is_ascii_digit() {
            return number;
        }
        number = number
            .saturating_mul(10)
            .saturating_add(u64::from(byte.saturating_sub(b'0')))
            .min(MOST_NUMBER);
    }
    number
}
