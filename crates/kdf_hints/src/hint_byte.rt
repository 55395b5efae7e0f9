//! What may have led to a byte that no deck has.

use crate::hint::{write_begin, write_close, write_none, write_plain};
use kdf_json::write_code;
use std::alloc::AllocError;

/// Writes the hint on the byte with which this text of a deck begins.
pub fn write_byte_hint(out: &mut String, text: &[u8]) -> Result<(), AllocError> {
    match byte_at(text, 0) {
        9 => write_plain(out, "tab"),
        13 => write_plain(out, "byte_13"),
        128..=255 => write_letter_hint(out, letter_of(text)),
        _ => write_none(out),
    }
}

/// Writes that a letter begins here, or that no letter is allowed.
fn write_letter_hint(out: &mut String, letter: Option<u32>) -> Result<(), AllocError> {
    match letter {
        Some(letter) if is_shown(letter) => {
            write_begin(out, "letter")?;
            out.push_str(",\"letter\":\"")?;
            write_code(out, letter)?;
            out.push('"')?;
            write_close(out)
        }
        _ => write_plain(out, "no_letters"),
    }
}

/// A byte of a text, or 0 behind its end.
fn byte_at(text: &[u8], i: usize) -> u32 {
    match text.get(i) {
        Some(byte) => u32::from(*byte),
        None => 0,
    }
}

/// The letter of UTF-8 that a text begins with, if it is one of several bytes.
fn letter_of(text: &[u8]) -> Option<u32> {
    let first = byte_at(text, 0);
    if first < 0xe0 {
        within(of_two(first, text), 0x80, 0x7ff)
    } else if first < 0xf0 {
        within(of_three(first, text), 0x800, 0xffff)
    } else {
        within(of_four(first, text), 0x1_0000, 0x10_ffff)
    }
}

/// A letter, if it is in a range.
fn within(letter: Option<u32>, least: u32, most: u32) -> Option<u32> {
    match letter {
        Some(letter) if least <= letter && letter <= most => Some(letter),
        _ => None,
    }
}

fn of_two(first: u32, text: &[u8]) -> Option<u32> {
    further(first % 32, byte_at(text, 1))
}

fn of_three(first: u32, text: &[u8]) -> Option<u32> {
    match further(first % 16, byte_at(text, 1)) {
        Some(two) => further(two, byte_at(text, 2)),
        None => None,
    }
}

fn of_four(first: u32, text: &[u8]) -> Option<u32> {
    match of_three(first % 8, text) {
        Some(three) => further(three, byte_at(text, 3)),
        None => None,
    }
}

/// A letter so far with a further byte, if that is one of those that don't begin a letter.
fn further(letter: u32, byte: u32) -> Option<u32> {
    if byte / 64 == 2 {
        Some(letter.saturating_mul(64).saturating_add(byte % 64))
    } else {
        None
    }
}

/// Whether a letter can be seen by itself. No mark, no space and no code for private use is one.
fn is_shown(letter: u32) -> bool {
    match letter {
        0..=0xa0 | 0xad => false,
        0x2000..=0x200f | 0x2028..=0x202f | 0x2060..=0x206f => false,
        0xd800..=0xf8ff | 0xfeff => false,
        0xe_0000..=0xffff_ffff => false,
        _ => true,
    }
}
