//! Words and lists in sentences.

use std::alloc::{AllocError, Global};
use std::fmt::Write;

/// Writes what stands before the word of this number in a list of so many, the last of which follows `last`.
pub fn write_separator(
    out: &mut String,
    i: usize,
    many: usize,
    last: &str,
) -> Result<(), AllocError> {
    if i == 0 {
        return Ok(());
    }
    out.push_str(if i.saturating_add(1) >= many {
        last
    } else {
        ", "
    })
}

/// Writes a number of something, which gets an s where it isn't 1.
pub fn write_count(out: &mut String, number: u64, what: &str) -> Result<(), AllocError> {
    write!(out, "{number} {what}")?;
    out.push_str(if number == 1 { "" } else { "s" })
}

/// A statement as it is written, without its comments, and with this in place of spaces.
pub fn without_comments(alloc: Global, text: &[u8], gap: &str) -> Result<String, AllocError> {
    let mut out = String::new(alloc);
    let mut is_comment = false;
    let mut is_apart = false;
    for byte in text {
        if *byte == b'(' {
            is_comment = true;
        }
        if is_comment || *byte <= b' ' {
            is_apart = !out.is_empty();
        } else {
            write_character(&mut out, *byte, if is_apart { gap } else { "" })?;
            is_apart = false;
        }
        if *byte == b')' {
            is_comment = false;
        }
    }
    Ok(out)
}

/// Writes a character after what stands before it.
fn write_character(out: &mut String, byte: u8, before: &str) -> Result<(), AllocError> {
    out.push_str(before)?;
    out.push(char::from(byte))
}
