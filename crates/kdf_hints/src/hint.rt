//! How a hint is told: the name of its sentence, and the values that the sentence has.

use kdf_json::{Spot, write_byte, write_text};
use std::alloc::AllocError;
use std::fmt::Write;

/// Writes that there is no hint.
pub fn write_none(out: &mut String) -> Result<(), AllocError> {
    out.push_str("null")
}

/// Writes a hint without values.
pub fn write_plain(out: &mut String, name: &str) -> Result<(), AllocError> {
    write!(out, "{{\"name\":\"{name}\"}}")
}

/// Writes the begin of a hint with values.
pub fn write_begin(out: &mut String, name: &str) -> Result<(), AllocError> {
    write!(out, "{{\"name\":\"{name}\"")
}

/// Writes the end of a hint with values.
pub fn write_close(out: &mut String) -> Result<(), AllocError> {
    out.push_str("}")
}

/// Writes a value that is a number.
pub fn write_value(out: &mut String, member: &str, number: u64) -> Result<(), AllocError> {
    write!(out, ",\"{member}\":{number}")
}

/// Writes a value that is a text.
pub fn write_words(out: &mut String, member: &str, text: &[u8]) -> Result<(), AllocError> {
    write!(out, ",\"{member}\":")?;
    write_text(out, text)
}

/// Writes a value that is a text, as capitals.
pub fn write_capitals(out: &mut String, member: &str, text: &[u8]) -> Result<(), AllocError> {
    write!(out, ",\"{member}\":\"")?;
    for byte in text {
        write_byte(out, byte.to_ascii_uppercase())?;
    }
    out.push('"')
}

/// Writes the value that is a place: a line and a column of the job.
pub fn write_place(out: &mut String, spot: Spot) -> Result<(), AllocError> {
    let Spot { line, column } = spot;
    write!(out, ",\"place\":\"{line}:{column}\"")
}

/// Writes the name of a part, in words.
pub fn write_part(out: &mut String, part: u16) -> Result<(), AllocError> {
    if part == 0 {
        out.push_str("the main part")
    } else {
        write!(out, "part {part}")
    }
}

/// Writes what stands before an item of a list in words, of which there are so many.
pub fn write_between(out: &mut String, i: u32, all: u32) -> Result<(), AllocError> {
    if i == 0 {
        Ok(())
    } else if i.saturating_add(1) < all {
        out.push_str(", ")
    } else {
        out.push_str(" and ")
    }
}
