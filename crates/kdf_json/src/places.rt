//! Lines and columns.

ghost use Rattle.std.specs.Prelude.{◌<◌, length};

use kdf_text::{LINE_END, Lines};

/// A line and a column of a text, both counted from 1.
#[derive(Clone, Copy)]
pub struct Spot {
    pub line: u32,
    pub column: u32,
}

impl Spot {
    /// The begin of a line.
    pub fn of_line(line: u32) -> Spot {
        Spot { line, column: 1 }
    }
}

/// The spot after these bytes, which begin at a spot.
pub fn spot_after(bytes: &[u8], first: Spot) -> Spot {
    let Spot {
        mut line,
        mut column,
    } = first;
    for byte in bytes {
        if *byte == LINE_END {
            line = line.saturating_add(1);
            column = 1;
        } else {
            column = column.saturating_add(1);
        }
    }
    Spot { line, column }
}

/// The bytes before an offset, or all where there are no more.
pub fn before(bytes: &[u8], offset: u32) -> &[u8] {
    let offset = offset as usize;
    if offset < bytes.len() {
        &bytes[..offset]
    } else {
        bytes
    }
}

/// The bytes from an offset on, or none.
pub fn from(bytes: &[u8], offset: u32) -> &[u8] {
    let offset = offset as usize;
    if offset < bytes.len() {
        &bytes[offset..]
    } else {
        &[]
    }
}

/// The line of a number, or none where a text has fewer.
pub fn line_of(bytes: &[u8], number: u32) -> Option<&[u8]>
    requires { length bytes.now < 4294967295 }
{
    let mut lines = Lines::new(bytes);
    for _line in 0..bytes.len() {
        if lines.rest.is_empty() {
            return None;
        }
        let line = lines.take_line();
        if line.number == number {
            return Some(line.text);
        }
    }
    None
}

/// Whether a text is this one.
pub fn is(text: &[u8], name: &[u8]) -> bool {
    text == name
}

/// What stands in a text after this one, with which it begins.
pub fn after<'a>(text: &'a [u8], front: &[u8]) -> Option<&'a [u8]> {
    if text.len() >= front.len() && &text[..front.len()] == front {
        Some(&text[front.len()..])
    } else {
        None
    }
}
