//! A statement without what doesn't count in it: its comments, and all spaces but those between words.

use crate::json::write_byte;
use std::alloc::{AllocError, Global};

/// What has been read of a statement: whether a comment is open, and whether a space or a comment came since the last byte that counts.
#[derive(Clone, Copy)]
struct Gap {
    is_comment: bool,
    is_gap: bool,
}

impl Gap {
    /// Before the first byte.
    fn none() -> Gap {
        Gap {
            is_comment: false,
            is_gap: false,
        }
    }

    /// After a byte.
    fn after(self, byte: u8) -> Gap {
        let is_comment = if self.is_comment {
            byte != b')'
        } else {
            byte == b'('
        };
        Gap {
            is_comment,
            is_gap: self.is_gap_at(byte),
        }
    }

    /// Whether a byte doesn't count.
    fn is_gap_at(self, byte: u8) -> bool {
        self.is_comment || byte == b'(' || byte == b' ' || byte == b'\n'
    }
}

/// Writes a statement in quotes, without comments and with single spaces.
pub fn write_spaced(out: &mut String, text: &[u8]) -> Result<(), AllocError> {
    let mut gap = Gap::none();
    let mut is_first = true;
    out.push('"')?;
    for byte in text {
        if !gap.is_gap_at(*byte) {
            if gap.is_gap && !is_first {
                out.push(' ')?;
            }
            write_byte(out, *byte)?;
            is_first = false;
        }
        gap = gap.after(*byte);
    }
    out.push('"')
}

/// How many bytes a statement has up to the last that counts.
pub fn length_of(text: &[u8]) -> u32 {
    let mut gap = Gap::none();
    let mut all = 0u32;
    let mut length = 0u32;
    for byte in text {
        all = all.saturating_add(1);
        if !gap.is_gap_at(*byte) {
            length = all;
        }
        gap = gap.after(*byte);
    }
    length
}

/// The bytes of a statement that count.
pub fn squeezed(alloc: Global, text: &[u8]) -> Result<Vec<u8>, AllocError> {
    let mut gap = Gap::none();
    let mut bytes = Vec::new(alloc);
    for byte in text {
        if !gap.is_gap_at(*byte) {
            bytes.push(*byte)?;
        }
        gap = gap.after(*byte);
    }
    Ok(bytes)
}
