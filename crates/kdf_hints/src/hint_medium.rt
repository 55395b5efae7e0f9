//! What may have led to a line of a medium that is wrong.

use crate::hint::{write_begin, write_close, write_none, write_plain, write_value, write_words};
use crate::job_lines::longest;
use kdf_code::to_code;
use kdf_json::{before, count_of, from, is};
use std::alloc::AllocError;

/// Writes the hint on a line of the medium of a kind of device, or directly after the line `POOL`, which is wrong at a column.
pub fn write_medium_hint(
    out: &mut String,
    line: &[u8],
    kind: &[u8],
    column: u32,
) -> Result<(), AllocError> {
    if kind.is_empty() {
        return write_plain(out, "pool_empty");
    }
    if is(kind, b"TR") || is(kind, b"CR") || is(kind, b"MT") {
        return write_in_medium(out, line, kind, column);
    }
    write_begin(out, "kind_empty")?;
    write_words(out, "kind", kind)?;
    write_close(out)
}

fn write_in_medium(
    out: &mut String,
    line: &[u8],
    kind: &[u8],
    column: u32,
) -> Result<(), AllocError> {
    let wrong = before(from(line, column.saturating_sub(1)), 1);
    if is_lowercase(wrong) {
        write_plain(out, "lowercase")
    } else if column == 1 && !has_sign(line, kind) {
        write_plain(out, "mark")
    } else if is(kind, b"MT") && line.len() < 2 {
        write_begin(out, "empty_block")?;
        write_words(out, "text", b"a block of a tape")?;
        write_close(out)
    } else {
        write_in_characters(out, line, kind, wrong)
    }
}

fn write_in_characters(
    out: &mut String,
    line: &[u8],
    kind: &[u8],
    wrong: &[u8],
) -> Result<(), AllocError> {
    let characters = count_of(from(line, 1).len());
    let most = longest(kind);
    if characters > most && are_characters(from(line, 1)) {
        write_begin(out, "too_long")?;
        write_words(
            out,
            "text",
            if is(kind, b"CR") {
                b"a card"
            } else {
                b"a block of a tape"
            },
        )?;
        write_value(out, "most", u64::from(most))?;
        write_value(out, "characters", u64::from(characters))?;
        write_close(out)
    } else if is_shown(wrong) {
        write_begin(out, "no_character")?;
        write_words(out, "character", wrong)?;
        write_close(out)
    } else {
        write_none(out)
    }
}

/// Whether a line begins with a sign of its medium.
fn has_sign(line: &[u8], kind: &[u8]) -> bool {
    match line.first() {
        Some(b'+') => true,
        Some(b'=') => is(kind, b"MT"),
        _ => false,
    }
}

fn is_lowercase(wrong: &[u8]) -> bool {
    match wrong.first() {
        Some(byte) => byte.is_ascii_lowercase(),
        None => false,
    }
}

/// Whether a byte can be seen.
fn is_shown(wrong: &[u8]) -> bool {
    match wrong.first() {
        Some(byte) => *byte >= b' ' && *byte <= b'~',
        None => false,
    }
}

/// Whether all bytes are characters.
fn are_characters(bytes: &[u8]) -> bool {
    for byte in bytes {
        if to_code(*byte).is_none() {
            return false;
        }
    }
    true
}
