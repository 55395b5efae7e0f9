//! What may have led to a line of a job that isn't allowed where it stands.

use crate::hint::{write_begin, write_close, write_plain, write_words};
use crate::hint_seen::Seen;
use crate::job_lines::{field, form_of};
use crate::near::is_near;
use kdf_json::{is, write_byte};
use kdf_text::cut_word;
use std::alloc::AllocError;

/// The words with which a line can begin after a line of a slot, of a medium, and of a deck.
const FREE: &[u8] = b"DEVICE SHOW SLOT POOL SCHEDULE";

const AFTER_READER: &[u8] = b"+ DEVICE SHOW SLOT POOL SCHEDULE";

const AFTER_TAPE: &[u8] = b"+ = DEVICE SHOW SLOT POOL SCHEDULE";

const AFTER_DECK: &[u8] = b"SERVICE DEVICE SHOW SLOT POOL SCHEDULE";

/// Writes the hint on a line that isn't allowed after what stands above it.
pub fn write_line_hint(out: &mut String, line: &[u8], seen: Seen<'_>) -> Result<(), AllocError> {
    if is(line, b"SERVICE") && !seen.is_deck {
        write_plain(
            out,
            if is(seen.last, b"SERVICE") {
                "service_twice"
            } else {
                "service_once"
            },
        )
    } else if is(line, b"POOL") && !seen.is_deck {
        write_plain(
            out,
            if seen.is_in_pool() {
                "pool_twice"
            } else {
                "pool_once"
            },
        )
    } else {
        write_word_hint(out, field(line, 0), seen)
    }
}

/// Writes the hint on a line that begins with a word.
fn write_word_hint(out: &mut String, word: &[u8], seen: Seen<'_>) -> Result<(), AllocError> {
    if seen.is_in_pool() && (is(word, b"SLOT") || is(word, b"SHOW")) {
        write_plain(out, "pool_last")
    } else if seen.is_in_pool() && is(word, b"DEVICE") {
        write_form(out, "DEVICE d TP, or DEVICE d LP")
    } else if seen.is_schedule && is(seen.last, b"ENDJOB") {
        write_begin(out, "expected")?;
        write_words(out, "names", b"the end of the job")?;
        write_close(out)
    } else {
        write_expected(out, word, expected_after(seen))
    }
}

fn write_form(out: &mut String, form: &str) -> Result<(), AllocError> {
    write_begin(out, "form")?;
    write_words(out, "form", form.as_bytes())?;
    write_close(out)
}

/// The words with which a line can begin after what stands above it.
fn expected_after(seen: Seen<'_>) -> &'static [u8] {
    let word = field(seen.last, 0);
    if seen.is_schedule {
        b"ORDERS MOVE END CLOCK SWAP ENDJOB"
    } else if seen.is_in_pool() {
        b"DEVICE SCHEDULE"
    } else if is(word, b"KDF9") {
        b"SLOT"
    } else if is(word, b"SLOT") {
        b"STORE"
    } else if is(word, b"STORE") {
        b"DECK"
    } else if is(word, b"SHOW") {
        b"SHOW SLOT POOL SCHEDULE"
    } else if is(word, b"ENDDECK") {
        AFTER_DECK
    } else {
        expected_after_device(seen)
    }
}

/// The words with which a line can begin after a device, one of its lines, or a line SERVICE.
fn expected_after_device(seen: Seen<'_>) -> &'static [u8] {
    if is(seen.last, b"SERVICE") {
        FREE
    } else if is(seen.kind, b"MT") {
        AFTER_TAPE
    } else if is(seen.kind, b"TR") || is(seen.kind, b"CR") {
        AFTER_READER
    } else {
        FREE
    }
}

/// Writes the form of a line that begins with one of these words, the word that is meant, or all of them.
fn write_expected(
    out: &mut String,
    word: &[u8],
    expected: &'static [u8],
) -> Result<(), AllocError> {
    if let Some(form) = form_of(word) {
        if has(expected, word) {
            return write_form(out, form);
        }
    }
    match meant(expected, word) {
        Some(name) => {
            write_begin(out, "meant")?;
            write_words(out, "names", name)?;
            write_close(out)
        }
        None => write_all(out, expected),
    }
}

/// Whether a word is one of these.
pub fn has(words: &[u8], word: &[u8]) -> bool {
    let mut rest = words;
    for _word in 0..words.len() {
        match cut_word(rest) {
            Some((first, after)) => {
                if is(first, word) {
                    return true;
                }
                rest = after;
            }
            None => return is(rest, word),
        }
    }
    false
}

/// The first of these words that is one change away from a word.
fn meant(words: &'static [u8], word: &[u8]) -> Option<&'static [u8]> {
    let mut rest = words;
    for _word in 0..words.len() {
        match cut_word(rest) {
            Some((first, after)) => {
                if is_near(word, first) {
                    return Some(first);
                }
                rest = after;
            }
            None => return if is_near(word, rest) {
                Some(rest)
            } else {
                None
            },
        }
    }
    None
}

/// Writes which words are expected.
fn write_all(out: &mut String, words: &[u8]) -> Result<(), AllocError> {
    write_begin(out, "expected")?;
    out.push_str(",\"names\":\"")?;
    write_list(out, words)?;
    out.push('"')?;
    write_close(out)
}

/// Writes words as a list in a sentence.
fn write_list(out: &mut String, words: &[u8]) -> Result<(), AllocError> {
    let mut rest = words;
    for i in 0..words.len() {
        match cut_word(rest) {
            Some((first, after)) => {
                if i > 0 {
                    out.push_str(", ")?;
                }
                write_bytes(out, first)?;
                rest = after;
            }
            None => {
                if i > 0 {
                    out.push_str(" or ")?;
                }
                return write_bytes(out, rest);
            }
        }
    }
    Ok(())
}

fn write_bytes(out: &mut String, bytes: &[u8]) -> Result<(), AllocError> {
    for byte in bytes {
        write_byte(out, *byte)?;
    }
    Ok(())
}
