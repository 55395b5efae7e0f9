//! The lines of a job: their fields, their forms, and the ranges of their numbers.

use kdf_json::is;
use kdf_limits::{GROUP_WORDS, LAST_ADDRESS, PROGRAM_WORDS, TAPE_BLOCK};
use kdf_media::CARD_LENGTH;
use kdf_schedule::MOST_ORDERS;
use kdf_text::{GREATEST, cut_word};

/// The field of a number of a line, counted from 0, or none.
pub fn field(line: &[u8], index: u32) -> &[u8] {
    let mut rest = line;
    for _field in 0..index {
        match cut_word(rest) {
            Some((_, after)) => rest = after,
            None => return &[],
        }
    }
    match cut_word(rest) {
        Some((word, _)) => word,
        None => rest,
    }
}

/// Whether a line has nothing but spaces.
pub fn is_blank(line: &[u8]) -> bool {
    for byte in line {
        if *byte != b' ' && *byte != 9 {
            return false;
        }
    }
    true
}

/// Whether a text is a word, in capitals or small letters.
fn is_word(text: &[u8], word: &[u8]) -> bool {
    text.eq_ignore_ascii_case(word)
}

/// The form of the lines that begin with a word, in capitals or small letters.
pub fn form_of(word: &[u8]) -> Option<&'static str> {
    if is_word(word, b"DEVICE") {
        Some("DEVICE d k, or DEVICE d MT label")
    } else if is_word(word, b"SLOT") {
        Some("SLOT p")
    } else if is_word(word, b"STORE") {
        Some("STORE n")
    } else if is_word(word, b"SHOW") {
        Some("SHOW a b")
    } else {
        form_of_schedule(word)
    }
}

fn form_of_schedule(word: &[u8]) -> Option<&'static str> {
    if is_word(word, b"ORDERS") {
        Some("ORDERS n")
    } else if is_word(word, b"MOVE") {
        Some("MOVE d n")
    } else if is_word(word, b"END") {
        Some("END d")
    } else if is_word(word, b"CLOCK") {
        Some("CLOCK t")
    } else if is_word(word, b"SWAP") {
        Some("SWAP p q")
    } else {
        form_of_one_word(word)
    }
}

fn form_of_one_word(word: &[u8]) -> Option<&'static str> {
    if is_word(word, b"DECK") {
        Some("DECK, with nothing after it")
    } else if is_word(word, b"ENDDECK") {
        Some("ENDDECK, with nothing after it")
    } else if is_word(word, b"SERVICE") {
        Some("SERVICE, with nothing after it")
    } else if is_word(word, b"POOL") {
        Some("POOL, with nothing after it")
    } else if is_word(word, b"SCHEDULE") {
        Some("SCHEDULE, with nothing after it")
    } else if is_word(word, b"ENDJOB") {
        Some("ENDJOB, with nothing after it")
    } else {
        None
    }
}

/// The range of the number of a line that begins at a column.
pub fn range_of(line: &[u8], column: u32) -> Option<(u64, u64)> {
    match fields_before(line, column) {
        1 => range_of_first(field(line, 0)),
        2 => range_of_second(field(line, 0)),
        _ => None,
    }
}

/// How many fields a line has before a column.
fn fields_before(line: &[u8], column: u32) -> u32 {
    let mut at = 1u32;
    let mut fields = 0u32;
    for byte in line {
        if at >= column {
            return fields;
        }
        at = at.saturating_add(1);
        if *byte == b' ' {
            fields = fields.saturating_add(1);
        }
    }
    fields
}

/// The range of the first number of a line that begins with a word.
pub fn range_of_first(word: &[u8]) -> Option<(u64, u64)> {
    if is(word, b"STORE") {
        Some((u64::from(GROUP_WORDS), u64::from(PROGRAM_WORDS)))
    } else if is(word, b"SHOW") {
        Some((0, u64::from(LAST_ADDRESS)))
    } else if is(word, b"ORDERS") {
        Some((1, u64::from(MOST_ORDERS)))
    } else if is(word, b"CLOCK") {
        Some((0, GREATEST))
    } else if is(word, b"SLOT") || is(word, b"SWAP") {
        Some((0, 3))
    } else if is(word, b"DEVICE") || is(word, b"MOVE") || is(word, b"END") {
        Some((0, 15))
    } else {
        None
    }
}

fn range_of_second(word: &[u8]) -> Option<(u64, u64)> {
    if is(word, b"SHOW") {
        Some((0, u64::from(LAST_ADDRESS)))
    } else if is(word, b"MOVE") {
        Some((1, 4096))
    } else if is(word, b"SWAP") {
        Some((0, 3))
    } else {
        None
    }
}

/// The most characters of a line of a kind of medium.
pub fn longest(kind: &[u8]) -> u32 {
    if is(kind, b"CR") {
        CARD_LENGTH as u32
    } else if is(kind, b"MT") {
        TAPE_BLOCK as u32
    } else {
        u32::MAX
    }
}
