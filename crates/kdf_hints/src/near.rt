//! Words that are nearly alike.

use kdf_json::{before, from, is};

/// Whether one letter too many, too few or wrong, or two neighbouring letters exchanged, make the difference between two words.
pub fn is_near(one: &[u8], other: &[u8]) -> bool {
    let shared = shared_of(one, other);
    !is(one, other) && is_near_after(from(one, shared), from(other, shared))
}

/// How many bytes two words begin with alike.
fn shared_of(one: &[u8], other: &[u8]) -> u32 {
    let mut shared = 0u32;
    for (i, byte) in one.iter().enumerate() {
        match other.get(i) {
            Some(due) if *due == *byte => shared = shared.saturating_add(1),
            _ => return shared,
        }
    }
    shared
}

/// Whether two words that begin with different bytes are alike after one change.
fn is_near_after(rest: &[u8], due: &[u8]) -> bool {
    let short = from(rest, 1);
    let less = from(due, 1);
    is(short, due)
        || is(rest, less)
        || is(short, less)
        || is_exchanged(rest, due) && is(from(rest, 2), from(due, 2))
}

/// Whether two words begin with the same two letters, exchanged.
fn is_exchanged(rest: &[u8], due: &[u8]) -> bool {
    rest.len() >= 2
        && due.len() >= 2
        && is(before(rest, 1), before(from(due, 1), 1))
        && is(before(from(rest, 1), 1), before(due, 1))
}
