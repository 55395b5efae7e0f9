//! What of a job stands above a line of it.

ghost use Rattle.std.specs.Prelude.{◌<◌, length};

use crate::fault_columns::kind_after;
use crate::job_lines::field;
use kdf_json::{after, is};
use kdf_limits::PROGRAM_WORDS;
use kdf_text::{Lines, number_in};

/// What of a job has been read: whether a deck, the pool or the schedule is open, the last line, the kind of the last device, and the words of the last store.
#[derive(Clone, Copy)]
pub struct Seen<'a> {
    pub is_deck: bool,
    pub is_pool: bool,
    pub is_schedule: bool,
    pub last: &'a [u8],
    pub kind: &'a [u8],
    pub store: u64,
}

/// What of a job stands above the line of a number.
pub fn seen_above(bytes: &[u8], number: u32) -> Seen<'_>
    requires { length bytes.now < 4294967295 }
{
    let mut seen = Seen {
        is_deck: false,
        is_pool: false,
        is_schedule: false,
        last: &[],
        kind: &[],
        store: 0,
    };
    let mut lines = Lines::new(bytes);
    for _line in 0..bytes.len() {
        if lines.rest.is_empty() {
            return seen;
        }
        let line = lines.take_line();
        if line.number >= number {
            return seen;
        }
        seen = seen.after(line.text);
    }
    seen
}

impl<'a> Seen<'a> {
    /// After a line.
    fn after(self, line: &'a [u8]) -> Seen<'a> {
        let seen = Seen { last: line, ..self };
        if self.is_deck {
            Seen {
                is_deck: !is(line, b"ENDDECK"),
                ..seen
            }
        } else {
            seen.after_line(line)
        }
    }

    /// After a line that is none of a deck.
    fn after_line(self, line: &'a [u8]) -> Seen<'a> {
        let store = match after(line, b"STORE ") {
            Some(_) => number_in(0, u64::from(PROGRAM_WORDS), field(line, 1)).unwrap_or(self.store),
            None => self.store,
        };
        Seen {
            is_deck: is(line, b"DECK"),
            is_pool: self.is_pool || is(line, b"POOL"),
            is_schedule: self.is_schedule || is(line, b"SCHEDULE"),
            kind: kind_after(self.kind, line),
            store,
            ..self
        }
    }

    /// Whether the line after is one of the devices of the pool.
    pub fn is_in_pool(self) -> bool {
        self.is_pool && !self.is_schedule && !self.is_deck
    }
}
