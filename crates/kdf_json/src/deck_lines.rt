//! Where the decks of a job stand in its text.

ghost use Rattle.std.specs.Prelude.{◌<◌, length};

use crate::places::{after, is};
use kdf_text::Lines;

/// What of a job has been read.
#[derive(Clone, Copy)]
struct Reading {
    is_slot: bool,
    is_deck: bool,
}

/// The number of the first line of the deck of slot `p`, in a text whose lines up to there are those of a job; 0 where it has none.
pub fn deck_line(bytes: &[u8], p: u8) -> u32
    requires { length bytes.now < 4294967295 }
{
    let mut reading = Reading {
        is_slot: false,
        is_deck: false,
    };
    let mut lines = Lines::new(bytes);
    for _line in 0..bytes.len() {
        let line = lines.take_line();
        if reading.is_slot && !reading.is_deck && is(line.text, b"DECK") {
            return line.number.saturating_add(1);
        }
        reading = reading.after(line.text, p);
    }
    0
}

impl Reading {
    /// After a line. A line of a deck tells nothing but its end.
    fn after(self, line: &[u8], p: u8) -> Reading {
        if self.is_deck {
            return Reading {
                is_deck: !is(line, b"ENDDECK"),
                ..self
            };
        }
        match after(line, b"SLOT ") {
            Some(number) => Reading {
                is_slot: is_number(number, p),
                is_deck: false,
            },
            None => Reading {
                is_deck: is(line, b"DECK"),
                ..self
            },
        }
    }
}

/// Whether a text is the number of a slot.
fn is_number(text: &[u8], p: u8) -> bool {
    text.len() == 1 && text[0] >= b'0' && text[0] - b'0' == p
}
