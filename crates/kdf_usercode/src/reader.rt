//! The reader: over the bytes of a deck that stay.

ghost use Rattle.std.specs.Prelude.{◌≤◌, length, IfOk};
ghost use Rattle.kdf_usercode.specs.Grammar.{deck};
ghost use Rattle.kdf_usercode.specs.Reading.{Gives};
ghost use Rattle.kdf_usercode.specs.Thinned.{thinned_deck};
ghost use Rattle.kdf_usercode.specs.WellFormed.{IsWellFormed};
ghost use Rattle.kdf_usercode.specs.declared.stars.Stars.TheVariants.{AfterOther};

use crate::fault::DeckError;
use crate::phase::{Phase, Stage};
use crate::reading::{Reading, Scratch};
use crate::stars::Stars;
use crate::statement::Deck;
use crate::unread::Unread;
use std::alloc::Global;

/// What is kept of the statements of a deck, with their places, or its first fault.
#[tactic(auto, unfolding(crate::specs::Phase::start))]
fn read(alloc: Global, text: &[u8], stars: Stars) -> Result<Deck, DeckError>
    requires { length text.now ≤ 268435456 }
    ensures { Gives result (length text.now) (thinned_deck stars text.now) }
{
    let mut reading = Reading {
        phase: Phase {
            stage: Stage::Heading,
            declared: [false; 27],
        },
        best: None,
        statements: Vec::new(alloc),
        stars,
    };
    reading.see(text);
    let mut piece = Vec::new(alloc);
    let mut scratch = Scratch::new(alloc);
    let mut unread = Unread::new(text);
    while let Some(kept) = unread.next_kept() {
        reading.take(&mut piece, &mut scratch, kept)?;
    }
    reading.finish(&piece, text.len() as u32)
}

/// The statements of a deck with their places, or its first fault.
pub fn read_deck(alloc: Global, text: &[u8]) -> Result<Deck, DeckError>
    requires { length text.now ≤ 268435456 }
    ensures answer { Gives result (length text.now) (deck text.now) }
    ensures sound { IfOk result IsWellFormed }
{
    read(alloc, text, Stars::Every)
}

/// The same without the `*` directly after another, which do nothing. A deck may have as many of them as it has bytes.
pub fn read_thinned(alloc: Global, text: &[u8]) -> Result<Deck, DeckError>
    requires { length text.now ≤ 268435456 }
    ensures answer { Gives result (length text.now) (thinned_deck AfterOther text.now) }
    ensures sound { IfOk result IsWellFormed }
{
    read(alloc, text, Stars::AfterOther)
}
