//! Media that grow by a line.
ghost use Rattle.std.specs.Prelude.{◌≡◌, ◌+◌, ◌&&◌, ◌++◌, ◌∷◌, [], ◌^◌, ◌<◌, All, not, nat_le, length};
ghost use Rattle.kdf_word.specs.Characters.{words_of};
ghost use Rattle.kdf_job.specs.Adding.{IsAdded};
ghost use Rattle.kdf_job.specs.Media.{filled};
ghost use Rattle.kdf_media.specs.Media.{card_of};

use crate::media::filled;
use crate::{JobFault, LineError};
use kdf_limits::TAPE_BLOCK;
use kdf_media::{CARD_LENGTH, Stack};
use kdf_tape::TapeBlock;
use std::alloc::Global;

/// The characters of a paper tape.
#[derive(Drop)]
pub struct Paper {
    pub codes: Vec<u8>,
    ghost small: { All (λ c. c < 64) codes.items },
    ghost few: { length codes.items < 2 ^ 32 },
}

impl Paper {
    /// A tape without characters.
    pub fn new(alloc: Global) -> Paper
        ensures { result.codes.items ≡ [] }
    {
        Paper {
            codes: Vec::new(alloc),
        }
    }

    /// Adds a line of these characters, which isn't marked.
    pub fn add(&mut self, marked: bool, codes: &[u8]) -> Result<(), LineError>
        requires small { All (λ c. c < 64) codes.now }
        requires few { length self.old.codes.items + length codes.now < 2 ^ 32 }
        ensures { IsAdded (not marked) (self.old.codes.items ++ codes.now)
            self.new.codes.items result }
    {
        if marked {
            return Err(LineError::Fault(JobFault::BadMedium));
        }
        self.codes.extend_from_slice(codes)?;
        Ok(())
    }
}

/// A stack of cards.
#[derive(Drop)]
pub struct CardStack {
    pub cards: Stack,
    ghost few: { length cards < 2 ^ 32 },
}

impl CardStack {
    /// No cards.
    pub fn new(alloc: Global) -> CardStack
        ensures { result.cards ≡ [] }
    {
        CardStack {
            cards: Stack::new(alloc),
        }
    }

    /// Adds a card of these characters, as many as it has at most, which isn't marked.
    pub fn add(&mut self, marked: bool, codes: &[u8]) -> Result<(), LineError>
        requires small { All (λ c. c < 64) codes.now }
        requires few { length self.old.cards + 1 < 2 ^ 32 }
        ensures { IsAdded (not marked && nat_le (length codes.now) CARD_LENGTH)
            (self.old.cards ++ card_of codes.now ∷ []) self.new.cards result }
    {
        if marked || codes.len() > CARD_LENGTH {
            return Err(LineError::Fault(JobFault::BadMedium));
        }
        self.cards.push(codes)?;
        Ok(())
    }
}

/// The blocks of a magnetic tape.
#[derive(Drop)]
pub struct TapeBlocks {
    pub blocks: Vec<TapeBlock>,
    ghost few: { length blocks.items < 2 ^ 32 },
}

impl TapeBlocks {
    /// No blocks.
    pub fn new(alloc: Global) -> TapeBlocks
        ensures { result.blocks.items ≡ [] }
    {
        TapeBlocks {
            blocks: Vec::new(alloc),
        }
    }

    /// Adds a block of these characters, at least 1, with the last-block mark where it is marked.
    pub fn add(&mut self, marked: bool, codes: Vec<u8>) -> Result<(), LineError>
        requires small { All (λ c. c < 64) codes.items }
        requires few { length self.old.blocks.items + 1 < 2 ^ 32 }
        ensures { IsAdded (nat_le 1 (length codes.items) && nat_le (length codes.items) TAPE_BLOCK)
            (self.old.blocks.items
            ++ record { words = words_of (filled codes.items); mark = marked } ∷ [])
            self.new.blocks.items result }
    {
        if codes.is_empty() || codes.len() > TAPE_BLOCK {
            return Err(LineError::Fault(JobFault::BadMedium));
        }
        let block = TapeBlock::new(filled(codes)?, marked);
        self.blocks.push(block)?;
        Ok(())
    }
}
