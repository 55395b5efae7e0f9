//! A block of a tape.
ghost use Rattle.std.specs.Prelude.{◌≡◌, ◌+◌, ◌*◌, ◌%◌, ◌<◌, ◌≤◌, All, length, slice_index, IfOk};
ghost use Rattle.kdf_word.specs.Characters.{codes_of_all, words_of};
ghost use Rattle.kdf_tape.specs.Tape.{IsWhole};
ghost use Rattle.kdf_tape.specs.Blocks.{codes_in, mark_in};

use kdf_word::Word;
use std::alloc::{AllocError, Global};
use std::marker::Model;

/// A block of a tape, which contracts see as its words and its mark. It keeps the characters of the words, so that it is made without
/// memory of its own.
#[derive(Drop)]
pub struct TapeBlock {
    kept: Kept,
}

/// What is kept of a block. The characters of a single word lie in the block itself: a tape of such blocks is the one that has most of them. Each kind has its mark, which takes
/// no room there.
#[derive(Drop)]
enum Kept {
    Word(bool, [u8; 8]),
    Words(bool, Vec<u8>),
}

impl Model for TapeBlock {
    ghost use Rattle.kdf_word.specs.Characters.{words_of};
    ghost use Rattle.kdf_tape.specs.Tape.{Recorded, IsWhole};
    ghost use Rattle.kdf_tape.specs.Blocks.{codes_in, mark_in};

    ghost Value = { Recorded };

    ghost view = { λ b. record { words = words_of (codes_in b.kept); mark = mark_in b.kept } };

    ghost invariant = { λ b. IsWhole (codes_in b.kept) };
}

impl Kept {
    /// Characters with a mark.
    fn new(codes: Vec<u8>, mark: bool) -> Kept
        ensures codes { codes_in result ≡ codes.items }
        ensures mark { mark_in result ≡ mark }
    {
        if let [a, b, c, d, e, f, g, h] = *codes.as_slice() {
            Kept::Word(mark, [a, b, c, d, e, f, g, h])
        } else {
            Kept::Words(mark, codes)
        }
    }

    /// The characters.
    fn codes(&self) -> &[u8]
        ensures { result.now ≡ codes_in self.now }
    {
        match self {
            Kept::Word(_, codes) => codes,
            Kept::Words(_, codes) => codes,
        }
    }

    /// The mark.
    fn mark(&self) -> bool
        ensures { result ≡ mark_in self.now }
    {
        match self {
            Kept::Word(mark, _) | Kept::Words(mark, _) => *mark,
        }
    }

    /// The same again.
    fn copy(&self, alloc: Global) -> Result<Kept, AllocError>
        ensures codes { IfOk result (λ k. codes_in k ≡ codes_in self.now) }
        ensures mark { IfOk result (λ k. mark_in k ≡ mark_in self.now) }
    {
        match self {
            Kept::Word(mark, codes) => Ok(Kept::Word(*mark, *codes)),
            Kept::Words(mark, codes) => Ok(Kept::Words(*mark, Vec::from_slice(alloc, codes)?)),
        }
    }
}

impl TapeBlock {
    /// The block of the words of these codes, which are below 64 and eight a word.
    pub fn new(codes: Vec<u8>, mark: bool) -> TapeBlock
        requires small { All (λ c. c < 64) codes.items }
        requires whole { length codes.items % 8 ≡ 0 }
        ensures { result ≡ record { words = words_of codes.items; mark = mark } }
    {
        TapeBlock {
            kept: Kept::new(codes, mark),
        }
    }

    /// How many words it has.
    #[tactic(auto, using(crate::proofs::Codes::block_len))]
    pub fn len(&self) -> usize
        ensures { result ≡ length self.now.words }
    {
        self.kept.codes().len() / 8
    }

    /// Word `i`.
    pub fn word(&self, i: usize) -> Word
        requires { i < length self.now.words }
        ensures { result ≡ slice_index self.now.words i }
    {
        word_at(self.kept.codes(), i)
    }

    /// The characters of its words, each below 64.
    #[tactic(auto, using(crate::proofs::Codes::block_codes))]
    pub fn codes(&self) -> &[u8]
        ensures value { result.now ≡ codes_of_all self.now.words }
        ensures words { words_of result.now ≡ self.now.words }
        ensures below { All (λ c. c < 64) result.now }
    {
        self.kept.codes()
    }

    /// Whether it has the last-block mark.
    pub fn mark(&self) -> bool
        ensures { result ≡ self.now.mark }
    {
        self.kept.mark()
    }

    /// Another block of the same words.
    pub(crate) fn copy(&self, alloc: Global) -> Result<TapeBlock, AllocError>
        ensures { IfOk result (λ b. b ≡ self.now) }
    {
        Ok(TapeBlock {
            kept: self.kept.copy(alloc)?,
        })
    }
}

/// Word `i` of those that codes of whole words make.
fn word_at(codes: &[u8], i: usize) -> Word
    requires whole { IsWhole codes.now }
    requires inside { i < length (words_of codes.now) }
    ensures { result ≡ slice_index (words_of codes.now) i }
{
    word_of_eight(codes, i)
}

/// Word `i` of codes that have all eight of it.
#[tactic(auto, using(crate::proofs::Codes::block_word))]
fn word_of_eight(codes: &[u8], i: usize) -> Word
    requires small { All (λ c. c < 64) codes.now }
    requires inside { 8 * i + 8 ≤ length codes.now }
    ensures { result ≡ slice_index (words_of codes.now) i }
{
    Word::of_codes(&codes[8 * i..])
}
