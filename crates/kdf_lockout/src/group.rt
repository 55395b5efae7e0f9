//! A group of words.
ghost use Rattle.std.specs.Prelude.{◌≡◌, ℕ, ◌+◌, ◌*◌, ◌<◌, ◌≤◌, IfOk};
ghost use Rattle.std.specs.Prelude.{All, List, length, replicate, slice_index, slice_set, take};
ghost use Rattle.kdf_word.specs.Characters.{words_of};
ghost use Rattle.kdf_lockout.specs.Groups.{with_words};

use kdf_word::Word;
use std::alloc::{AllocError, Global};
use std::marker::Model;

/// A group of 32 words, which contracts see as their list. It is made with its store, and there is never a second one of it.
#[derive(Drop)]
pub struct Group {
    words: Box<[Word; 32]>,
}

impl Model for Group {
    ghost Value = { List ℕ };

    ghost view = { λ g. g.words.value };

    ghost invariant = { λ g. length g.words.value ≡ 32 };
}

impl Group {
    /// A group of zeros.
    pub(crate) fn zeros(alloc: Global) -> Result<Group, AllocError>
        ensures { IfOk result (λ g. g ≡ replicate 32 0) }
    {
        let words = Box::new(alloc, [Word::default(); 32])?;
        Ok(Group { words })
    }

    /// Word `i` of the group.
    pub fn word(&self, i: usize) -> Word
        requires { i < 32 }
        ensures value { result ≡ slice_index self.now i }
        ensures whole { length self.now ≡ 32 }
    {
        self.words[i]
    }

    /// Puts a word in the place of word `i`.
    pub(crate) fn set_word(&mut self, i: usize, word: Word)
        requires { i < 32 }
        ensures { self.new ≡ slice_set self.old i word }
    {
        self.words[i] = word;
    }

    /// Puts the first `count` words that these characters make in the place of the words from word `i` on.
    pub(crate) fn set_codes(&mut self, i: usize, codes: &[u8], count: usize)
        requires room { i + count ≤ 32 }
        requires small { All (λ c. c < 64) codes.now }
        requires given { 8 * count < length codes.now + 8 }
        ensures { self.new ≡ with_words self.old i (take count (words_of codes.now)) }
    {
        // Words of eight characters need no look at how many are left: the last one, which may have fewer, is apart.
        let whole = count.min(codes.len() / 8);
        for k in 0..whole {
            self.set_word(i + k, Word::of_codes(&codes[8 * k..8 * k + 8]));
        }
        if whole < count {
            self.set_word(i + whole, Word::of_codes(&codes[8 * whole..]));
        }
    }
}
