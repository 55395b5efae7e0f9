//! The nesting store.
ghost use Rattle.std.specs.Prelude.{◌≡◌, ◌<◌, ◌≤◌, [], ◌∷◌, length, slice_index};

use crate::DEPTH;
use arrayvec::ArrayVec;
use kdf_word::Word;
use std::marker::Model;

/// The nesting store: at most sixteen words, the top first. The top stands last in `words`.
#[derive(Drop)]
pub struct Nest {
    words: ArrayVec<Word, DEPTH>,
}

impl Model for Nest {
    ghost use Rattle.std.specs.Prelude.{◌≤◌, List, ℕ, length, reverse};

    ghost Value = { List ℕ };

    ghost view = { λ n. reverse n.words.items };

    ghost invariant = { λ n. length n.words.items ≤ 16 };
}

impl Nest {
    /// The empty nest.
    pub fn new() -> Self
        ensures { result ≡ [] }
    {
        Nest {
            words: ArrayVec::new(),
        }
    }

    /// How many words it has, from 0 to 16.
    pub fn depth(&self) -> usize
        ensures value { result ≡ length self.now }
        ensures most { length self.now ≤ 16 }
    {
        self.words.len()
    }

    /// Puts a word on top of fewer than sixteen.
    pub fn push(&mut self, item: Word)
        requires { length self.old < 16 }
        ensures { self.new ≡ item ∷ self.old }
    {
        self.words.push(item);
    }

    /// Takes the top off.
    pub fn pop(&mut self) -> Word
        requires { 0 < length self.old }
        ensures item { self.old ≡ result ∷ self.new }
        ensures most { length self.new < 16 }
    {
        let depth = self.words.len() - 1;
        let item = self.words.as_slice()[depth];
        self.words.truncate(depth);
        item
    }

    /// Takes the first two off, the top first.
    pub fn pop_two(&mut self) -> (Word, Word)
        requires { 1 < length self.old }
        ensures items { self.old ≡ result.0 ∷ result.1 ∷ self.new }
        ensures most { length self.new ≤ 14 }
    {
        let depth = self.words.len() - 2;
        let words = self.words.as_slice();
        let items = (words[depth + 1], words[depth]);
        self.words.truncate(depth);
        items
    }

    /// Item `i` from the top, which is item 0.
    pub fn peek(&self, i: usize) -> Word
        requires { i < length self.now }
        ensures { result ≡ slice_index self.now i }
    {
        let words = self.words.as_slice();
        words[words.len() - 1 - i]
    }
}
