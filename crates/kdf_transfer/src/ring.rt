//! The ring between a device and the store.
ghost use Rattle.std.specs.Prelude.{◌≡◌, ◌==◌, ◌<◌, ◌++◌, ◌∷◌, ℕ, [], List, length, IfOk};
ghost use Rattle.std.specs.Option.{option_to_list};

use circular_buffer::HeapCircularBuffer;
use kdf_word::Word;
use std::alloc::{AllocError, Global};
use std::marker::Model;

/// The words on the way between a device and the store, at most eight, which contracts see as their list.
#[derive(Drop)]
pub struct Ring {
    words: HeapCircularBuffer<Word>,
}

impl Model for Ring {
    ghost Value = { List ℕ };

    ghost view = { λ r. r.words.items };

    ghost invariant = { λ r. r.words.capacity ≡ 8 };
}

impl Ring {
    /// An empty ring.
    pub fn new(alloc: Global) -> Result<Ring, AllocError>
        ensures { IfOk result (λ r. r ≡ []) }
    {
        let words = HeapCircularBuffer::with_capacity(alloc, 8)?;
        Ok(Ring { words })
    }

    /// How many words it holds.
    pub fn len(&self) -> usize
        ensures { result ≡ length self.now }
    {
        self.words.len()
    }

    /// Takes the first word.
    pub(crate) fn pop(&mut self) -> Word
        requires { 0 < length self.old }
        ensures { self.old ≡ result ∷ self.new }
    {
        match self.words.pop_front() {
            Some(word) => word,
            None => unreachable!(),
        }
    }

    /// Adds a word after the others.
    pub(crate) fn push(&mut self, word: Word)
        requires { length self.old < 8 }
        ensures { self.new ≡ self.old ++ word ∷ [] }
    {
        self.words.push_back(word);
    }

    /// Adds the word after the others, if there is one.
    pub(crate) fn refill(&mut self, word: Option<Word>)
        requires { length self.old < 8 }
        ensures { self.new ≡ self.old ++ option_to_list word }
    {
        if let Some(word) = word {
            self.push(word);
        }
    }

    /// Empties it.
    pub(crate) fn clear(&mut self)
        ensures { self.new ≡ [] }
    {
        self.words.clear();
    }

    /// Whether it holds none.
    pub fn is_empty(&self) -> bool
        ensures { result ≡ (length self.now == 0) }
    {
        self.words.is_empty()
    }
}
