//! The sixteen Q-stores of a program.
ghost use Rattle.std.specs.Prelude.{◌≡◌, ◌<◌};
ghost use Rattle.kdf_qstore.specs.Triples.{zero_triples, triple_at, with_triple, triple_of, word_of_triple};
ghost use Rattle.kdf_qstore.specs.Triples.{part_of, with_part, counted_down, stepped};

use crate::Part;
use crate::triple::Triple;
use kdf_word::Word;
use std::marker::Model;

/// Sixteen Q-stores, which contracts see as a list of triples. Q0 reads as zero, and a write to it is lost.
#[derive(Drop)]
pub struct QStores {
    triples: [Triple; 16],
}

impl Model for QStores {
    ghost use Rattle.std.specs.Prelude.{List};
    ghost use Rattle.kdf_qstore.specs.Triples.{Triple};

    ghost Value = { List Triple };

    ghost view = { λ s. s.triples };
}

impl QStores {
    /// Sixteen Q-stores, all parts zero.
    pub fn new() -> Self
        ensures { result ≡ zero_triples }
    {
        QStores {
            triples: [Triple::default(); 16],
        }
    }

    /// Qq as a word: C in D0 to D15, I in D16 to D31, M in D32 to D47.
    pub fn get(&self, q: u8) -> Word
        requires { q < 16 }
        ensures { result ≡ word_of_triple (triple_at self.now q) }
    {
        self.triple(q).word()
    }

    /// Sets all parts of Qq from a word.
    pub fn set(&mut self, q: u8, word: Word)
        requires { q < 16 }
        ensures { self.new ≡ with_triple self.old q (triple_of word) }
    {
        self.keep(q, Triple::of(word));
    }

    /// One part of Qq.
    pub fn part(&self, q: u8, part: Part) -> u16
        requires { q < 16 }
        ensures { result ≡ part_of part (triple_at self.now q) }
    {
        self.triple(q).part(part)
    }

    /// Sets one part of Qq, and leaves the others.
    pub fn set_part(&mut self, q: u8, part: Part, value: u16)
        requires { q < 16 }
        ensures { self.new ≡ with_triple self.old q (with_part part value (triple_at self.old q)) }
    {
        self.keep(q, self.triple(q).with_part(part, value));
    }

    /// Adds I of Qq to its M and takes 1 from its C, each modulo 2^16.
    pub fn step(&mut self, q: u8)
        requires { q < 16 }
        ensures { self.new ≡ with_triple self.old q (stepped (triple_at self.old q)) }
    {
        self.keep(q, self.triple(q).stepped());
    }

    /// Takes 1 from C of Qq, modulo 2^16.
    pub fn count_down(&mut self, q: u8)
        requires { q < 16 }
        ensures { self.new ≡ with_triple self.old q (counted_down (triple_at self.old q)) }
    {
        self.keep(q, self.triple(q).counted_down());
    }

    /// The parts of Qq.
    pub fn triple(&self, q: u8) -> Triple
        requires { q < 16 }
        ensures { result ≡ triple_at self.now q }
    {
        if q == 0 {
            Triple::default()
        } else {
            self.triples[usize::from(q)]
        }
    }

    /// Sets the parts of Qq, unless it is Q0.
    pub fn keep(&mut self, q: u8, triple: Triple)
        requires { q < 16 }
        ensures { self.new ≡ with_triple self.old q triple }
    {
        if q != 0 {
            self.triples[usize::from(q)] = triple;
        }
    }
}
