//! The three parts of one Q-store.
ghost use Rattle.std.specs.Prelude.{◌≡◌};
ghost use Rattle.kdf_qstore.specs.Triples.{zero_triple, triple_of, word_of_triple, part_of, with_part, sum_of, with_sum, reset, negated, increased, decreased, counted_down, stepped};

use crate::Part;
use kdf_word::Word;

/// The parts of one Q-store.
#[derive(Clone, Copy, PartialEq, Eq)]
pub struct Triple {
    /// The counter.
    pub c: u16,
    /// The increment.
    pub i: u16,
    /// The modifier.
    pub m: u16,
}

impl Triple {
    /// The triple in a word.
    pub fn of(word: Word) -> Triple
        ensures { result ≡ triple_of word }
    {
        let bits = word.bits();
        Triple {
            c: (bits >> 32) as u16,
            i: (bits >> 16 & 0xffff) as u16,
            m: (bits & 0xffff) as u16,
        }
    }

    /// The word in which it stands.
    pub fn word(self) -> Word
        ensures { result ≡ word_of_triple self }
    {
        Word::new((u64::from(self.c) << 32) + (u64::from(self.i) << 16) + u64::from(self.m))
    }

    /// One of its parts.
    pub fn part(self, part: Part) -> u16
        ensures { result ≡ part_of part self }
    {
        match part {
            Part::C => self.c,
            Part::I => self.i,
            Part::M => self.m,
        }
    }

    /// The triple with one part changed.
    pub fn with_part(self, part: Part, value: u16) -> Triple
        ensures { result ≡ with_part part value self }
    {
        match part {
            Part::C => Triple { c: value, ..self },
            Part::I => Triple { i: value, ..self },
            Part::M => Triple { m: value, ..self },
        }
    }

    /// The sums of its parts and those of another, each modulo 2^16.
    pub fn add(self, other: Triple) -> Triple
        ensures { result ≡ sum_of self other }
    {
        Triple {
            c: self.c.wrapping_add(other.c),
            i: self.i.wrapping_add(other.i),
            m: self.m.wrapping_add(other.m),
        }
    }

    /// The triple with a number added to one part, modulo 2^16.
    pub fn add_part(self, part: Part, value: u16) -> Triple
        ensures { result ≡ with_sum part value self }
    {
        self.with_part(part, self.part(part).wrapping_add(value))
    }

    /// The triple of this part beside a C of 0, an I of 1 and an M of 0.
    pub fn reset(part: Part, value: u16) -> Triple
        ensures { result ≡ reset part value }
    {
        Triple { c: 0, i: 1, m: 0 }.with_part(part, value)
    }

    /// The triple with the sign of C changed, modulo 2^16.
    pub fn negated(self) -> Triple
        ensures { result ≡ negated self }
    {
        Triple {
            c: self.c.wrapping_neg(),
            ..self
        }
    }

    /// The triple with I added to M, modulo 2^16.
    pub fn increased(self) -> Triple
        ensures { result ≡ increased self }
    {
        Triple {
            m: self.m.wrapping_add(self.i),
            ..self
        }
    }

    /// The triple with I taken from M, modulo 2^16.
    pub fn decreased(self) -> Triple
        ensures { result ≡ decreased self }
    {
        Triple {
            m: self.m.wrapping_sub(self.i),
            ..self
        }
    }

    /// The triple with 1 taken from C, modulo 2^16.
    pub fn counted_down(self) -> Triple
        ensures { result ≡ counted_down self }
    {
        Triple {
            c: self.c.wrapping_sub(1),
            ..self
        }
    }

    /// The triple with I added to M and 1 taken from C, each modulo 2^16.
    pub fn stepped(self) -> Triple
        ensures { result ≡ stepped self }
    {
        self.increased().counted_down()
    }
}

impl Default for Triple {
    /// The triple of which all parts are zero.
    fn default() -> Triple
        ensures { result ≡ zero_triple }
    {
        Triple { c: 0, i: 0, m: 0 }
    }
}
