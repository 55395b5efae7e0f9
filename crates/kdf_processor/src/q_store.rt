//! What becomes of one Q-store, or is brought of it.
ghost use Rattle.std.specs.Prelude.{◌≡◌};
ghost use Rattle.std.specs.Int.{IsInRange};
ghost use Rattle.kdf_syllable.specs.Spelling.{IsQ};
ghost use Rattle.kdf_processor.specs.Table.{brought, from_top, changed, low, with_nest, with_q};

use crate::Registers;
use crate::syllable_number::syllable_after;
use kdf_qstore::{Part, Triple};
use kdf_word::Word;

/// The low 16 bits of a word.
pub fn low(word: Word) -> u16
    ensures { result ≡ low word }
{
    (word.bits() % (1 << 16)) as u16
}

/// The word that is brought of a Q-store.
#[tactic(auto, unfolding(crate::specs::Table::brought))]
pub fn brought(code: u8, triple: Triple) -> Word
    requires { IsInRange 0x50 0x53 code }
    ensures { result ≡ brought code triple }
{
    match code {
        0x50 => triple.word(),
        0x51 => Word::extend(triple.c),
        0x52 => Word::extend(triple.i),
        _ => Word::extend(triple.m),
    }
}

/// What a Q-store becomes of the word on top.
#[tactic(auto, unfolding(crate::specs::Table::from_top))]
pub fn from_top(code: u8, word: Word, triple: Triple) -> Triple
    requires { IsInRange 0x54 0x5E code }
    ensures { result ≡ from_top code word triple }
{
    match code {
        0x54 => Triple::of(word),
        0x55 => triple.with_part(Part::C, low(word)),
        0x56 => triple.with_part(Part::I, low(word)),
        0x57 => triple.with_part(Part::M, low(word)),
        0x58 => triple.add(Triple::of(word)),
        0x59 => triple.add_part(Part::C, low(word)),
        0x5a => triple.add_part(Part::I, low(word)),
        0x5b => triple.add_part(Part::M, low(word)),
        0x5c => Triple::reset(Part::C, low(word)),
        0x5d => Triple::reset(Part::I, low(word)),
        _ => Triple::reset(Part::M, low(word)),
    }
}

/// What a Q-store becomes of itself.
#[tactic(auto, unfolding(crate::specs::Table::changed))]
pub fn changed(code: u8, triple: Triple) -> Triple
    requires { IsInRange 0x5F 0x62 code }
    ensures { result ≡ changed code triple }
{
    match code {
        0x5f => triple.negated(),
        0x60 => triple.counted_down(),
        0x61 => triple.increased(),
        _ => triple.decreased(),
    }
}

/// Leaves these parts in Qq, after an order of two syllables.
pub fn leave(registers: &mut Registers, q: u8, triple: Triple)
    requires { IsQ q }
    ensures { registers.new ≡ with_nest 2 registers.old.nest (with_q q triple registers.old) }
{
    registers.q.keep(q, triple);
    registers.at = syllable_after(registers.at, 2);
}
