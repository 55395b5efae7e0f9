//! Words that orders bring to the nest.
ghost use Rattle.kdf_processor.specs.Effect.{Comes};
ghost use Rattle.kdf_processor.specs.Table.{pushes, extended};

use crate::syllable_number::syllable_after;
use crate::{Failure, Registers};
use kdf_nest::DEPTH;
use kdf_word::Word;

/// Pushes a word after an order of `size` syllables, or fails where there is no room.
#[inline(always)]
pub fn push(registers: &mut Registers, size: u16, word: Word) -> Result<(), Failure>
    ensures { Comes (pushes registers.old size word) registers.old registers.new result }
{
    if registers.nest.depth() == DEPTH {
        return Err(Failure::Nouv);
    }
    registers.nest.push(word);
    registers.at = syllable_after(registers.at, size);
    Ok(())
}

/// Pushes a part of 16 bits, its sign extended.
#[inline(always)]
pub fn push_part(registers: &mut Registers, size: u16, part: u16) -> Result<(), Failure>
    ensures { Comes (pushes registers.old size (extended part)) registers.old registers.new result }
{
    push(registers, size, Word::extend(part))
}

/// SET.
#[inline(always)]
pub fn set(registers: &mut Registers, constant: u16) -> Result<(), Failure>
    ensures { Comes
        (pushes registers.old 3 (extended constant)) registers.old registers.new result }
{
    push_part(registers, 3, constant)
}
