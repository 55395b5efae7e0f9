//! Words and halves of words on their way between the store and the nest.
ghost use Rattle.std.specs.Prelude.{◌≡◌, ◌<◌, ◌∷◌, false, length};
ghost use Rattle.kdf_syllable.specs.Spelling.{IsQ};
ghost use Rattle.kdf_processor.specs.Needs.{group_of};
ghost use Rattle.kdf_processor.specs.Plan.{IsAccess, IsHalf, below_top, top};
ghost use Rattle.kdf_processor.specs.Table.{with_nest, part_of, with_part, counts_on};

use crate::plan::Access;
use crate::syllable_number::syllable_after;
use crate::{Port, Registers};
use kdf_word::Word;

/// What is fetched of a word: all of it, or a half.
#[inline(always)]
fn part(word: Word, half: Option<u8>) -> Word
    requires { IsHalf half }
    ensures { result ≡ part_of half word }
{
    match half {
        Some(i) => word.half(i),
        None => word,
    }
}

/// What is kept at an address: the word, or its first half in a half of the word that is there.
#[inline(always)]
pub fn merged<P: Port>(port: &P, access: Access, word: Word) -> Word
    requires access { IsAccess (P.shows port.now).claims access }
    requires free { (P.shows port.now).is_out (group_of access.address) ≡ false }
    ensures { result ≡ with_part access.half word ((P.shows port.now).word access.address) }
{
    match access.half {
        Some(i) => match port.read(access.address) {
            Ok(old) => old.with_half(i, word),
            Err(_) => unreachable!(),
        },
        None => word,
    }
}

/// What is kept in place of a word: another, or its first half in a half of that which is there.
#[inline(always)]
pub fn kept_in(there: Word, half: Option<u8>, word: Word) -> Word
    requires { IsHalf half }
    ensures { result ≡ with_part half word there }
{
    match half {
        Some(i) => there.with_half(i, word),
        None => word,
    }
}

/// Counts Qq on, where the order has the suffix Q.
#[inline(always)]
fn count_on(registers: &mut Registers, u: bool, q: u8)
    requires { IsQ q }
    ensures { registers.new ≡ counts_on u q registers.old }
{
    if u {
        registers.q.step(q);
    }
}

/// Pushes what was fetched.
#[inline(always)]
pub fn push_fetched(registers: &mut Registers, access: Access, word: Word)
    requires room { length registers.old.nest < 16 }
    requires half { IsHalf access.half }
    requires q { IsQ access.q }
    ensures { registers.new
        ≡ with_nest access.size (part_of access.half word ∷ registers.old.nest)
        (counts_on access.u access.q registers.old) }
{
    count_on(registers, access.u, access.q);
    registers.nest.push(part(word, access.half));
    registers.at = syllable_after(registers.at, access.size);
}

/// Takes the word that is to be kept.
#[inline(always)]
pub fn pop_kept(registers: &mut Registers, access: Access) -> Word
    requires there { 0 < length registers.old.nest }
    requires q { IsQ access.q }
    ensures top { result ≡ top registers.old.nest }
    ensures registers { registers.new
        ≡ with_nest access.size (below_top registers.old.nest)
        (counts_on access.u access.q registers.old) }
{
    let word = registers.nest.pop();
    count_on(registers, access.u, access.q);
    registers.at = syllable_after(registers.at, access.size);
    word
}
