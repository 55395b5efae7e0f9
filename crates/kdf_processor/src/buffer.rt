//! The word that syllables are fetched from, kept while they are of one word.
ghost use Rattle.std.specs.Prelude.{◌≡◌, ◌≢◌, ◌+◌, ◌*◌, ◌<◌, ◌≤◌, false, IfSome};
ghost use Rattle.kdf_processor.specs.Buffered.{Agrees, Has, IsHeld, IsWritten};
ghost use Rattle.kdf_processor.specs.Effect.{Writes};
ghost use Rattle.kdf_processor.specs.Needs.{group_of};
ghost use Rattle.kdf_processor.specs.View.{View};

use crate::fetch::SYLLABLES;
use crate::{Port, Reserve};
use kdf_word::Word;

/// A word of the store, by the number of its first syllable, or no word: then that is a number that no syllable has.
#[derive(Clone, Copy)]
pub struct Buffer {
    pub first: u32,
    pub word: Word,
}

/// The first syllable of no word.
const NOWHERE: u32 = 65_536;

/// No word.
#[inline(always)]
pub fn no_word() -> Buffer
    ensures nowhere { result.first ≡ 65536 }
    ensures agrees { (v : View) → Agrees v result }
{
    Buffer {
        first: NOWHERE,
        word: Word::default(),
    }
}

/// The word of a syllable, unless it is outside the store or its group is out.
#[inline(always)]
fn read_word<P: Port>(port: &P, at: u16) -> Option<Buffer>
    ensures { IfSome result (λ b. IsHeld (P.shows port.now) b × Has b at) }
{
    let address = at / 6;
    if at >= SYLLABLES || address >= port.size() {
        return None;
    }
    match port.read(address) {
        Ok(word) => Some(Buffer {
            first: 6 * u32::from(address),
            word,
        }),
        Err(_) => None,
    }
}

/// Brings the word of a syllable to hand, unless it is there. Answers which of its six syllables that is, or None where it is outside the
/// store or its group is out.
#[inline(always)]
pub fn bring<P: Port>(port: &P, held: &mut Buffer, at: u16) -> Option<u32>
    requires { Agrees (P.shows port.now) held.old }
    ensures agrees { Agrees (P.shows port.now) held.new }
    ensures its { IfSome result (λ place. IsHeld (P.shows port.now) held.new × (at ≡ held.new.first + place) × place < 6) }
{
    let place = u32::from(at).wrapping_sub(held.first);
    if place < 6 {
        return Some(place);
    }
    let word = read_word(port, at)?;
    *held = word;
    Some(u32::from(at) - held.first)
}

/// Lets go of the word at hand, if it is the one at this address.
#[inline(always)]
fn forget(held: &mut Buffer, address: u16)
    requires { held.old.first ≤ 65536 }
    ensures low { held.new.first ≤ 65536 }
    ensures other { held.new.first < 65536 → (held.new ≡ held.old) × (held.new.first ≢ 6 * address) }
{
    if held.first == 6 * u32::from(address) {
        *held = no_word();
    }
}

/// Writes a word whose group isn't out. If it is the one at hand, that is let go.
#[inline(always)]
pub fn write_word<P: Reserve>(port: &mut P, held: &mut Buffer, address: u16, word: Word)
    requires inside { address < (P.shows port.old).claims.size }
    requires free { (P.shows port.old).is_out (group_of address) ≡ false }
    requires room { P.room port.old (Writes address word) }
    requires agrees { Agrees (P.shows port.old) held.old }
    ensures acted { P.acts port.old (Writes address word) port.new }
    ensures agrees { Agrees (P.shows port.new) held.new }
{
    match port.write(address, word) {
        Ok(()) => forget(held, address),
        Err(_) => unreachable!(),
    }
}
