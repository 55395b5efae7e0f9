//! The five shifts. Each tells whether it sets V.
#![tactic(auto, unfolding(crate::specs::Shifts::shift_row))]

ghost use Rattle.kdf_arith.specs.Arith.{shift, IsShiftCode};
ghost use Rattle.kdf_arith.specs.Outcome.{Makes};

use crate::Nouv;
use crate::bits::{moved, turned};
use crate::operands::{take_one, take_two};
use crate::scales::{rounded, scaled};
use crate::values::push_double;
use kdf_nest::Nest;
use kdf_word::{Double, Word};

/// A shift by `n` places, a code from 6A to 6E.
#[tactic(auto)]
pub(crate) fn obey_shifts(nest: &mut Nest, code: u8, n: i16) -> Result<bool, Nouv>
    requires { IsShiftCode code }
    ensures { Makes (shift code n nest.old) nest.old nest.new result }
{
    match code {
        0x6a => sha(nest, n),
        0x6b => shl(nest, n),
        0x6c => shc(nest, n),
        0x6d => shad(nest, n),
        _ => shld(nest, n),
    }
}

/// SHA.
fn sha(nest: &mut Nest, n: i16) -> Result<bool, Nouv>
    ensures { Makes (shift 0x6A n nest.old) nest.old nest.new result }
{
    let a = take_one(nest)?;
    let (word, overflow) = rounded(a, n);
    nest.push(word);
    Ok(overflow)
}

/// SHL, which never sets V.
fn shl(nest: &mut Nest, n: i16) -> Result<bool, Nouv>
    ensures { Makes (shift 0x6B n nest.old) nest.old nest.new result }
{
    let a = take_one(nest)?;
    let bits = moved(u128::from(a.bits()), n);
    nest.push(Word::new((bits % WORDS) as u64));
    Ok(false)
}

/// SHC, which never sets V.
fn shc(nest: &mut Nest, n: i16) -> Result<bool, Nouv>
    ensures { Makes (shift 0x6C n nest.old) nest.old nest.new result }
{
    let a = take_one(nest)?;
    nest.push(turned(a, n));
    Ok(false)
}

/// SHAD.
fn shad(nest: &mut Nest, n: i16) -> Result<bool, Nouv>
    ensures { Makes (shift 0x6D n nest.old) nest.old nest.new result }
{
    let (a, b) = take_two(nest)?;
    let (value, overflow) = scaled(Double::of(a, b), n);
    push_double(nest, value);
    Ok(overflow)
}

/// SHLD, which never sets V.
fn shld(nest: &mut Nest, n: i16) -> Result<bool, Nouv>
    ensures { Makes (shift 0x6E n nest.old) nest.old nest.new result }
{
    let (a, b) = take_two(nest)?;
    let bits = moved(u128::from(a.bits()) * WORDS + u128::from(b.bits()), n);
    nest.push(Word::new((bits % WORDS) as u64));
    nest.push(Word::new((bits / WORDS) as u64));
    Ok(false)
}

/// How many words there are.
const WORDS: u128 = 1 << 48;
