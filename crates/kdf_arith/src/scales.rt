//! Values times and over powers of two.
ghost use Rattle.std.specs.Prelude.{◌≡◌, ◌<◌, ◌^◌, ◌-◌, pos, ◌+ℤ◌, ◌*ℤ◌, not, true};
ghost use Rattle.kdf_word.specs.Words.{signed, word_of, fits};
ghost use Rattle.kdf_word.specs.Doubles.{floor_div, modulo, double_fits, put};
ghost use Rattle.kdf_arith.specs.Shifts.{scaled, rounded};
ghost use Rattle.kdf_arith.specs.Signs.{is_sign, is_zero};

use crate::bits::to_the_left;
use kdf_word::{Double, Word};

/// A double value times 2^`n`, or over 2^-`n` rounded down, and whether that didn't fit.
pub(crate) fn scaled(value: Double, n: i16) -> (Double, bool)
    ensures value { result.0 ≡ put (scaled value n) }
    ensures overflow { result.1 ≡ not (double_fits (scaled value n)) }
{
    let places = n.unsigned_abs();
    if n < 0 {
        Double::put(over_power(value, places))
    } else {
        times_power(value, places)
    }
}

/// The value of a word times 2^`n`, or over 2^-`n` rounded to the nearest, as a word, and whether that didn't fit.
pub(crate) fn rounded(a: Word, n: i16) -> (Word, bool)
    ensures word { result.0 ≡ word_of (rounded (signed a) n) }
    ensures overflow { result.1 ≡ not (fits (rounded (signed a) n)) }
{
    let places = n.unsigned_abs();
    if n < 0 {
        Word::put(over_power_rounded(Double::stretch(a), places))
    } else {
        word_times_power(a, places)
    }
}

/// The value of a word times a power of two as a word, and whether that didn't fit.
#[tactic(auto, using(crate::proofs::WordLemmas::word_put, crate::proofs::WordLemmas::fits_put))]
fn word_times_power(a: Word, places: u16) -> (Word, bool)
    ensures word { result.0 ≡ word_of (signed a *ℤ pos (2 ^ places)) }
    ensures overflow { result.1 ≡ not (fits (signed a *ℤ pos (2 ^ places))) }
{
    let (value, is_beyond_double) = times_power(Double::stretch(a), places);
    let (word, is_beyond_word) = value.contract();
    (word, is_beyond_double || is_beyond_word)
}

/// A double value over a power of two, rounded down. More than 95 places leave what 95 do: 0 or -1.
fn over_power(value: Double, places: u16) -> i128
    ensures value { result ≡ floor_div value (2 ^ places) }
    ensures fits { double_fits result ≡ true }
{
    value.value() >> places.min(95)
}

/// A double value over a power of two, rounded to the nearest: half of what is lost is added before.
fn over_power_rounded(value: Double, places: u16) -> i128
    requires { 0 < places }
    ensures { result ≡ floor_div (value +ℤ pos (2 ^ (places - 1))) (2 ^ places) }
{
    (over_power(value, places - 1) + 1) >> 1
}

/// A double value times a power of two, and whether that didn't fit.
fn times_power(value: Double, places: u16) -> (Double, bool)
    ensures value { result.0 ≡ put (value *ℤ pos (2 ^ places)) }
    ensures overflow { result.1 ≡ not (double_fits (value *ℤ pos (2 ^ places))) }
{
    let kept = kept_times_power(value.value(), places);
    (kept, !does_fit_times_power(value, places))
}

/// Whether a double value times a power of two is one. Over the power that makes 2^94 with the other it must leave its sign alone.
fn does_fit_times_power(value: Double, places: u16) -> bool
    ensures { result ≡ double_fits (value *ℤ pos (2 ^ places)) }
{
    if places > 94 {
        is_zero(value.value())
    } else {
        is_sign(over_power(value, 94 - places))
    }
}

/// Whether a number is 0.
fn is_zero(value: i128) -> bool
    ensures { result ≡ is_zero value }
{
    (0..1).contains(&value)
}

/// Whether a number is 0 or -1.
fn is_sign(value: i128) -> bool
    ensures { result ≡ is_sign value }
{
    (-1..1).contains(&value)
}

/// What is put of a value times a power of two.
fn kept_times_power(value: i128, places: u16) -> Double
    ensures { result ≡ put (value *ℤ pos (2 ^ places)) }
{
    let bits = to_the_left(last_bits(value), places);
    put_bits(bits % (1 << 95))
}

/// The last 95 bits of a number in two's complement.
#[tactic(auto, using(crate::proofs::Remainders::last_of))]
fn last_bits(value: i128) -> u128
    ensures { result ≡ modulo value (2 ^ 95) }
{
    value.rem_euclid(1 << 95).unsigned_abs()
}

/// The double value of which these are the bits.
fn put_bits(bits: u128) -> Double
    requires { bits < 2 ^ 95 }
    ensures { result ≡ put (pos bits) }
{
    Double::put(bits as i128).0
}
