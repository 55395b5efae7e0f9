//! Bits that are shifted as a number without a sign.
ghost use Rattle.std.specs.Prelude.{◌≡◌, ◌*◌, ◌/◌, ◌%◌, ◌<◌, ◌^◌};
ghost use Rattle.kdf_word.specs.Doubles.{modulo};
ghost use Rattle.kdf_arith.specs.Shifts.{moved, turned};

use kdf_word::Word;

/// 96 bits, moved by `n` places to the left, or by -`n` to the right. Those that leave them are lost.
pub(crate) fn moved(bits: u128, n: i16) -> u128
    requires { bits < 2 ^ 96 }
    ensures { result ≡ moved bits n % 2 ^ 96 }
{
    let places = n.unsigned_abs();
    if n < 0 {
        to_the_right(bits, places)
    } else {
        to_the_left(bits, places)
    }
}

/// 96 bits moved to the left. More than 96 places make as much of them as 96.
pub(crate) fn to_the_left(bits: u128, places: u16) -> u128
    requires { bits < 2 ^ 96 }
    ensures { result ≡ bits * 2 ^ places % 2 ^ 96 }
{
    (bits << places.min(96)) % (1 << 96)
}

/// 96 bits moved to the right. More than 96 places make as much of them as 96.
fn to_the_right(bits: u128, places: u16) -> u128
    requires { bits < 2 ^ 96 }
    ensures { result ≡ bits / 2 ^ places }
{
    bits >> places.min(96)
}

/// A word turned by `n` places to the left, or by -`n` to the right.
pub(crate) fn turned(a: Word, n: i16) -> Word
    ensures { result ≡ turned (modulo n 48) a }
{
    Word::new(turned_by(a.bits(), n.rem_euclid(48).unsigned_abs()))
}

/// A word turned to the left by fewer than 48 places.
fn turned_by(bits: u64, places: u16) -> u64
    requires bits { bits < 2 ^ 48 }
    requires places { places < 48 }
    ensures value { result ≡ turned places bits }
    ensures below { result < 2 ^ 48 }
{
    let behind = 48 - places;
    ((bits % (1 << behind)) << places) + (bits >> behind)
}
