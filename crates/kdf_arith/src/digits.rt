//! Numbers from and to characters, each of which has a radix of its own.
ghost use Rattle.std.specs.Prelude.{◌≡◌, ◌<◌, ◌^◌};
ghost use Rattle.kdf_arith.specs.Digits.{to_binary, from_binary, spelled};

use kdf_word::Word;

/// The number that the eight characters of a word make under the radices of another.
pub(crate) fn to_binary(radices: Word, word: Word) -> u64
    ensures value { result ≡ to_binary 8 radices word }
    ensures below { result < 2 ^ 48 }
{
    let mut number = 0;
    for i in 0..8 {
        number = number * u64::from(radices.character(i)) + u64::from(word.character(i));
    }
    number
}

/// A word as eight characters under the radices of another, and what is left of its number.
pub(crate) fn from_binary(radices: Word, number: Word) -> (Word, u64)
    ensures word { result.0 ≡ (from_binary 8 radices number).word }
    ensures rest { result.1 ≡ (from_binary 8 radices number).rest }
{
    let mut word = Word::default();
    let mut rest = number.bits();
    for k in 0..8 {
        (word, rest) = spell(7 - k, radices.character(7 - k), word, rest);
    }
    (word, rest)
}

/// Spells character `i` by its radix.
fn spell(i: u8, radix: u8, word: Word, rest: u64) -> (Word, u64)
    requires place { i < 8 }
    requires radix { radix < 64 }
    ensures word { result.0 ≡ (spelled i radix (record { word = word; rest = rest })).word }
    ensures rest { result.1 ≡ (spelled i radix (record { word = word; rest = rest })).rest }
{
    if radix == 0 {
        return (word, rest);
    }
    let radix = u64::from(radix);
    (word.with_character(i, (rest % radix) as u8), rest / radix)
}
