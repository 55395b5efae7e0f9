//! Six syllables in a word.
ghost use Rattle.std.specs.Prelude.{◌≡◌, ◌<◌};
ghost use Rattle.kdf_syllable.specs.Packing.{packed, syllable};

use kdf_word::Word;

/// The word of six syllables, the first of them in its highest bits.
pub fn pack(bytes: &[u8; 6]) -> Word
    ensures { result ≡ packed bytes.now }
{
    let [a, b, c, d, e, f] = *bytes;
    Word::new(u64::from_be_bytes([0, 0, a, b, c, d, e, f]))
}

/// Syllable `i` of a word, from 0 to 5. Syllable 0 is in the word's highest bits.
#[tactic(auto, using(std::proofs::lemmas::Grind::common_steps, crate::proofs::Digits::pow_bytes))]
pub fn syllable(word: Word, i: u8) -> u8
    requires { i < 6 }
    ensures { result ≡ syllable word i }
{
    (word.bits() >> (8 * (5 - i)) & 0xff) as u8
}
