//! Characters of a constant: what stands after a `P`.

ghost use Rattle.std.specs.Prelude.{◌≡◌, ◌<◌, ◌≤◌, ◌^◌};
ghost use Rattle.std.specs.List.{list_all};
ghost use Rattle.kdf_usercode.specs.Characters.{is_character, are_characters, code_at, half, characters_word};

use kdf_code::to_code;
use kdf_word::Word;

/// Whether a byte may stand in a constant of characters: it has a code and isn't a space, a `;` or a bracket.
fn is_character(byte: u8) -> bool
    ensures { result ≡ is_character byte }
{
    to_code(byte).is_some() && !matches!(byte, b' ' | b';' | b'(' | b')')
}

/// Whether these are characters, at least one.
pub fn are_characters(text: &[u8]) -> bool
    ensures { result ≡ are_characters text.now }
{
    for byte in text {
        if !is_character(*byte) {
            return false;
        }
    }
    !text.is_empty()
}

/// The code of the character at an index, or 0 after the last.
fn code_at(text: &[u8], i: usize) -> u32
    ensures value { result ≡ code_at text.now i }
    ensures below { result < 64 }
{
    let byte = text.get(i).copied().unwrap_or(b' ');
    u32::from(to_code(byte).unwrap_or(0))
}

/// Half a word: the four characters from an index on.
fn half(text: &[u8], i: usize) -> u32
    requires { i ≤ 4 }
    ensures value { result ≡ half text.now i }
    ensures below { result < 2 ^ 24 }
{
    let two = 64 * code_at(text, i) + code_at(text, i + 1);
    64 * (64 * two + code_at(text, i + 2)) + code_at(text, i + 3)
}

/// The word of at most eight characters, filled with code 00.
#[tactic(auto, unfolding(crate::specs::Characters::characters_word))]
pub fn characters_word(text: &[u8]) -> Word
    ensures { result ≡ characters_word text.now }
{
    let front = u64::from(half(text, 0));
    Word::new((front << 24) + u64::from(half(text, 4)))
}
