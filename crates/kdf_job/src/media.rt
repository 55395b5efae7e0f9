//! Texts as characters, labels and blocks.
ghost use Rattle.std.specs.Prelude.{◌≡◌, ◌%◌, ◌<◌, All, IfOk, IfSome, length};
ghost use Rattle.std.specs.List.{list_all};
ghost use Rattle.std.specs.Option.{option_map};
ghost use Rattle.kdf_job.specs.Media.{codes_in, filled, is_label, is_label_byte, word_of_text};

use kdf_code::to_code;
use kdf_word::Word;
use std::alloc::{AllocError, Global};

/// The characters of a word.
const WORD_LENGTH: usize = 8;

/// The most characters of a label.
const LONGEST_LABEL: usize = 8;

/// The codes of a text's bytes, None where one has none.
pub fn codes_in(alloc: Global, text: &[u8]) -> Result<Option<Vec<u8>>, AllocError>
    ensures value { IfOk result (λ o. option_map (λ v. v.items) o ≡ codes_in text.now) }
    ensures small { IfOk result (λ o. IfSome o (λ v. All (λ c. c < 64) v.items)) }
    ensures many { IfOk result (λ o. IfSome o (λ v. length v.items ≡ length text.now)) }
{
    let mut codes = Vec::new(alloc);
    for byte in text {
        match to_code(*byte) {
            Some(code) => codes.push(code)?,
            None => return Ok(None),
        }
    }
    Ok(Some(codes))
}

/// The word of a text's characters, 0 where a byte has none.
pub fn word_of_text(alloc: Global, text: &[u8]) -> Result<Word, AllocError>
    ensures { IfOk result (λ w. w ≡ word_of_text text.now) }
{
    match codes_in(alloc, text)? {
        Some(codes) => Ok(Word::of_codes(&codes)),
        None => Ok(Word::default()),
    }
}

/// A text is a label: 1 to 8 letters A to Z and digits.
pub fn is_label(text: &[u8]) -> bool
    ensures { result ≡ is_label text.now }
{
    !text.is_empty() && text.len() <= LONGEST_LABEL && are_label_bytes(text)
}

/// Letters A to Z and digits.
fn are_label_bytes(text: &[u8]) -> bool
    ensures { result ≡ list_all is_label_byte text.now }
{
    text.iter().all(|byte| is_label_byte(*byte))
}

/// A letter A to Z, or a digit.
fn is_label_byte(byte: u8) -> bool
    ensures { result ≡ is_label_byte byte }
{
    (byte >= b'A' && byte <= b'Z') || (byte >= b'0' && byte <= b'9')
}

/// The characters of a block, filled up to whole words.
pub fn filled(mut codes: Vec<u8>) -> Result<Vec<u8>, AllocError>
    requires { All (λ c. c < 64) codes.items }
    ensures filled { IfOk result (λ v. v.items ≡ filled codes.items) }
    ensures small { IfOk result (λ v. All (λ c. c < 64) v.items) }
    ensures whole { IfOk result (λ v. length v.items % 8 ≡ 0) }
{
    let zeros = [0; WORD_LENGTH - 1];
    let missing = zeros.len() - (codes.len() + zeros.len()) % WORD_LENGTH;
    codes.extend_from_slice(&zeros[..missing])?;
    Ok(codes)
}
