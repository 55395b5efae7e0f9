//! From syllables to words.
ghost use Rattle.std.specs.Prelude.{◌≡◌, ◌++◌, replicate, IfOk, OnOk};
ghost use Rattle.kdf_place.specs.Placement.{words_of};

use kdf_syllable::pack;
use kdf_word::Word;
use std::alloc::{AllocError, Global};

/// The words of syllables, six to a word. Fewer than six that are left at the end make no word.
pub fn words_of(alloc: Global, syllables: &[u8]) -> Result<Vec<Word>, AllocError>
    ensures { IfOk result (λ v. v.items ≡ words_of syllables.now) }
{
    let mut words = Vec::new(alloc);
    for chunk in syllables.chunks(6) {
        if let [a, b, c, d, e, f] = *chunk {
            words.push(pack(&[a, b, c, d, e, f]))?;
        }
    }
    Ok(words)
}

/// Puts so many words that are zero after the others.
pub fn push_zeros(words: &mut Vec<Word>, count: u64) -> Result<(), AllocError>
    ensures { OnOk result (words.new.items ≡ words.old.items ++ replicate count 0) }
{
    for _zero in 0..count {
        words.push(Word::default())?;
    }
    Ok(())
}
