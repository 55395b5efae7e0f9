//! The image of a deck, once its names have their meanings.
ghost use Rattle.std.specs.Prelude.{◌≡◌, ◌<◌, ◌^◌, length, map, IfOk};
ghost use Rattle.kdf_usercode.specs.WellFormed.{AreInRange};
ghost use Rattle.kdf_place.specs.Placement.{label_of, start_of, words};
ghost use Rattle.kdf_place.specs.Tables.{meaning};

use crate::constants::put_constants;
use crate::image::{Image, Label};
use crate::names::{Entry, Mark, Meanings};
use crate::spell::{start_of, syllable_number, syllables};
use crate::words::{push_zeros, words_of};
use kdf_usercode::Statement;
use kdf_word::Word;
use std::alloc::{AllocError, Global};

/// The words of an image.
fn words(
    alloc: Global,
    meanings: &Meanings,
    statements: &[Statement],
) -> Result<Vec<Word>, AllocError>
    requires few { length statements.now < 2 ^ 40 }
    requires in_range { AreInRange statements.now }
    ensures { IfOk result (λ v. v.items ≡ words (meaning meanings.now) statements.now) }
{
    let syllables = syllables(alloc, meanings, statements)?;
    let mut words = words_of(alloc, &syllables)?;
    push_zeros(&mut words, meanings.y_words())?;
    put_constants(&mut words, meanings, statements);
    Ok(words)
}

/// The references of an image.
pub fn labels_of(alloc: Global, entries: &[Entry<Mark>]) -> Result<Vec<Label>, AllocError>
    ensures { IfOk result (λ v. v.items ≡ map label_of entries.now) }
{
    let mut labels = Vec::with_capacity(alloc, entries.len())?;
    for entry in entries {
        labels.push(Label {
            part: entry.means.part,
            number: entry.number,
            at: syllable_number(entry.means.at),
        })?;
    }
    Ok(labels)
}

/// The image of a deck, once its names have their meanings.
pub fn picture(
    alloc: Global,
    meanings: &Meanings,
    labels: Vec<Label>,
    statements: &[Statement],
) -> Result<Image, AllocError>
    requires few { length statements.now < 2 ^ 40 }
    requires in_range { AreInRange statements.now }
    ensures words { IfOk result (λ image.
        image.words.items ≡ words (meaning meanings.now) statements.now) }
    ensures start { IfOk result (λ image. image.start ≡ start_of (meaning meanings.now)) }
    ensures labels { IfOk result (λ image. image.labels.items ≡ labels.items) }
{
    Ok(Image {
        words: words(alloc, meanings, statements)?,
        start: start_of(meanings),
        labels,
    })
}
