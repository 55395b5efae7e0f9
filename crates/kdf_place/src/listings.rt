//! The listing of a deck.
ghost use Rattle.std.specs.Prelude.{◌≡◌, [], ◌∷◌, map, IfOk, OnOk};
ghost use Rattle.kdf_text.specs.Text.{Adds};
ghost use Rattle.kdf_place.specs.Listing.{absent_listing, head_line, listing_lines, listing_text, place, reference_line, start_line, word_lines};
ghost use Rattle.kdf_place.specs.Placement.{shown_image};

use crate::image::{Image, Label};
use kdf_text::{write_end, write_word};
use kdf_word::Word;
use std::alloc::{AllocError, Global};
use std::fmt::Write;

/// The listing of the image of a slot: the place of its first order, each of its words, and its references in the order of the
/// deck.
pub fn listing(alloc: Global, image: &Image, slot: u8) -> Result<Vec<u8>, AllocError>
    ensures { IfOk result (λ bytes. bytes.items ≡ listing_text slot (shown_image image.now)) }
{
    let mut out = String::new(alloc);
    write_listing(&mut out, image, slot)?;
    Ok(out.into_bytes())
}

/// The listing of a slot that the job doesn't have: its first line, and the last line.
#[tactic(auto, unfolding(kdf_text::specs::Text::text))]
pub fn listing_absent(alloc: Global, slot: u8) -> Result<Vec<u8>, AllocError>
    ensures { IfOk result (λ bytes. bytes.items ≡ absent_listing slot) }
{
    let mut out = String::new(alloc);
    write_head(&mut out, slot)?;
    write_end(&mut out)?;
    Ok(out.into_bytes())
}

/// All lines of the listing of the image of a slot.
fn write_listing(out: &mut String, image: &Image, slot: u8) -> Result<(), AllocError>
    ensures { OnOk result (Adds out.old out.new (listing_lines slot (shown_image image.now))) }
{
    write_head(out, slot)?;
    write_start(out, image.start)?;
    write_words(out, &image.words)?;
    write_references(out, &image.labels)?;
    write_end(out)
}

/// The first line.
#[tactic(auto, unfolding(kdf_text::specs::Text::text))]
fn write_head(out: &mut String, slot: u8) -> Result<(), AllocError>
    ensures { OnOk result (Adds out.old out.new (head_line slot ∷ [])) }
{
    writeln!(out, "KDF9 LISTING {slot}")
}

/// The word and the syllable of the first order.
#[tactic(auto, unfolding(kdf_text::specs::Text::text))]
fn write_start(out: &mut String, start: u16) -> Result<(), AllocError>
    ensures { OnOk result (Adds out.old out.new (start_line start ∷ [])) }
{
    out.push_str("START ")?;
    end_with_place(out, start)
}

/// The word and the syllable of a syllable number, which end a line.
#[tactic(auto, unfolding(kdf_text::specs::Text::text))]
fn end_with_place(out: &mut String, at: u16) -> Result<(), AllocError>
    ensures { OnOk result (Adds out.old out.new (place at ∷ [])) }
{
    let word = at / 6;
    let syllable = at % 6;
    writeln!(out, "{word} {syllable}")
}

/// Each word after its address.
#[tactic(auto, unfolding(kdf_text::specs::Text::text))]
fn write_words(out: &mut String, words: &[Word]) -> Result<(), AllocError>
    ensures { OnOk result (Adds out.old out.new (word_lines words.now)) }
{
    for (address, word) in words.iter().enumerate() {
        write_word(out, address, word.bits())?;
    }
    Ok(())
}

/// Each reference, in their order.
#[tactic(auto, unfolding(kdf_text::specs::Text::text))]
fn write_references(out: &mut String, labels: &[Label]) -> Result<(), AllocError>
    ensures { OnOk result (Adds out.old out.new (map reference_line labels.now)) }
{
    for label in labels {
        write_reference(out, label)?;
    }
    Ok(())
}

/// The part and the number of a reference, and its place.
#[tactic(auto, unfolding(kdf_text::specs::Text::text))]
fn write_reference(out: &mut String, label: &Label) -> Result<(), AllocError>
    ensures { OnOk result (Adds out.old out.new (reference_line label.now ∷ [])) }
{
    let Label { part, number, at } = *label;
    write!(out, "REF {part} {number} ")?;
    end_with_place(out, at)
}
