//! From the statements of a deck to its image.
ghost use Rattle.std.specs.Prelude.{◌≡◌, ◌≤◌, ◌<◌, ◌^◌, length, map, IfOk};
ghost use Rattle.kdf_usercode.specs.WellFormed.{AreInRange, IsWellFormed};
ghost use Rattle.kdf_place.specs.Layout.{front};
ghost use Rattle.kdf_place.specs.Names.{names, labels};
ghost use Rattle.kdf_place.specs.Placement.{Gives, label_of, picture_of, sized, placed};
ghost use Rattle.kdf_place.specs.Assembled.{assembled};
ghost use Rattle.kdf_place.specs.Tables.{meaning};

use crate::image::Image;
use crate::meanings::{Known, read_names};
use crate::picture::picture;
use kdf_usercode::{Deck, DeckError, DeckFault, read_thinned};
use std::alloc::Global;

/// The image of a deck without a fault in its names, where the store has room for it.
fn sized(alloc: Global, known: Known, deck: &Deck, size: u16) -> Result<Image, DeckError>
    requires few { length deck.now.statements.items < 2 ^ 40 }
    requires in_range { AreInRange deck.now.statements.items }
    requires names { meaning known.meanings ≡ names deck.now.statements.items }
    requires labels { known.labels.items
        ≡ map label_of (labels front deck.now.statements.items) }
    requires behind { known.meanings.behind < 2 ^ 60 }
    ensures answer { Gives result (sized (picture_of deck.now.statements.items) deck.now.length size) }
    ensures fits { IfOk result (λ image. length image.words.items ≤ size) }
{
    let Known {
        meanings,
        labels,
        ..
    } = known;
    if meanings.behind + meanings.y_words() > u64::from(size) {
        return Err(DeckError::Fault(DeckFault::TooLarge, deck.length));
    }
    Ok(picture(alloc, &meanings, labels, &deck.statements)?)
}

/// The image of a deck for a store of `size` words, or the deck's first late fault.
pub fn assemble(alloc: Global, deck: &Deck, size: u16) -> Result<Image, DeckError>
    requires size { size ≤ 8192 }
    requires deck { IsWellFormed deck.now }
    ensures answer { Gives result (placed deck.now.statements.items deck.now.length size) }
    ensures fits { IfOk result (λ image. length image.words.items ≤ size) }
{
    let known = read_names(alloc, &deck.statements)?;
    match known.meanings.first_wrong(known.twice, &deck.statements) {
        Some(found) => Err(DeckError::Fault(found.fault, found.place)),
        None => sized(alloc, known, deck, size),
    }
}

/// The image of a deck of this text, or the deck's first fault. It makes no list of the `*` that do nothing, and so takes less memory than
/// reading the deck and assembling it.
pub fn assemble_text(alloc: Global, text: &[u8], size: u16) -> Result<Image, DeckError>
    requires size { size ≤ 8192 }
    requires text { length text.now ≤ 268435456 }
    ensures answer { Gives result (assembled size text.now) }
    ensures fits { IfOk result (λ image. length image.words.items ≤ size) }
{
    match read_thinned(alloc, text) {
        Ok(deck) => assemble(alloc, &deck, size),
        Err(error) => Err(error),
    }
}
