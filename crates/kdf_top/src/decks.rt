//! The decks of a job: their images, or the first deck that has a fault.

ghost use Rattle.std.specs.Prelude.{◌≡◌, ◌≤◌, All, None, OnOk, IfOk, IfErr, length, map};
ghost use Rattle.kdf_place.specs.Placement.{Gives};
ghost use Rattle.kdf_place.specs.Assembled.{assembled};
ghost use Rattle.kdf_job.specs.Shows.{shown_slot};
ghost use Rattle.kdf_top.specs.Deck.{deck_fault, IsDeck, Tells};
ghost use Rattle.kdf_top.specs.Loaded.{HasImages};

use kdf_job::SlotJob;
use kdf_place::{Image, assemble_text};
use kdf_usercode::{DeckError, DeckFault};
use std::alloc::{AllocFailed, Global};

/// Why a job has no images.
#[derive(Drop)]
pub enum DecksError {
    /// The first slot whose deck has a fault, its first fault, and the fault's place.
    Fault(u8, DeckFault, u32),
    /// There was no memory for the images.
    Memory,
}

impl<T: Drop> From<AllocFailed<T>> for DecksError {
    ghost use Rattle.kdf_top.specs.declared.decks.DecksError.TheVariants.{Memory};

    ghost from_gives = { λ _ e. e ≡ Memory };

    fn from(_error: AllocFailed<T>) -> DecksError {
        DecksError::Memory
    }
}

/// The image of the deck of a slot, which fits the slot's store, or the deck's first fault.
fn assemble_deck(alloc: Global, slot: &SlotJob) -> Result<Image, DeckError>
    requires { IsDeck slot.now }
    ensures answer { Gives result (assembled slot.now.size slot.now.deck.items) }
    ensures fits { IfOk result (λ image. length image.words.items ≤ slot.now.size) }
{
    assemble_text(alloc, &slot.deck, slot.size)
}

/// The images of the decks, in the order of the slots; or the first slot whose deck has a fault.
pub fn assemble_decks(alloc: Global, slots: &[SlotJob]) -> Result<Vec<Image>, DecksError>
    requires { All IsDeck slots.now }
    ensures ok { OnOk result (deck_fault (map shown_slot slots.now) ≡ None) }
    ensures fault { IfErr result (λ e. Tells e (deck_fault (map shown_slot slots.now))) }
    ensures images { IfOk result (λ images. HasImages (map shown_slot slots.now) images.items) }
{
    let mut images = Vec::new(alloc);
    for slot in slots {
        match assemble_deck(alloc, slot) {
            Ok(image) => images.push(image)?,
            Err(DeckError::Fault(fault, place)) => {
                return Err(DecksError::Fault(slot.p, fault, place));
            }
            Err(DeckError::Memory) => return Err(DecksError::Memory),
        }
    }
    Ok(images)
}
