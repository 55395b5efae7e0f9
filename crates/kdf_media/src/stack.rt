//! A stack of cards.
ghost use Rattle.std.specs.Prelude.{◌≡◌, ◌<◌, ◌≤◌, ◌∷◌, ◌++◌, [], All, length, slice_get, IfOk, IfSome, OnOk, OnErr};
ghost use Rattle.std.specs.Option.{option_map};
ghost use Rattle.kdf_media.specs.Media.{card_of};

use crate::packed_cards::PackedCards;
use std::alloc::{AllocError, Global};
use std::marker::Model;

/// The characters of a card.
pub const CARD_LENGTH: usize = 80;

/// A stack of cards, which contracts see as lists of 80 codes. It keeps cards of 80 characters whole, up to the first shorter one, and
/// from there on the characters of each card alone: so short cards take little memory, and a stack of full ones no more than their
/// characters.
#[derive(Drop)]
pub struct Stack {
    whole: Vec<[u8; CARD_LENGTH]>,
    packed: PackedCards,
}

impl Model for Stack {
    ghost use Rattle.std.specs.Prelude.{◌<◌, ◌++◌, List, ℕ, All};

    ghost Value = { List (List ℕ) };

    ghost view = { λ s. s.whole.items ++ s.packed };

    ghost invariant = { λ s. All (λ card. All (λ code. code < 64) card) s.whole.items };
}

impl Stack {
    /// No cards.
    pub fn new(alloc: Global) -> Stack
        ensures { result ≡ [] }
    {
        Stack::of_cards(Vec::new(alloc))
    }

    /// A stack of these cards, of codes below 64. It takes no memory.
    pub(crate) fn of_cards(cards: Vec<[u8; CARD_LENGTH]>) -> Stack
        requires { All (λ card. All (λ code. code < 64) card) cards.items }
        ensures { result ≡ cards.items }
    {
        let packed = PackedCards::new(*cards.allocator());
        Stack {
            whole: cards,
            packed,
        }
    }

    /// How many cards there are.
    pub fn len(&self) -> usize
        ensures { result ≡ length self.now }
    {
        self.whole.len() + self.packed.len()
    }

    /// Adds a card of these characters, at most 80 and each below 64, with spaces after them. Without memory, or with 2^32 characters,
    /// the stack stays as it was.
    pub fn push(&mut self, codes: &[u8]) -> Result<(), AllocError>
        requires short { length codes.now ≤ 80 }
        requires small { All (λ c. c < 64) codes.now }
        ensures ok { OnOk result (self.new ≡ self.old ++ card_of codes.now ∷ []) }
        ensures err { OnErr result (self.new ≡ self.old) }
    {
        if codes.len() == CARD_LENGTH && self.packed.len() == 0 {
            self.whole.push(whole_card(codes))?;
            Ok(())
        } else {
            self.packed.push(codes)
        }
    }

    /// The same cards once more.
    pub fn copy(&self, alloc: Global) -> Result<Stack, AllocError>
        ensures { IfOk result (λ s. s ≡ self.now) }
    {
        let whole = Vec::from_slice(alloc, &self.whole)?;
        let packed = self.packed.copy(alloc)?;
        Ok(Stack { whole, packed })
    }

    /// Characters that make the card at a place, with spaces after them; None where there is no card.
    pub(crate) fn card(&self, place: usize) -> Option<&[u8]>
        ensures card { option_map (λ codes. card_of codes.now) result ≡ slice_get self.now place }
        ensures short { IfSome result (λ codes. length codes.now ≤ 80) }
        ensures small { IfSome result (λ codes. All (λ c. c < 64) codes.now) }
    {
        match self.whole.get(place) {
            Some(card) => Some(&card[..]),
            None => self.packed.card(place - self.whole.len()),
        }
    }
}

/// A card of 80 characters.
fn whole_card(codes: &[u8]) -> [u8; CARD_LENGTH]
    requires { length codes.now ≡ 80 }
    ensures { result ≡ codes.now }
{
    let mut card = [0; CARD_LENGTH];
    card.copy_from_slice(codes);
    card
}
