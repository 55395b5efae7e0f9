//! A card reader.
ghost use Rattle.std.specs.Prelude.{◌≡◌, ◌^◌, ◌<◌, ◌≤◌, All, false, length, take, slice_get, IfOk};
ghost use Rattle.kdf_word.specs.Characters.{words_of};
ghost use Rattle.kdf_media.specs.Media.{after_card, card_of, card_words};

use crate::Stack;
use kdf_word::Word;
use std::alloc::{AllocError, Global};
use std::marker::Model;

/// The words of a card.
const CARD_WORDS: u16 = 10;

/// A card reader with its cards, fewer than 2^32, each of 80 codes below 64.
#[derive(Drop)]
pub struct Cards {
    stack: Stack,
    place: usize,
    flag: bool,
}

impl Model for Cards {
    ghost use Rattle.std.specs.Prelude.{◌^◌, ◌<◌, ◌≤◌, length};
    ghost use Rattle.kdf_media.specs.Media.{CardsState};

    ghost Value = { CardsState };

    ghost view = { λ c. record { cards = c.stack; place = c.place; flag = c.flag } };

    ghost invariant = { λ c. (length c.stack < 2 ^ 32) × (c.place ≤ length c.stack) };
}

impl Cards {
    /// A card reader before its first card, of fewer than 2^32 cards of codes below 64.
    pub fn new(cards: Vec<[u8; 80]>) -> Cards
        requires small { All (λ card. All (λ code. code < 64) card) cards.items }
        requires few { length cards.items < 2 ^ 32 }
        ensures { result ≡ record { cards = cards.items; place = 0; flag = false } }
    {
        Cards::of_stack(Stack::of_cards(cards))
    }

    /// A card reader before the first card of a stack of fewer than 2^32.
    pub fn of_stack(stack: Stack) -> Cards
        requires { length stack < 2 ^ 32 }
        ensures { result ≡ record { cards = stack; place = 0; flag = false } }
    {
        Cards {
            stack,
            place: 0,
            flag: false,
        }
    }

    /// How many cards are read.
    pub fn place(&self) -> u32
        ensures value { result ≡ self.now.place }
        ensures inside { self.now.place ≤ length self.now.cards }
    {
        self.place as u32
    }

    /// Whether the last order found no card.
    pub fn flag(&self) -> bool
        ensures { result ≡ self.now.flag }
    {
        self.flag
    }

    /// Another card reader in the same state.
    pub fn copy(&self, alloc: Global) -> Result<Cards, AllocError>
        ensures { IfOk result (λ c. c ≡ self.now) }
    {
        let stack = self.stack.copy(alloc)?;
        Ok(Cards {
            stack,
            place: self.place,
            flag: self.flag,
        })
    }

    /// Word `i` of the card at a place, of its ten; None after them, or where there is no card.
    pub fn take_word(&self, from: u32, i: u16) -> Option<Word>
        ensures { result ≡ slice_get (card_words from self.now.cards) i }
    {
        word_of_stack(&self.stack, from as usize, i)
    }

    /// Its state after CRQ.
    #[tactic(auto, unfolding(crate::specs::Media::after_card))]
    pub fn finish_read(&mut self)
        ensures { self.new ≡ after_card self.old }
    {
        self.flag = self.stack.len() <= self.place;
        self.place = (self.place + 1).min(self.stack.len());
    }
}

/// Word `i` of the card at a place.
#[tactic(auto, using(crate::proofs::CardWords::card_there, crate::proofs::CardWords::card_absent))]
fn word_of_stack(stack: &Stack, place: usize, i: u16) -> Option<Word>
    ensures { result ≡ slice_get (card_words place stack.now) i }
{
    match stack.card(place) {
        Some(codes) => word_of_card(codes, i),
        None => None,
    }
}

/// Word `i` of the ten of a card of these characters, None after them.
#[tactic(auto, using(crate::proofs::CardWords::card_within, crate::proofs::CardWords::card_behind, crate::proofs::CardWords::card_past))]
fn word_of_card(codes: &[u8], i: u16) -> Option<Word>
    requires short { length codes.now ≤ 80 }
    requires small { All (λ code. code < 64) codes.now }
    ensures { result ≡ slice_get (take 10 (words_of (card_of codes.now))) i }
{
    let at = 8 * usize::from(i);
    if at < codes.len() {
        Some(Word::of_codes(&codes[at..]))
    } else if i < CARD_WORDS {
        Some(Word::default())
    } else {
        None
    }
}
