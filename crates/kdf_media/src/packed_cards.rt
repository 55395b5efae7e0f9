//! Cards of which only the characters are kept.
ghost use Rattle.std.specs.Prelude.{◌≡◌, ◌^◌, ◌<◌, ◌≤◌, ◌∷◌, ◌++◌, [], All, length, slice_get, slice_index, slice_range, IfOk, IfSome, OnOk, OnErr};
ghost use Rattle.std.specs.Option.{option_map};
ghost use Rattle.kdf_media.specs.Media.{card_of};
ghost use Rattle.kdf_media.specs.PackedCards.{AreEnds};

use std::alloc::{AllocError, Global};
use std::marker::Model;

/// Cards of at most 80 characters, which contracts see filled up with code 0. Their characters stand one after another.
#[derive(Drop)]
pub(crate) struct PackedCards {
    codes: Vec<u8>,
    ends: Vec<u32>,
}

impl Model for PackedCards {
    ghost use Rattle.std.specs.Prelude.{◌<◌, List, ℕ, All, length};
    ghost use Rattle.kdf_media.specs.PackedCards.{AreEnds, cards_to};

    ghost Value = { List (List ℕ) };

    ghost view = { λ c. cards_to 0 c.ends.items c.codes.items };

    ghost invariant = { λ c. (All (λ code. code < 64) c.codes.items)
        × AreEnds 0 c.ends.items (length c.codes.items) };
}

impl PackedCards {
    /// No cards.
    pub(crate) fn new(alloc: Global) -> PackedCards
        ensures { result ≡ [] }
    {
        PackedCards {
            codes: Vec::new(alloc),
            ends: Vec::new(alloc),
        }
    }

    /// How many cards there are.
    #[tactic(auto, using(crate::proofs::PackedCards::length_cards))]
    pub(crate) fn len(&self) -> usize
        ensures value { result ≡ length self.now }
        ensures few { length self.now < 2 ^ 63 }
    {
        self.ends.len()
    }

    /// Adds a card of these characters. Without memory, or with 2^32 characters, all stays as it was.
    pub(crate) fn push(&mut self, codes: &[u8]) -> Result<(), AllocError>
        requires short { length codes.now ≤ 80 }
        requires small { All (λ c. c < 64) codes.now }
        ensures ok { OnOk result (self.new ≡ self.old ++ card_of codes.now ∷ []) }
        ensures err { OnErr result (self.new ≡ self.old) }
    {
        let end = self.codes.len() + codes.len();
        if end > u32::MAX as usize {
            return Err(AllocError);
        }
        self.ends.reserve(1)?;
        self.codes.extend_from_slice(codes)?;
        self.ends.push_reserved(end as u32);
        Ok(())
    }

    /// The characters of which a card was made; None where there is no card.
    #[tactic(auto, using(crate::proofs::PackedCards::card_at, crate::proofs::PackedCards::no_card_at))]
    pub(crate) fn card(&self, place: usize) -> Option<&[u8]>
        ensures card { option_map (λ codes. card_of codes.now) result ≡ slice_get self.now place }
        ensures short { IfSome result (λ codes. length codes.now ≤ 80) }
        ensures small { IfSome result (λ codes. All (λ c. c < 64) codes.now) }
    {
        if place < self.ends.len() {
            Some(codes_at(&self.codes, &self.ends, place))
        } else {
            None
        }
    }

    /// The same cards once more.
    pub(crate) fn copy(&self, alloc: Global) -> Result<PackedCards, AllocError>
        ensures { IfOk result (λ c. c ≡ self.now) }
    {
        let codes = Vec::from_slice(alloc, &self.codes)?;
        let ends = Vec::from_slice(alloc, &self.ends)?;
        Ok(PackedCards { codes, ends })
    }
}

/// The characters of the card at a place.
fn codes_at<'a>(codes: &'a [u8], ends: &[u32], place: usize) -> &'a [u8]
    requires ends { AreEnds 0 ends.now (length codes.now) }
    requires there { place < length ends.now }
    ensures codes { result.now ≡ slice_range codes.now (slice_index (0 ∷ ends.now) place) (slice_index ends.now place) }
    ensures short { length result.now ≤ 80 }
{
    let start = start_of(ends, place);
    let end = ends[place] as usize;
    &codes[start..end]
}

/// Where the card at a place begins.
fn start_of(ends: &[u32], place: usize) -> usize
    requires { place < length ends.now }
    ensures { result ≡ slice_index (0 ∷ ends.now) place }
{
    if place == 0 {
        0
    } else {
        ends[place - 1] as usize
    }
}
