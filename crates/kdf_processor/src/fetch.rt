//! The fetch of an order: the syllables that spell it.
ghost use Rattle.std.specs.Prelude.{◌≡◌, ◌≢◌, ◌+◌, ◌<◌, ◌≤◌, ◌/◌, ◌%◌, ◌^◌, [], ◌∷◌, None, false, IfSome};
ghost use Rattle.kdf_decode.specs.Decoding.{first_decoded};
ghost use Rattle.kdf_processor.specs.Buffered.{IsHeld};
ghost use Rattle.kdf_processor.specs.Fetch.{held_of, IsFetched, IsFetchedAt, spelt_of, syllable_read};
ghost use Rattle.kdf_processor.specs.Needs.{group_of, syllable_at};
ghost use Rattle.kdf_processor.specs.declared.fetch.Fetched.TheVariants.{Spelt};
ghost use Rattle.kdf_processor.specs.Table.{syllable_after};
ghost use Rattle.kdf_syllable.specs.Packing.{syllable};
ghost use Rattle.kdf_syllable.specs.Spelling.{size_of_first};

use crate::syllable_number::syllable_after;
use crate::{Buffer, Port};
use kdf_syllable::{size_of_first, syllable};
use kdf_word::Word;

/// How many syllable numbers there are.
pub const SYLLABLES: u16 = 49_152;

/// What the fetch of an order gives.
#[derive(Clone, Copy)]
pub enum Fetched {
    /// These syllables, which the spelling begins. What stands after it counts for nothing.
    Spelt { first: u8, second: u8, third: u8 },
    /// The spelling runs out of the store.
    Bad,
    /// This group of a syllable is out.
    Held(u16),
}

/// What the fetch of a syllable gives.
#[derive(Clone, Copy)]
pub enum Syllable {
    Byte(u8),
    Outside,
    Held(u16),
}

/// A syllable of the program's store.
fn read_syllable<P: Port>(port: &P, n: u16) -> Syllable
    ensures { result ≡ syllable_read (P.shows port.now) n }
{
    let address = n / 6;
    if address >= port.size() {
        return Syllable::Outside;
    }
    match port.read(address) {
        Ok(word) => Syllable::Byte(syllable(word, (n % 6) as u8)),
        Err(group) => Syllable::Held(group),
    }
}

/// The order at a syllable of the program's store.
#[inline(always)]
pub fn fetch_order<P: Port>(port: &P, at: u16) -> Fetched
    ensures { IsFetchedAt (P.shows port.now) at result }
{
    if at >= SYLLABLES {
        return fetch_across(port, at);
    }
    match at % 6 {
        0..4 => fetch_within(port, at),
        4 => fetch_fifth(port, at),
        _ => fetch_sixth(port, at),
    }
}

/// The 24 bits that the order at this one of the six syllables of a word begins, or None where it is held up or there is none.
#[inline(always)]
pub fn fetch_from<P: Port>(port: &P, held: &Buffer, at: u16, place: u32) -> Option<u32>
    requires held { IsHeld (P.shows port.now) held.now }
    requires place { at ≡ held.now.first + place }
    requires six { place < 6 }
    ensures { IfSome result (λ bits. IsFetchedAt (P.shows port.now) at (spelt_of bits)) }
{
    if place < 4 {
        Some(bits_within(held.word, place as u8))
    } else if place == 4 {
        together(fetch_from_fifth(port, at, held.word))
    } else {
        together(fetch_from_sixth(port, at, syllable(held.word, 5)))
    }
}

/// The 24 bits of three syllables that were fetched.
#[tactic(auto, using(crate::proofs::Together::apart))]
#[inline(always)]
fn together(fetched: Fetched) -> Option<u32>
    ensures { IfSome result (λ bits. fetched ≡ spelt_of bits) }
{
    match fetched {
        Fetched::Spelt {
            first,
            second,
            third,
        } => Some(u32::from(first) * 65_536 + u32::from(second) * 256 + u32::from(third)),
        Fetched::Bad | Fetched::Held(_) => None,
    }
}

/// The order at a syllable after which two others stand in its word.
#[inline(always)]
fn fetch_within<P: Port>(port: &P, at: u16) -> Fetched
    requires least { at < 49152 }
    requires place { at % 6 < 4 }
    ensures { IsFetchedAt (P.shows port.now) at result }
{
    let address = at / 6;
    if address >= port.size() {
        return Fetched::Bad;
    }
    match port.read(address) {
        Ok(word) => spelt_within(word, (at % 6) as u8),
        Err(group) => Fetched::Held(group),
    }
}

/// The order at syllable 4 of a word.
fn fetch_fifth<P: Port>(port: &P, at: u16) -> Fetched
    requires least { at < 49152 }
    requires place { at % 6 ≡ 4 }
    ensures { IsFetchedAt (P.shows port.now) at result }
{
    let address = at / 6;
    if address >= port.size() {
        return Fetched::Bad;
    }
    match port.read(address) {
        Ok(word) => fetch_from_fifth(port, at, word),
        Err(group) => Fetched::Held(group),
    }
}

/// The order at syllable 4 of this word.
#[inline(always)]
fn fetch_from_fifth<P: Port>(port: &P, at: u16, word: Word) -> Fetched
    requires least { at < 49152 }
    requires place { at % 6 ≡ 4 }
    requires inside { at / 6 < (P.shows port.now).claims.size }
    requires free { (P.shows port.now).is_out (group_of (at / 6)) ≡ false }
    requires word { word ≡ (P.shows port.now).word (at / 6) }
    ensures { IsFetchedAt (P.shows port.now) at result }
{
    let (first, second) = (syllable(word, 4), syllable(word, 5));
    if size_of_first(first) < 3 {
        return spelt(first, second, 0);
    }
    let next = (at / 6 + 1) % 8192;
    if next >= port.size() {
        return Fetched::Bad;
    }
    match port.read(next) {
        Ok(word) => spelt(first, second, syllable(word, 0)),
        Err(group) => Fetched::Held(group),
    }
}

/// The order at syllable 5 of a word.
fn fetch_sixth<P: Port>(port: &P, at: u16) -> Fetched
    requires least { at < 49152 }
    requires place { at % 6 ≡ 5 }
    ensures { IsFetchedAt (P.shows port.now) at result }
{
    let address = at / 6;
    if address >= port.size() {
        return Fetched::Bad;
    }
    match port.read(address) {
        Ok(word) => fetch_from_sixth(port, at, syllable(word, 5)),
        Err(group) => Fetched::Held(group),
    }
}

/// The order at syllable 5 of a word, which is this syllable.
#[inline(always)]
fn fetch_from_sixth<P: Port>(port: &P, at: u16, first: u8) -> Fetched
    requires least { at < 49152 }
    requires place { at % 6 ≡ 5 }
    requires inside { at / 6 < (P.shows port.now).claims.size }
    requires free { (P.shows port.now).is_out (group_of (at / 6)) ≡ false }
    requires first { first ≡ syllable_at (P.shows port.now).word at }
    ensures { IsFetchedAt (P.shows port.now) at result }
{
    if size_of_first(first) == 1 {
        return spelt(first, 0, 0);
    }
    let next = (at / 6 + 1) % 8192;
    if next >= port.size() {
        return Fetched::Bad;
    }
    match port.read(next) {
        Ok(word) => spelt(first, syllable(word, 0), syllable(word, 1)),
        Err(group) => Fetched::Held(group),
    }
}

/// The order at syllable `i` of a word, after which two others stand.
#[inline(always)]
fn spelt_within(word: Word, i: u8) -> Fetched
    requires { i < 4 }
    ensures order { IsFetched
        (first_decoded (syllable word i ∷ syllable word (i + 1) ∷ syllable word (i + 2) ∷ [])) result }
    ensures held { held_of result ≡ None }
{
    let last = from_syllable(word, i);
    spelt(syllable(last, 3), syllable(last, 4), syllable(last, 5))
}

/// The 24 bits of the syllables of a word from `i` to `i + 2`.
#[tactic(auto, using(crate::proofs::Together::spelt_within))]
#[inline(always)]
fn bits_within(word: Word, i: u8) -> u32
    requires { i < 4 }
    ensures { spelt_of result ≡ Spelt (syllable word i) (syllable word (i + 1)) (syllable word (i + 2)) }
{
    (without_last(word, 3 - i).bits() % (1 << 24)) as u32
}

/// A word that ends with the syllables of another one from `i` to `i + 2`.
#[tactic(auto, using(crate::proofs::Shifted::first, crate::proofs::Shifted::second, crate::proofs::Shifted::third))]
#[inline(always)]
fn from_syllable(word: Word, i: u8) -> Word
    requires { i < 4 }
    ensures first { syllable result 3 ≡ syllable word i }
    ensures second { syllable result 4 ≡ syllable word (i + 1) }
    ensures third { syllable result 5 ≡ syllable word (i + 2) }
{
    without_last(word, 3 - i)
}

/// A word without its last syllables, so many.
#[tactic(auto, using(std::proofs::lemmas::Grind::common_steps, kdf_syllable::proofs::Digits::pow_bytes))]
#[inline(always)]
fn without_last(word: Word, count: u8) -> Word
    requires { count < 6 }
    ensures { result ≡ word / 256 ^ count }
{
    Word::new(word.bits() >> (8 * count))
}

/// The order at a syllable, read syllable by syllable.
fn fetch_across<P: Port>(port: &P, at: u16) -> Fetched
    ensures { IsFetchedAt (P.shows port.now) at result }
{
    match read_syllable(port, at) {
        Syllable::Byte(first) => fetch_after_first(port, at, first),
        Syllable::Outside => Fetched::Bad,
        Syllable::Held(group) => Fetched::Held(group),
    }
}

/// The order at a syllable, which is this one.
fn fetch_after_first<P: Port>(port: &P, at: u16, first: u8) -> Fetched
    requires { Syllable.Byte first ≡ syllable_read (P.shows port.now) at }
    ensures { IsFetchedAt (P.shows port.now) at result }
{
    let size = size_of_first(first);
    if size == 1 {
        return spelt(first, 0, 0);
    }
    match read_syllable(port, syllable_after(at, 1)) {
        Syllable::Byte(second) => fetch_after_second(port, at, first, second),
        Syllable::Outside => Fetched::Bad,
        Syllable::Held(group) => Fetched::Held(group),
    }
}

/// The order at a syllable, which begins with these two.
fn fetch_after_second<P: Port>(port: &P, at: u16, first: u8, second: u8) -> Fetched
    requires first { Syllable.Byte first ≡ syllable_read (P.shows port.now) at }
    requires second { Syllable.Byte second ≡ syllable_read (P.shows port.now) (syllable_after at 1) }
    requires longer { size_of_first first ≢ 1 }
    ensures { IsFetchedAt (P.shows port.now) at result }
{
    let size = size_of_first(first);
    if size == 2 {
        return spelt(first, second, 0);
    }
    match read_syllable(port, syllable_after(syllable_after(at, 1), 1)) {
        Syllable::Byte(third) => spelt(first, second, third),
        Syllable::Outside => Fetched::Bad,
        Syllable::Held(group) => Fetched::Held(group),
    }
}

/// The order that these syllables begin with.
#[inline(always)]
fn spelt(first: u8, second: u8, third: u8) -> Fetched
    ensures order { IsFetched (first_decoded (first ∷ second ∷ third ∷ [])) result }
    ensures held { held_of result ≡ None }
{
    Fetched::Spelt {
        first,
        second,
        third,
    }
}
