//! A paper tape reader.
ghost use Rattle.std.specs.Prelude.{◌≡◌, ◌*◌, ◌^◌, ◌<◌, ◌≤◌, All, false, length, take, drop, slice_get, IfOk};
ghost use Rattle.kdf_word.specs.Characters.{words_of};
ghost use Rattle.kdf_media.specs.Media.{after_read, falls_short, read_codes};

use crate::end_message::{has_end, through_end};
use kdf_word::Word;
use std::alloc::{AllocError, Global};
use std::marker::Model;

/// A reader with its medium, of fewer than 2^32 codes below 64.
#[derive(Drop)]
pub struct Reader {
    codes: Vec<u8>,
    place: usize,
    flag: bool,
}

impl Model for Reader {
    ghost use Rattle.std.specs.Prelude.{◌^◌, ◌<◌, ◌≤◌, All, length};
    ghost use Rattle.kdf_media.specs.Media.{ReaderState, IsMedium};

    ghost Value = { ReaderState };

    ghost view = { λ r. record { codes = r.codes.items; place = r.place; flag = r.flag } };

    ghost invariant = { λ r. IsMedium (λ c. c < 64) r.codes.items r.place };
}

impl Reader {
    /// A reader at the begin of a medium of fewer than 2^32 codes below 64.
    pub fn new(codes: Vec<u8>) -> Reader
        requires small { All (λ c. c < 64) codes.items }
        requires few { length codes.items < 2 ^ 32 }
        ensures { result ≡ record { codes = codes.items; place = 0; flag = false } }
    {
        Reader {
            codes,
            place: 0,
            flag: false,
        }
    }

    /// How many characters are read.
    pub fn place(&self) -> u32
        ensures value { result ≡ self.now.place }
        ensures inside { self.now.place ≤ length self.now.codes }
    {
        self.place as u32
    }

    /// Whether the last order came to the end of the medium too early.
    pub fn flag(&self) -> bool
        ensures { result ≡ self.now.flag }
    {
        self.flag
    }

    /// Another reader in the same state.
    pub fn copy(&self, alloc: Global) -> Result<Reader, AllocError>
        ensures { IfOk result (λ r. r ≡ self.now) }
    {
        let codes = Vec::from_slice(alloc, &self.codes)?;
        Ok(Reader {
            codes,
            place: self.place,
            flag: self.flag,
        })
    }

    /// The characters that are left, each below 64.
    pub fn codes_left(&self) -> &[u8]
        ensures value { result.now ≡ drop self.now.place self.now.codes }
        ensures below { All (λ c. c < 64) result.now }
    {
        &self.codes[self.place..]
    }

    /// Word `i` of those that a transfer gives from a place on: eight characters a word, the last one filled up with code 0.
    pub fn take_word(&self, from: u32, i: u16) -> Option<Word>
        ensures { result ≡ slice_get (words_of (drop from self.now.codes)) i }
    {
        word_from(&self.codes, from, i)
    }

    /// Its state after PRQ, or PREQ where `to_mark`, over an area of so many words.
    #[tactic(auto, unfolding(crate::specs::Media::after_read))]
    pub fn finish_read(&mut self, words: u16, to_mark: bool)
        ensures { self.new ≡ after_read to_mark words self.old }
    {
        let (read, is_short) = read_from(&self.codes[self.place..], words, to_mark);
        self.place += read;
        self.flag = is_short;
    }
}

/// Word `i` of the codes from a place on.
#[tactic(auto, using(crate::proofs::CardWords::word_there, kdf_word::proofs::Packing::word_from_past))]
fn word_from(codes: &[u8], from: u32, i: u16) -> Option<Word>
    requires { All (λ c. c < 64) codes.now }
    ensures { result ≡ slice_get (words_of (drop from codes.now)) i }
{
    let at = from as usize + 8 * usize::from(i);
    if at < codes.len() {
        Some(Word::of_codes(&codes[at..]))
    } else {
        None
    }
}

/// How many characters are read of those that are left, and whether they end too early.
fn read_from(left: &[u8], words: u16, to_mark: bool) -> (usize, bool)
    ensures read { result.0 ≡ length (read_codes to_mark (take (8 * words) left.now)) }
    ensures inside { result.0 ≤ length left.now }
    ensures short { result.1 ≡ falls_short to_mark words (take (8 * words) left.now) }
{
    let area = 8 * usize::from(words);
    let fitting = &left[..area.min(left.len())];
    let is_full = area <= fitting.len();
    if to_mark {
        (through_end(fitting).len(), !is_full && !has_end(fitting))
    } else {
        (fitting.len(), !is_full)
    }
}
