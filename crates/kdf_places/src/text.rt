//! The text of an area of the store.
ghost use Rattle.std.specs.Prelude.{◌≡◌, ◌+◌, ◌-◌, ◌*◌, ◌/◌, ◌≤◌, [], map, false};
ghost use Rattle.std.specs.List.{range_with_len};
ghost use Rattle.std.specs.Vec.{vec_capacity};
ghost use Rattle.kdf_word.specs.Characters.{codes_of_all};
ghost use Rattle.kdf_media.specs.Media.{through_end};
ghost use Rattle.kdf_lockout.specs.Groups.{is_out, word_here};
ghost use Rattle.kdf_places.specs.Transfers.{IsFreeArea};

use kdf_lockout::Store;
use kdf_media::Block;
use kdf_transfer::{push_codes, up_to_end};
use kdf_word::Word;

/// The characters of the places from one to another, none of whose groups is out, up to and with the first End Message,
/// or all, in a block that has room for all.
pub fn text_of(mut block: Vec<u8>, store: &Store, first: usize, last: usize) -> Block
    requires area { IsFreeArea store.now first last }
    requires empty { block.items ≡ [] }
    requires room { 8 * (last + 1 - first) ≤ vec_capacity block }
    ensures { result ≡
        through_end (codes_of_all (map (word_here store.now) (range_with_len first (last + 1 - first)))) }
{
    push_words(&mut block, store, first, last);
    up_to_end(block)
}

/// Fills a block with the characters of the places from one to another.
fn push_words(block: &mut Vec<u8>, store: &Store, first: usize, last: usize)
    requires area { IsFreeArea store.now first last }
    requires empty { block.old.items ≡ [] }
    requires room { 8 * (last + 1 - first) ≤ vec_capacity block.old }
    ensures { block.new.items
        ≡ codes_of_all (map (word_here store.now) (range_with_len first (last + 1 - first))) }
{
    for i in 0..last - first + 1 {
        let word = word_there(store, first + i);
        push_codes(block, word);
    }
}

/// The word at a place whose group isn't out.
fn word_there(store: &Store, place: usize) -> Word
    requires { is_out store.now (place / 32) ≡ false }
    ensures { result ≡ word_here store.now place }
{
    match store.read(place) {
        Ok(word) => word,
        Err(_) => unreachable!(),
    }
}
