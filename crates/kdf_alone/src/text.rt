//! The text of an area.
ghost use Rattle.std.specs.Prelude.{◌≡◌, ◌+◌, ◌-◌, ◌*◌, ◌≤◌, [], if◌then◌else◌, length};
ghost use Rattle.std.specs.Vec.{vec_capacity};
ghost use Rattle.kdf_media.specs.Media.{through_end};
ghost use Rattle.kdf_transfer.specs.AtOnce.{is_output};
ghost use Rattle.kdf_word.specs.Characters.{codes_of_all};

use kdf_media::Block;
use kdf_transfer::{TransferOrder, characters_in, push_codes, up_to_end};
use kdf_word::Word;

/// How many characters an order moves at most to its device.
pub fn characters_out(order: TransferOrder, first: u16, last: u16) -> usize
    ensures { result ≡ (if is_output order then 8 * (last - first + 1) else 0) }
{
    if order.is_output() {
        characters_in(first, last)
    } else {
        0
    }
}

/// The characters of words up to and with the first End Message, or all, in a block that has room for all.
pub fn text_of(mut block: Vec<u8>, words: &[Word]) -> Block
    requires empty { block.items ≡ [] }
    requires room { 8 * length words.now ≤ vec_capacity block }
    ensures { result ≡ through_end (codes_of_all words.now) }
{
    push_words(&mut block, words);
    up_to_end(block)
}

/// Fills a block with the characters of words.
fn push_words(block: &mut Vec<u8>, words: &[Word])
    requires empty { block.old.items ≡ [] }
    requires room { 8 * length words.now ≤ vec_capacity block.old }
    ensures { block.new.items ≡ codes_of_all words.now }
{
    for word in words {
        push_codes(block, *word);
    }
}
