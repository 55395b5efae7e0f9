//! The characters of words that move, and the word in which an order stops.
ghost use Rattle.std.specs.Prelude.{◌≡◌, ◌+◌, ◌<◌, ◌≤◌, [], ◌∷◌, ◌++◌, All, vec_len};
ghost use Rattle.std.specs.Vec.{vec_capacity};
ghost use Rattle.kdf_word.specs.Characters.{character_of, codes_of, first_word};
ghost use Rattle.kdf_media.specs.Media.{has_end, through_end};
ghost use Rattle.kdf_transfer.specs.AtOnce.{fill, is_last};

use crate::TransferOrder;
use kdf_media::through_end;
use kdf_word::Word;

/// The code of End Message.
const END_MESSAGE: u8 = 0o75;

/// Whether an End Message is among the characters of a word.
fn has_end(word: Word) -> bool
    ensures { result ≡ has_end (codes_of word) }
{
    word.codes().contains(&END_MESSAGE)
}

/// The word with code 00 in place of what stands after its End Message.
#[tactic(auto, using(crate::proofs::EndMessage::small_through))]
fn filled(word: Word) -> Word
    ensures { result ≡ first_word (through_end (codes_of word)) }
{
    Word::of_codes(through_end(&word.codes()))
}

/// Whether an order stops after a word.
pub(crate) fn is_last(order: TransferOrder, word: Word) -> bool
    ensures { result ≡ is_last order word }
{
    order.stops_at_end() && has_end(word)
}

/// A word as it is moved: after the End Message at which PREQ stops it is filled up.
pub(crate) fn fill_up(order: TransferOrder, word: Word) -> Word
    ensures { result ≡ fill order word }
{
    if order.stops_at_end() && order.is_input() {
        filled(word)
    } else {
        word
    }
}

/// Appends the characters of a word, for which there is room.
pub fn push_codes(block: &mut Vec<u8>, word: Word)
    requires { vec_len block.old + 8 ≤ vec_capacity block.old }
    ensures items { block.new.items ≡ block.old.items ++ codes_of word }
    ensures len { vec_len block.new ≡ vec_len block.old + 8 }
    ensures capacity { vec_capacity block.new ≡ vec_capacity block.old }
{
    push_four(block, word, 0);
    push_four(block, word, 4);
}

/// Appends four characters of a word, from number `i` on, for which there is room.
#[inline(always)]
fn push_four(block: &mut Vec<u8>, word: Word, i: u8)
    requires four { i ≤ 4 }
    requires room { vec_len block.old + 4 ≤ vec_capacity block.old }
    ensures items { block.new.items ≡ block.old.items ++ character_of i word ∷ character_of (i + 1) word
        ∷ character_of (i + 2) word ∷ character_of (i + 3) word ∷ [] }
    ensures len { vec_len block.new ≡ vec_len block.old + 4 }
    ensures capacity { vec_capacity block.new ≡ vec_capacity block.old }
{
    block.push_reserved(word.character(i));
    block.push_reserved(word.character(i + 1));
    block.push_reserved(word.character(i + 2));
    block.push_reserved(word.character(i + 3));
}

/// Cuts characters after their first End Message.
#[tactic(auto, using(crate::proofs::EndMessage::through_front))]
pub(crate) fn cut(block: &mut Vec<u8>)
    ensures { block.new.items ≡ through_end block.old.items }
{
    let end = through_end(block).len();
    block.truncate(end);
}
