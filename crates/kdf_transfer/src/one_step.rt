//! Transfers in one step, over a plain list of words.
ghost use Rattle.std.specs.Prelude.{◌≡◌, ◌+◌, ◌-◌, ◌*◌, ◌^◌, ◌<◌, ◌≤◌, [], length, take, true, false, slice_index};
ghost use Rattle.std.specs.Vec.{vec_capacity};
ghost use Rattle.kdf_word.specs.Characters.{codes_of_all};
ghost use Rattle.kdf_transfer.specs.AtOnce.{IsArea, addressed, blocks_out, device_after, fill, given, has_area, is_input, is_output};
ghost use Rattle.kdf_transfer.specs.AtOnce.{kind_of, order_words, stopped, stored, words_out, written};
ghost use Rattle.kdf_transfer.specs.Devices.{fixture_of, progress_of, room_of};

use crate::area::{place_at, words_in};
use crate::end_word::{fill_up, is_last, push_codes};
use crate::{Area, Device, TransferOrder};
use kdf_word::Word;

/// A whole transfer in one step, the area lying in a list of words. An input order writes all its words into the list, and the device
/// gets its new state. For an output order the block has room for the characters of the area. It takes no memory.
pub fn at_once(
    device: &mut Device,
    order: TransferOrder,
    area: Area,
    words: &mut [Word],
    mut block: Vec<u8>,
)
    requires kind { (fixture_of device.old).kind ≡ kind_of order }
    requires spare { blocks_out order ≤ room_of device.old }
    requires few { (progress_of device.old).place + blocks_out order < 2 ^ 32 }
    requires area { has_area order ≡ true → IsArea area.first area.last (length words.old) }
    requires block { block.items ≡ [] }
    requires room { is_output order ≡ true
        → 8 * (area.last + 1 - area.first) ≤ vec_capacity block }
    ensures words { words.new ≡
        stored order area.first area.last words.old
        (fixture_of device.old) (progress_of device.old) }
    ensures fixture { fixture_of device.new ≡ fixture_of device.old }
    ensures progress { progress_of device.new ≡ device_after order area.first area.last
        (order_words order area.first area.last words.old)
        (fixture_of device.old) (progress_of device.old) }
{
    move_all(device, order, area, words, &mut block);
    device.finish(order, words_in(order, area), block);
}

/// Moves all words of an order into the list, or their characters into the block.
fn move_all(
    device: &Device,
    order: TransferOrder,
    area: Area,
    words: &mut [Word],
    block: &mut Vec<u8>,
)
    requires kind { (fixture_of device.now).kind ≡ kind_of order }
    requires area { has_area order ≡ true → IsArea area.first area.last (length words.old) }
    requires block { block.old.items ≡ [] }
    requires room { is_output order ≡ true
        → 8 * (area.last + 1 - area.first) ≤ vec_capacity block.old }
    ensures words { words.new ≡
        stored order area.first area.last words.old
        (fixture_of device.now) (progress_of device.now) }
    ensures block { block.new.items ≡
        codes_of_all (words_out order (order_words order area.first area.last words.old)) }
{
    if order.is_input() {
        read_into(device, order, area, words);
    } else if order.is_output() {
        push_area(order, &words[area.first..area.last + 1], block);
    }
}

/// Writes all words of an input order into the list.
fn read_into(device: &Device, order: TransferOrder, area: Area, words: &mut [Word])
    requires kind { (fixture_of device.now).kind ≡ kind_of order }
    requires input { is_input order ≡ true }
    requires area { IsArea area.first area.last (length words.old) }
    ensures { words.new ≡ written (addressed order area.first area.last
        (stopped order (take (area.last + 1 - area.first)
        (given order (fixture_of device.now) (progress_of device.now))))) words.old }
{
    for i in 0..count_input(device, order, words_in(order, area)) {
        words[place_at(order, area, i)] = input_word(device, order, i);
    }
}

/// How many words an input order moves to an area of so many.
pub(crate) fn count_input(device: &Device, order: TransferOrder, words: u16) -> u16
    requires kind { (fixture_of device.now).kind ≡ kind_of order }
    requires input { is_input order ≡ true }
    ensures value { result ≡
        length (stopped order (take words
        (given order (fixture_of device.now) (progress_of device.now)))) }
    ensures within { result ≤ words }
    ensures given { result ≤ length (given order (fixture_of device.now) (progress_of device.now)) }
{
    for i in 0..words {
        match device.given_word(order, i) {
            Some(word) => {
                if is_last(order, word) {
                    return i + 1;
                }
            }
            None => return i,
        }
    }
    words
}

/// Word `i` of those that an input order moves.
pub(crate) fn input_word(device: &Device, order: TransferOrder, i: u16) -> Word
    requires kind { (fixture_of device.now).kind ≡ kind_of order }
    requires input { is_input order ≡ true }
    requires inside { i < length (given order (fixture_of device.now) (progress_of device.now)) }
    ensures { result ≡ fill order
        (slice_index (given order (fixture_of device.now) (progress_of device.now)) i) }
{
    match device.given_word(order, i) {
        Some(word) => fill_up(order, word),
        None => unreachable!(),
    }
}

/// Appends the characters of the words that an output order moves, these being the words of its area.
fn push_area(order: TransferOrder, words: &[Word], block: &mut Vec<u8>)
    requires output { is_input order ≡ false }
    requires block { block.old.items ≡ [] }
    requires room { 8 * length words.now ≤ vec_capacity block.old }
    ensures { block.new.items ≡ codes_of_all (stopped order words.now) }
{
    for word in words {
        push_codes(block, *word);
        if is_last(order, *word) {
            return;
        }
    }
}
