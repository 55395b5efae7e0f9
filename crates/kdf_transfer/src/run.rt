//! Words that move in one run, with no ring between the device and the lease.
ghost use Rattle.std.specs.Prelude.{◌≡◌, ◌+◌, ◌-◌, ◌*◌, ◌/◌, ◌%◌, ◌<◌, ◌≤◌, ◌++◌};
ghost use Rattle.std.specs.Prelude.{All, Some, drop, is_some, length, reverse, take, true};
ghost use Rattle.std.specs.Option.{option_map};
ghost use Rattle.std.specs.Vec.{vec_capacity};
ghost use Rattle.kdf_word.specs.Characters.{codes_of, codes_of_all, words_of};
ghost use Rattle.kdf_transfer.specs.AtOnce.{addressed, at_addresses, down_addresses};
ghost use Rattle.kdf_transfer.specs.InFlight.{Covers, put_words};
ghost use Rattle.kdf_transfer.specs.Runs.{lent_words, run_words};

use crate::{Area, TransferOrder};
use kdf_lockout::Lease;
use kdf_word::Word;

/// Writes the words from one on up to a total that an input order makes of these characters.
pub(crate) fn put_run(
    codes: &[u8],
    order: TransferOrder,
    area: Area,
    lease: &mut Option<Lease>,
    from: u16,
    total: u16,
)
    requires small { All (λ c. c < 64) codes.now }
    requires lease { is_some lease.old ≡ true }
    requires area { Covers lease.old area.first area.last }
    requires from { from ≤ total }
    requires inside { total ≤ area.last + 1 - area.first }
    requires given { 8 * total < length codes.now + 8 }
    ensures { lease.new ≡ option_map (put_words (drop from
        (addressed order area.first area.last (take total (run_words order codes.now))))) lease.old }
{
    match lease {
        Some(lease) => {
            if order.is_backward() {
                put_down(codes, area, lease, from, total);
            } else {
                put_up(codes, area, lease, from, total);
            }
        }
        None => unreachable!(),
    }
}

/// Writes words upwards from the first place.
fn put_up(codes: &[u8], area: Area, lease: &mut Lease, from: u16, total: u16)
    requires small { All (λ c. c < 64) codes.now }
    requires area { Covers (Some lease.old) area.first area.last }
    requires from { from ≤ total }
    requires inside { total ≤ area.last + 1 - area.first }
    requires given { 8 * total < length codes.now + 8 }
    ensures { lease.new ≡ put_words (drop from
        (at_addresses area.first (take total (words_of codes.now)))) lease.old }
{
    let end = usize::from(total);
    let mut i = usize::from(from);
    while i < end {
        let count = left_in_group(area.first + i).min(end - i);
        lease.write_codes(area.first + i, &codes[8 * i..], count);
        i += count;
    }
}

/// Writes words downwards from the last place, the last one first.
fn put_down(codes: &[u8], area: Area, lease: &mut Lease, from: u16, total: u16)
    requires small { All (λ c. c < 64) codes.now }
    requires area { Covers (Some lease.old) area.first area.last }
    requires from { from ≤ total }
    requires inside { total ≤ area.last + 1 - area.first }
    requires given { 8 * total < length codes.now + 8 }
    ensures { lease.new ≡ put_words (drop from
        (down_addresses area.last (take total (reverse (words_of codes.now))))) lease.old }
{
    let count = codes.len().div_ceil(8);
    for i in usize::from(from)..usize::from(total) {
        lease.write(area.last - i, Word::of_codes(&codes[8 * (count - 1 - i)..]));
    }
}

/// Appends the characters of the words from one on up to a total of an area, those of the words before being there.
pub(crate) fn push_run(lease: &Lease, area: Area, block: &mut Vec<u8>, from: u16, total: u16)
    requires area { Covers (Some lease.now) area.first area.last }
    requires from { from ≤ total }
    requires inside { total ≤ area.last + 1 - area.first }
    requires block { block.old.items
        ≡ codes_of_all (take from (lent_words lease.now area.first total)) }
    requires room { 8 * total ≤ vec_capacity block.old }
    ensures items { block.new.items ≡ codes_of_all (lent_words lease.now area.first total) }
    ensures room { 8 * total ≤ vec_capacity block.new }
{
    match block.resize(8 * usize::from(total), 0) {
        Ok(()) => {}
        Err(_) => unreachable!(),
    }
    put_area(lease, area, block, usize::from(from));
}

/// Puts the characters of the words from one on in their places, of as many words as the block has places for.
fn put_area(lease: &Lease, area: Area, block: &mut [u8], from: usize)
    requires area { Covers (Some lease.now) area.first area.last }
    requires from { 8 * from ≤ length block.old }
    requires inside { length block.old / 8 ≤ area.last + 1 - area.first }
    requires whole { length block.old % 8 ≡ 0 }
    requires block { take (8 * from) block.old
        ≡ codes_of_all (take from (lent_words lease.now area.first (length block.old / 8))) }
    ensures { block.new ≡ codes_of_all (lent_words lease.now area.first (length block.old / 8)) }
{
    let end = block.len() / 8;
    let mut i = from;
    while i < end {
        let count = left_in_group(area.first + i).min(end - i);
        put_group(lease, area, block, i, count);
        i += count;
    }
}

/// Puts the characters of `count` words from one on, all of them in one group, in their places.
fn put_group(lease: &Lease, area: Area, block: &mut [u8], from: usize, count: usize)
    requires area { Covers (Some lease.now) area.first area.last }
    requires more { from < length block.old / 8 }
    requires inside { length block.old / 8 ≤ area.last + 1 - area.first }
    requires fits { from + count ≤ length block.old / 8 }
    requires group { (area.first + from) % 32 + count ≤ 32 }
    requires block { take (8 * from) block.old
        ≡ codes_of_all (take from (lent_words lease.now area.first (length block.old / 8))) }
    ensures block { take (8 * (from + count)) block.new
        ≡ codes_of_all (take (from + count) (lent_words lease.now area.first (length block.old / 8))) }
    ensures size { length block.new ≡ length block.old }
{
    let place = area.first + from;
    let group = lease.group(place / 32 - area.first / 32);
    for k in 0..count {
        put_codes(block, from + k, group.word(place % 32 + k));
    }
}

/// How many words there are from a place to the end of its group.
fn left_in_group(place: usize) -> usize
    ensures { result ≡ 32 - place % 32 }
{
    32 - place % 32
}

/// Puts the characters of word `i` in their place.
fn put_codes(block: &mut [u8], i: usize, word: Word)
    requires { 8 * i + 8 ≤ length block.old }
    ensures { block.new ≡ take (8 * i) block.old ++ (codes_of word ++ drop (8 * i + 8) block.old) }
{
    block[8 * i..8 * i + 8].copy_from_slice(&word.codes());
}
