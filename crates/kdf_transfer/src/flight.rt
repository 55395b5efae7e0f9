//! The parts of a transfer, and the moves of its words.
ghost use Rattle.std.specs.Prelude.{◌≡◌, ◌+◌, ◌-◌, ◌*◌, ◌^◌, ◌<◌, ◌≤◌, ◌++◌, ◌∷◌, [], length, take, drop, min, is_some, true, false};
ghost use Rattle.std.specs.Prelude.{if◌then◌else◌, slice_index, slice_get, vec_len};
ghost use Rattle.std.specs.Vec.{vec_capacity};
ghost use Rattle.std.specs.Option.{option_map, option_to_list};
ghost use Rattle.kdf_word.specs.Characters.{codes_of, words_of};
ghost use Rattle.kdf_lockout.specs.Groups.{with_lent_word};
ghost use Rattle.kdf_transfer.specs.AtOnce.{kind_of, is_input, has_area, offered, place_of};
ghost use Rattle.kdf_transfer.specs.Devices.{fixture_of, progress_of};
ghost use Rattle.kdf_transfer.specs.InFlight.{area_words, all_words, Covers};

use crate::area::{place_at, words_in};
use crate::end_word::{fill_up, is_last, push_codes};
use crate::run::{push_run, put_run};
use crate::{Area, Device, Ring, TransferOrder};
use kdf_lockout::Lease;
use kdf_word::Word;

/// The parts of a transfer.
pub(crate) struct Flight {
    pub(crate) device: Device,
    pub(crate) order: TransferOrder,
    pub(crate) area: Area,
    pub(crate) lease: Option<Lease>,
    pub(crate) block: Vec<u8>,
    pub(crate) ring: Ring,
    pub(crate) total: u16,
    pub(crate) moved: u16,
}

/// Word `i` of those that an order would move if it looked for no End Message; None after them.
pub(crate) fn offered_word(
    device: &Device,
    order: TransferOrder,
    area: Area,
    lease: &Option<Lease>,
    i: u16,
) -> Option<Word>
    requires kind { (fixture_of device.now).kind ≡ kind_of order }
    requires lease { is_some lease.now ≡ has_area order }
    requires area { has_area order ≡ true → Covers lease.now area.first area.last }
    ensures { result ≡ slice_get (offered order area.first area.last
        (area_words order area.first area.last lease.now)
        (fixture_of device.now) (progress_of device.now)) i }
{
    let words = words_in(order, area);
    if i >= words {
        None
    } else if order.is_input() {
        device.given_word(order, i)
    } else {
        match lease {
            Some(lease) => Some(lease.read(area.first + usize::from(i))),
            None => unreachable!(),
        }
    }
}

/// How many words an order moves.
pub(crate) fn count_words(
    device: &Device,
    order: TransferOrder,
    area: Area,
    lease: &Option<Lease>,
) -> u16
    requires kind { (fixture_of device.now).kind ≡ kind_of order }
    requires lease { is_some lease.now ≡ has_area order }
    requires area { has_area order ≡ true → Covers lease.now area.first area.last }
    ensures value { result ≡ length (all_words order area.first area.last lease.now
        (fixture_of device.now) (progress_of device.now)) }
    ensures few { result ≤ 4096 }
{
    if !order.is_input() && !order.stops_at_end() {
        return words_in(order, area);
    }
    match device.run_of_codes(order) {
        Some(codes) => count_within(codes, words_in(order, area)),
        None => count_up(device, order, area, lease),
    }
}

/// How many words these characters make, but at most so many.
fn count_within(codes: &[u8], words: u16) -> u16
    ensures value { result ≡ min words (length (words_of codes.now)) }
    ensures within { result ≤ words }
{
    codes.len().div_ceil(8).min(usize::from(words)) as u16
}

/// How many words an order moves, one after the other.
fn count_up(device: &Device, order: TransferOrder, area: Area, lease: &Option<Lease>) -> u16
    requires kind { (fixture_of device.now).kind ≡ kind_of order }
    requires lease { is_some lease.now ≡ has_area order }
    requires area { has_area order ≡ true → Covers lease.now area.first area.last }
    ensures value { result ≡ length (all_words order area.first area.last lease.now
        (fixture_of device.now) (progress_of device.now)) }
    ensures few { result ≤ 4096 }
{
    for i in 0..words_in(order, area) {
        match offered_word(device, order, area, lease, i) {
            Some(word) => {
                if is_last(order, word) {
                    return i + 1;
                }
            }
            None => return i,
        }
    }
    words_in(order, area)
}

/// Word `i` of those that an order moves.
pub(crate) fn word_at(
    device: &Device,
    order: TransferOrder,
    area: Area,
    lease: &Option<Lease>,
    i: u16,
) -> Word
    requires kind { (fixture_of device.now).kind ≡ kind_of order }
    requires lease { is_some lease.now ≡ has_area order }
    requires area { has_area order ≡ true → Covers lease.now area.first area.last }
    requires inside { i < length (all_words order area.first area.last lease.now
        (fixture_of device.now) (progress_of device.now)) }
    ensures { result ≡ slice_index (all_words order area.first area.last lease.now
        (fixture_of device.now) (progress_of device.now)) i }
{
    match offered_word(device, order, area, lease, i) {
        Some(word) => fill_up(order, word),
        None => unreachable!(),
    }
}

/// Writes a word to the lease, or its codes to the block.
pub(crate) fn deliver(
    order: TransferOrder,
    area: Area,
    lease: &mut Option<Lease>,
    block: &mut Vec<u8>,
    moved: u16,
    word: Word,
)
    requires lease { is_some lease.old ≡ true }
    requires area { Covers lease.old area.first area.last }
    requires inside { moved < area.last + 1 - area.first }
    requires room { is_input order ≡ false → vec_len block.old + 8 ≤ vec_capacity block.old }
    ensures lease { lease.new ≡ (if is_input order then option_map
        (λ l. with_lent_word l (place_of order area.first area.last moved) word) lease.old
        else lease.old) }
    ensures block { block.new.items
        ≡ (if is_input order then block.old.items else block.old.items ++ codes_of word) }
    ensures capacity { vec_capacity block.new ≡ vec_capacity block.old }
{
    if order.is_input() {
        let place = place_at(order, area, moved);
        match lease {
            Some(lease) => lease.write(place, word),
            None => unreachable!(),
        }
    } else {
        push_codes(block, word);
    }
}

/// The word of this number, if there is one.
fn next_word(
    device: &Device,
    order: TransferOrder,
    area: Area,
    lease: &Option<Lease>,
    next: u16,
    total: u16,
) -> Option<Word>
    requires kind { (fixture_of device.now).kind ≡ kind_of order }
    requires lease { is_some lease.now ≡ has_area order }
    requires area { has_area order ≡ true → Covers lease.now area.first area.last }
    requires total { total ≡ length
        (all_words order area.first area.last lease.now
        (fixture_of device.now) (progress_of device.now)) }
    ensures { option_to_list result ≡ take 1 (drop next
        (all_words order area.first area.last lease.now
        (fixture_of device.now) (progress_of device.now))) }
{
    if next < total {
        Some(word_at(device, order, area, lease, next))
    } else {
        None
    }
}

impl Flight {
    ghost use Rattle.kdf_transfer.specs.InFlight.{moved_by, ended_progress};
    ghost use Rattle.kdf_transfer.specs.Flying.{IsFlying, motion_of};

    /// Moves the next word.
    pub(crate) fn step(&mut self)
        requires flying { IsFlying self.old }
        requires more { self.old.moved < self.old.total }
        ensures flying { IsFlying self.new }
        ensures motion { motion_of self.new ≡ moved_by 1 (motion_of self.old) }
        ensures total { self.new.total ≡ self.old.total }
        ensures moved { self.new.moved ≡ self.old.moved + 1 }
    {
        let word = self.ring.pop();
        deliver(
            self.order,
            self.area,
            &mut self.lease,
            &mut self.block,
            self.moved,
            word,
        );
        self.moved += 1;
        let next = next_word(
            &self.device,
            self.order,
            self.area,
            &self.lease,
            self.moved + 7,
            self.total,
        );
        self.ring.refill(next);
    }

    /// Moves the next `n` words, or those that remain.
    pub(crate) fn run(&mut self, n: u16)
        requires { IsFlying self.old }
        ensures flying { IsFlying self.new }
        ensures motion { motion_of self.new ≡ moved_by n (motion_of self.old) }
        ensures total { self.new.total ≡ self.old.total }
    {
        for _i in 0..n.min(self.total - self.moved) {
            self.step();
        }
    }

    /// Moves the words that remain.
    pub(crate) fn run_out(&mut self)
        requires { IsFlying self.old }
        ensures flying { IsFlying self.new }
        ensures motion { motion_of self.new ≡ moved_by self.old.total (motion_of self.old) }
        ensures total { self.new.total ≡ self.old.total }
    {
        if self.order.is_input() {
            self.read_out();
        } else {
            self.write_out();
        }
    }

    /// Moves the words that remain of an input order.
    fn read_out(&mut self)
        requires flying { IsFlying self.old }
        requires input { is_input self.old.order ≡ true }
        ensures flying { IsFlying self.new }
        ensures motion { motion_of self.new ≡ moved_by self.old.total (motion_of self.old) }
        ensures total { self.new.total ≡ self.old.total }
    {
        match self.device.run_of_codes(self.order) {
            Some(codes) => {
                put_run(
                    codes,
                    self.order,
                    self.area,
                    &mut self.lease,
                    self.moved,
                    self.total,
                );
                self.moved = self.total;
                self.ring.clear();
            }
            None => self.run(self.total),
        }
    }

    /// Moves the words that remain of another order.
    fn write_out(&mut self)
        requires flying { IsFlying self.old }
        requires output { is_input self.old.order ≡ false }
        ensures flying { IsFlying self.new }
        ensures motion { motion_of self.new ≡ moved_by self.old.total (motion_of self.old) }
        ensures total { self.new.total ≡ self.old.total }
    {
        match &self.lease {
            Some(lease) => {
                push_run(lease, self.area, &mut self.block, self.moved, self.total);
                self.moved = self.total;
                self.ring.clear();
            }
            None => {}
        }
    }

    /// Gives all back once all words have moved.
    pub(crate) fn finish(self) -> (Device, Option<Lease>, Ring)
        requires flying { IsFlying self }
        requires all { self.moved ≡ self.total }
        ensures fixture { fixture_of result.0 ≡ fixture_of self.device }
        ensures progress { progress_of result.0 ≡ ended_progress (motion_of self) }
        ensures lease { result.1 ≡ self.lease }
        ensures ring { result.2 ≡ [] }
    {
        let Flight {
            mut device,
            order,
            area,
            lease,
            block,
            ring,
            total: _,
            moved: _,
        } = self;
        device.finish(order, words_in(order, area), block);
        (device, lease, ring)
    }

    /// Gives all back, with the device as it is.
    pub(crate) fn give_back(self) -> (Device, Option<Lease>, Ring)
        ensures fixture { fixture_of result.0 ≡ fixture_of self.device }
        ensures progress { progress_of result.0 ≡ progress_of self.device }
        ensures lease { result.1 ≡ self.lease }
        ensures ring { result.2 ≡ [] }
    {
        let Flight {
            device,
            order: _,
            area: _,
            lease,
            block: _,
            mut ring,
            total: _,
            moved: _,
        } = self;
        ring.clear();
        (device, lease, ring)
    }
}

/// Fills an empty ring with the first words.
pub(crate) fn fill(
    device: &Device,
    order: TransferOrder,
    area: Area,
    lease: &Option<Lease>,
    ring: &mut Ring,
    total: u16,
)
    requires kind { (fixture_of device.now).kind ≡ kind_of order }
    requires lease { is_some lease.now ≡ has_area order }
    requires area { has_area order ≡ true → Covers lease.now area.first area.last }
    requires total { total ≡ length
        (all_words order area.first area.last lease.now
        (fixture_of device.now) (progress_of device.now)) }
    requires ring { ring.old ≡ [] }
    ensures { ring.new ≡ take 8
        (all_words order area.first area.last lease.now
        (fixture_of device.now) (progress_of device.now)) }
{
    for i in 0..8 {
        ring.refill(next_word(device, order, area, lease, i, total));
    }
}
