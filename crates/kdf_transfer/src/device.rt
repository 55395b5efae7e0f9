//! Devices of any kind.
ghost use Rattle.std.specs.Prelude.{◌≡◌, ◌+◌, ◌%◌, ◌^◌, ◌<◌, ◌≤◌, true, All, length, reverse, slice_get, IfOk, IfSome, OnOk, Some};
ghost use Rattle.std.specs.Option.{option_copied};
ghost use Rattle.kdf_transfer.specs.AtOnce.{blocks_out, finished, given, is_input, kind_of, words_in};
ghost use Rattle.kdf_transfer.specs.Devices.{blank_fixture, fixture_of, has_label, is_wanted, new_progress, progress_of, room_of, test_of};
ghost use Rattle.kdf_transfer.specs.Runs.{IsRun};
ghost use Rattle.kdf_transfer.specs.Spare.{HasSpare};
ghost use Rattle.kdf_word.specs.Characters.{words_of};

use crate::finished::{finish_cards, finish_printer, finish_punch, finish_reader, finish_tape};
use crate::{Test, TransferOrder, Wanted};
use kdf_journal::Kind;
use kdf_media::{Cards, Printer, Punch, Reader};
use kdf_tape::{MagTape, TapeBlock};
use kdf_word::Word;
use std::alloc::{AllocError, Global};

/// A device.
#[derive(Drop)]
pub enum Device {
    /// A paper tape reader.
    Tr(Reader),
    /// A paper tape punch.
    Tp(Punch),
    /// A card reader.
    Cr(Cards),
    /// A line printer.
    Lp(Printer),
    /// A magnetic tape.
    Mt(MagTape),
}

impl Device {
    /// A device of a kind that has moved nothing, and has no medium and no label. It takes no memory.
    pub fn blank(alloc: Global, kind: Kind) -> Device
        ensures fixture { fixture_of result ≡ blank_fixture kind }
        ensures progress { progress_of result ≡ new_progress }
    {
        match kind {
            Kind::Tr => Device::Tr(Reader::new(Vec::new(alloc))),
            Kind::Tp => Device::Tp(Punch::new(alloc)),
            Kind::Cr => Device::Cr(Cards::new(Vec::new(alloc))),
            Kind::Lp => Device::Lp(Printer::new(alloc)),
            Kind::Mt => Device::Mt(MagTape::new(Word::new(0), Vec::new(alloc))),
        }
    }

    /// Its kind.
    pub fn kind(&self) -> Kind
        ensures { result ≡ (fixture_of self.now).kind }
    {
        match self {
            Device::Tr(_) => Kind::Tr,
            Device::Tp(_) => Kind::Tp,
            Device::Cr(_) => Kind::Cr,
            Device::Lp(_) => Kind::Lp,
            Device::Mt(_) => Kind::Mt,
        }
    }

    /// How far it has come: characters, cards or blocks.
    pub fn place(&self) -> u32
        ensures { result ≡ (progress_of self.now).place }
    {
        match self {
            Device::Tr(reader) => reader.place(),
            Device::Tp(punch) => punch.place(),
            Device::Cr(cards) => cards.place(),
            Device::Lp(printer) => printer.place(),
            Device::Mt(tape) => tape.place(),
        }
    }

    /// Its flag.
    pub fn flag(&self) -> bool
        ensures { result ≡ (progress_of self.now).flag }
    {
        match self {
            Device::Tr(reader) => reader.flag(),
            Device::Tp(punch) => punch.flag(),
            Device::Cr(cards) => cards.flag(),
            Device::Lp(printer) => printer.flag(),
            Device::Mt(tape) => tape.flag(),
        }
    }

    /// Its mark, which only a tape may have.
    pub fn mark(&self) -> bool
        ensures { result ≡ (progress_of self.now).mark }
    {
        match self {
            Device::Mt(tape) => tape.mark(),
            _ => false,
        }
    }

    /// What a test of it tells.
    pub fn test(&self, what: Test) -> bool
        ensures { result ≡ test_of what (progress_of self.now) }
    {
        match what {
            Test::Flag => self.flag(),
            Test::Start => self.place() == 0,
            Test::Mark => self.mark(),
        }
    }

    /// Whether it is a tape with this label.
    pub fn has_label(&self, label: Word) -> bool
        ensures { result ≡ has_label label (Some (fixture_of self.now)) }
    {
        match self {
            Device::Mt(tape) => tape.label() == label,
            _ => false,
        }
    }

    /// Whether it is what a claim wants.
    pub fn is_wanted(&self, wanted: &Wanted) -> bool
        ensures { result ≡ is_wanted wanted.now (Some (fixture_of self.now)) }
    {
        match wanted {
            Wanted::Kinded(kind) => self.kind() == *kind,
            Wanted::Labelled(label) => self.has_label(*label),
        }
    }

    /// Another device in the same state.
    pub fn copy(&self, alloc: Global) -> Result<Device, AllocError>
        ensures fixture { IfOk result (λ d. fixture_of d ≡ fixture_of self.now) }
        ensures progress { IfOk result (λ d. progress_of d ≡ progress_of self.now) }
    {
        match self {
            Device::Tr(reader) => Ok(Device::Tr(reader.copy(alloc)?)),
            Device::Tp(punch) => Ok(Device::Tp(punch.copy(alloc)?)),
            Device::Cr(cards) => Ok(Device::Cr(cards.copy(alloc)?)),
            Device::Lp(printer) => Ok(Device::Lp(printer.copy(alloc)?)),
            Device::Mt(tape) => Ok(Device::Mt(tape.copy(alloc)?)),
        }
    }

    /// Makes room for one block more, where it keeps blocks. Its state stays as it was.
    pub fn reserve(&mut self) -> Result<(), AllocError>
        ensures fixture { fixture_of self.new ≡ fixture_of self.old }
        ensures progress { progress_of self.new ≡ progress_of self.old }
        ensures ok { OnOk result (0 < room_of self.new) }
    {
        match self {
            Device::Tr(_) | Device::Cr(_) => Ok(()),
            Device::Tp(punch) => punch.reserve(),
            Device::Lp(printer) => printer.reserve(),
            Device::Mt(tape) => tape.reserve(),
        }
    }

    /// Makes room for the blocks that an order adds. A device that has 2^32 - 1 blocks gets no more. Its state stays as it was.
    pub fn reserve_for(&mut self, order: TransferOrder) -> Result<(), AllocError>
        ensures fixture { fixture_of self.new ≡ fixture_of self.old }
        ensures progress { progress_of self.new ≡ progress_of self.old }
        ensures spare { OnOk result (HasSpare order self.new) }
    {
        let place = self.place();
        if !order.is_output() {
            return Ok(());
        }
        if place == u32::MAX {
            return Err(AllocError);
        }
        self.reserve()
    }

    /// Word `i` of those that an input order gives to an area without bound; None after them.
    #[tactic(auto, unfolding(crate::specs::AtOnce::given))]
    pub(crate) fn given_word(&self, order: TransferOrder, i: u16) -> Option<Word>
        requires kind { (fixture_of self.now).kind ≡ kind_of order }
        requires input { is_input order ≡ true }
        ensures { result ≡ slice_get (given order (fixture_of self.now) (progress_of self.now)) i }
    {
        match self {
            Device::Tr(reader) => reader.take_word(reader.place(), i),
            Device::Cr(cards) => cards.take_word(cards.place(), i),
            Device::Mt(tape) => match order {
                TransferOrder::Mfrq => word_of(tape.forward(), i),
                TransferOrder::Mbrq => word_from_end(tape.backward(), i),
                _ => unreachable!(),
            },
            Device::Tp(_) | Device::Lp(_) => unreachable!(),
        }
    }

    /// The characters of all the words that an input order gives, which stops at no End Message and reads no card.
    #[tactic(auto, unfolding(crate::specs::AtOnce::given))]
    pub(crate) fn run_of_codes(&self, order: TransferOrder) -> Option<&[u8]>
        requires { (fixture_of self.now).kind ≡ kind_of order }
        ensures { IfSome result (λ codes. IsRun order codes.now
            (given order (fixture_of self.now) (progress_of self.now))) }
    {
        match self {
            Device::Tr(reader) => match order {
                TransferOrder::Prq => Some(reader.codes_left()),
                _ => None,
            },
            Device::Mt(tape) => match order {
                TransferOrder::Mfrq => codes_in(tape.forward()),
                TransferOrder::Mbrq => codes_in(tape.backward()),
                _ => None,
            },
            Device::Tp(_) | Device::Cr(_) | Device::Lp(_) => None,
        }
    }

    /// Its state after an order with an area of so many words, which moved these characters to it. It takes no memory.
    pub(crate) fn finish(&mut self, order: TransferOrder, words: u16, block: Vec<u8>)
        requires kind { (fixture_of self.old).kind ≡ kind_of order }
        requires room { blocks_out order ≤ room_of self.old }
        requires few { (progress_of self.old).place + blocks_out order < 2 ^ 32 }
        requires small { All (λ c. c < 64) block.items }
        requires whole { length block.items % 8 ≡ 0 }
        ensures fixture { fixture_of self.new ≡ fixture_of self.old }
        ensures progress { progress_of self.new ≡
            finished order words block.items (fixture_of self.old) (progress_of self.old) }
    {
        match self {
            Device::Tr(reader) => finish_reader(reader, order, words, block),
            Device::Tp(punch) => finish_punch(punch, order, words, block),
            Device::Cr(cards) => finish_cards(cards, order, words, block),
            Device::Lp(printer) => finish_printer(printer, order, words, block),
            Device::Mt(tape) => finish_tape(tape, order, words, block),
        }
    }
}

/// The characters of a block, where there is one.
fn codes_in(block: Option<&TapeBlock>) -> Option<&[u8]>
    ensures words { IfSome result (λ codes. words_of codes.now ≡ words_in (option_copied block.entry)) }
    ensures below { IfSome result (λ codes. All (λ c. c < 64) codes.now) }
{
    match block {
        Some(block) => Some(block.codes()),
        None => None,
    }
}

/// Word `i` of a block; None after its words, or where there is no block.
fn word_of(block: Option<&TapeBlock>, i: u16) -> Option<Word>
    ensures { result ≡ slice_get (words_in (option_copied block.entry)) i }
{
    match block {
        Some(block) => word_within(block, i),
        None => None,
    }
}

/// Word `i` of a block, None after its words.
#[tactic(auto, using(crate::proofs::Blocks::word_there, std::proofs::lemmas::Option::slice_get_past))]
fn word_within(block: &TapeBlock, i: u16) -> Option<Word>
    ensures { result ≡ slice_get block.now.words i }
{
    if usize::from(i) < block.len() {
        Some(block.word(usize::from(i)))
    } else {
        None
    }
}

/// Word `i` of a block from its end; None before its words, or where there is no block.
fn word_from_end(block: Option<&TapeBlock>, i: u16) -> Option<Word>
    ensures { result ≡ slice_get (reverse (words_in (option_copied block.entry))) i }
{
    match block {
        Some(block) => word_before_end(block, i),
        None => None,
    }
}

/// Word `i` of a block from its end, None before its words.
#[tactic(auto, using(crate::proofs::Blocks::word_of_reverse, crate::proofs::Blocks::past_reverse))]
fn word_before_end(block: &TapeBlock, i: u16) -> Option<Word>
    ensures { result ≡ slice_get (reverse block.now.words) i }
{
    if usize::from(i) < block.len() {
        Some(block.word(block.len() - 1 - usize::from(i)))
    } else {
        None
    }
}
