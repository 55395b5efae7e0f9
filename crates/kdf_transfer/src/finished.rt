//! Devices after an order, each of its kind.
ghost use Rattle.std.specs.Prelude.{◌≡◌, ◌+◌, ◌%◌, ◌^◌, ◌<◌, ◌≤◌, All, length};
ghost use Rattle.kdf_transfer.specs.AtOnce.{blocks_out, finished, kind_of};
ghost use Rattle.kdf_transfer.specs.Devices.{fixture_of, progress_of, reader, punch, cards, printer, tape};

use crate::TransferOrder;
use crate::end_word::cut;
use kdf_media::{Cards, Printer, Punch, Reader};
use kdf_tape::{MagTape, TapeBlock};

/// A reader after an order over an area of so many words.
#[tactic(auto, unfolding(crate::specs::AtOnce::finished, kdf_media::specs::Media::after_read))]
pub(crate) fn finish_reader(device: &mut Reader, order: TransferOrder, words: u16, block: Vec<u8>)
    requires kind { (fixture_of (reader device.old)).kind ≡ kind_of order }
    ensures fixture { fixture_of (reader device.new) ≡ fixture_of (reader device.old) }
    ensures progress { progress_of (reader device.new) ≡
        finished order words block.items
        (fixture_of (reader device.old)) (progress_of (reader device.old)) }
{
    match order {
        TransferOrder::Prq => device.finish_read(words, false),
        TransferOrder::Preq => device.finish_read(words, true),
        _ => unreachable!(),
    }
}

/// A punch after an order that moved these characters to it.
#[tactic(auto, unfolding(crate::specs::AtOnce::finished), using(crate::proofs::EndMessage::small_through))]
pub(crate) fn finish_punch(device: &mut Punch, order: TransferOrder, words: u16, mut block: Vec<u8>)
    requires kind { (fixture_of (punch device.old)).kind ≡ kind_of order }
    requires room { blocks_out order ≤ device.old.room }
    requires few { length device.old.blocks + blocks_out order < 2 ^ 32 }
    requires small { All (λ c. c < 64) block.items }
    ensures fixture { fixture_of (punch device.new) ≡ fixture_of (punch device.old) }
    ensures progress { progress_of (punch device.new) ≡
        finished order words block.items
        (fixture_of (punch device.old)) (progress_of (punch device.old)) }
{
    match order {
        TransferOrder::Pwq => device.finish(block),
        TransferOrder::Pweq => {
            cut(&mut block);
            device.finish(block);
        }
        _ => unreachable!(),
    }
}

/// A card reader after its order.
#[tactic(auto, unfolding(crate::specs::AtOnce::finished, kdf_media::specs::Media::after_card))]
pub(crate) fn finish_cards(device: &mut Cards, order: TransferOrder, words: u16, block: Vec<u8>)
    requires kind { (fixture_of (cards device.old)).kind ≡ kind_of order }
    ensures fixture { fixture_of (cards device.new) ≡ fixture_of (cards device.old) }
    ensures progress { progress_of (cards device.new) ≡
        finished order words block.items
        (fixture_of (cards device.old)) (progress_of (cards device.old)) }
{
    match order {
        TransferOrder::Crq => device.finish_read(),
        _ => unreachable!(),
    }
}

/// A printer after an order that moved these characters to it.
#[tactic(auto, unfolding(crate::specs::AtOnce::finished), using(crate::proofs::EndMessage::small_through))]
pub(crate) fn finish_printer(
    device: &mut Printer,
    order: TransferOrder,
    words: u16,
    mut block: Vec<u8>,
)
    requires kind { (fixture_of (printer device.old)).kind ≡ kind_of order }
    requires room { blocks_out order ≤ device.old.room }
    requires few { length device.old.blocks + blocks_out order < 2 ^ 32 }
    requires small { All (λ c. c < 64) block.items }
    ensures fixture { fixture_of (printer device.new) ≡ fixture_of (printer device.old) }
    ensures progress { progress_of (printer device.new) ≡
        finished order words block.items
        (fixture_of (printer device.old)) (progress_of (printer device.old)) }
{
    match order {
        TransferOrder::Lpq => device.finish(block),
        TransferOrder::Lpeq => {
            cut(&mut block);
            device.finish(block);
        }
        _ => unreachable!(),
    }
}

/// A tape after an order that moved the words of these characters to it.
#[tactic(auto, unfolding(crate::specs::AtOnce::finished, kdf_tape::specs::Tape::after_skip, kdf_tape::specs::Tape::after_write, kdf_tape::specs::Tape::rewound))]
pub(crate) fn finish_tape(device: &mut MagTape, order: TransferOrder, words: u16, block: Vec<u8>)
    requires kind { (fixture_of (tape device.old)).kind ≡ kind_of order }
    requires room { blocks_out order ≤ device.old.room }
    requires few { device.old.place + blocks_out order < 2 ^ 32 }
    requires small { All (λ c. c < 64) block.items }
    requires whole { length block.items % 8 ≡ 0 }
    ensures fixture { fixture_of (tape device.new) ≡ fixture_of (tape device.old) }
    ensures progress { progress_of (tape device.new) ≡
        finished order words block.items
        (fixture_of (tape device.old)) (progress_of (tape device.old)) }
{
    match order {
        TransferOrder::Mfrq => device.finish_read(true),
        TransferOrder::Mbrq => device.finish_read(false),
        TransferOrder::Mwq => device.finish_write(TapeBlock::new(block, false)),
        TransferOrder::Mlwq => device.finish_write(TapeBlock::new(block, true)),
        TransferOrder::Mrwdq => device.rewind(),
        TransferOrder::Mfskq(count) => device.finish_skip(count, true),
        TransferOrder::Mbskq(count) => device.finish_skip(count, false),
        _ => unreachable!(),
    }
}
