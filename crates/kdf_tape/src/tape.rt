//! A tape.
ghost use Rattle.std.specs.Prelude.{◌≡◌, ◌+◌, ◌^◌, ◌<◌, ◌≤◌, true, false, length, OnOk, OnErr, IfOk};
ghost use Rattle.std.specs.Option.{option_copied};
ghost use Rattle.kdf_tape.specs.Sharing.{blocks_in, room_in};
ghost use Rattle.kdf_tape.specs.Tape.{after_skip, after_write, mark_of, nearest, rewound};

use crate::TapeBlock;
use crate::blocks::Blocks;
use kdf_word::Word;
use std::alloc::{AllocError, Global};
use std::marker::Model;

/// A tape of fewer than 2^32 blocks.
#[derive(Drop)]
pub struct MagTape {
    label: Word,
    blocks: Blocks,
    place: usize,
    flag: bool,
    mark: bool,
}

impl Model for MagTape {
    ghost use Rattle.kdf_tape.specs.Sharing.{blocks_in, room_in};
    ghost use Rattle.kdf_tape.specs.Tape.{TapeState, IsInside};

    ghost Value = { TapeState };

    ghost view = { λ t. record {
      label = t.label;
      blocks = blocks_in t.blocks;
      place = t.place;
      flag = t.flag;
      mark = t.mark;
      room = room_in t.blocks;
    } };

    ghost invariant = { λ t. IsInside (blocks_in t.blocks) t.place };
}

impl MagTape {
    /// A tape at its begin, with fewer than 2^32 blocks.
    pub fn new(label: Word, blocks: Vec<TapeBlock>) -> MagTape
        requires { length blocks.items < 2 ^ 32 }
        ensures { result ≡
            record { label = label; blocks = blocks.items; place = 0; flag = false; mark = false; room = result.room } }
    {
        at_begin(label, Blocks::Own(blocks))
    }

    /// The same, where copies share the blocks: one takes no memory for them before it is to be written.
    pub fn shared(alloc: Global, label: Word, blocks: Vec<TapeBlock>) -> Result<MagTape, AllocError>
        requires { length blocks.items < 2 ^ 32 }
        ensures { IfOk result (λ t. t ≡
            record { label = label; blocks = blocks.items; place = 0; flag = false; mark = false; room = t.room }) }
    {
        Ok(at_begin(label, Blocks::shared(alloc, blocks)?))
    }

    /// Its label.
    pub fn label(&self) -> Word
        ensures { result ≡ self.now.label }
    {
        self.label
    }

    /// How many blocks lie before the place.
    pub fn place(&self) -> u32
        ensures value { result ≡ self.now.place }
        ensures inside { self.now.place ≤ length self.now.blocks }
        ensures few { length self.now.blocks < 2 ^ 32 }
    {
        self.place as u32
    }

    /// Whether the last order found fewer blocks than it was to pass.
    pub fn flag(&self) -> bool
        ensures { result ≡ self.now.flag }
    {
        self.flag
    }

    /// The mark of the block that was passed last.
    pub fn mark(&self) -> bool
        ensures { result ≡ self.now.mark }
    {
        self.mark
    }

    /// Its blocks, the first one first.
    pub fn blocks(&self) -> &[TapeBlock]
        ensures { result.now ≡ self.now.blocks }
    {
        self.blocks.list()
    }

    /// Another tape in the same state.
    pub fn copy(&self, alloc: Global) -> Result<MagTape, AllocError>
        ensures { IfOk result (λ t. t ≡ record self.now { room = t.room }) }
    {
        Ok(MagTape {
            label: self.label,
            blocks: self.blocks.copy(alloc)?,
            place: self.place,
            flag: self.flag,
            mark: self.mark,
        })
    }

    /// Makes room for one block more. Without memory all stays as it was.
    pub fn reserve(&mut self) -> Result<(), AllocError>
        ensures same { self.new ≡ record self.old { room = self.new.room } }
        ensures ok { OnOk result (0 < self.new.room) }
        ensures err { OnErr result (self.new ≡ self.old) }
    {
        self.blocks.reserve()
    }

    /// The block after the place.
    pub fn forward(&self) -> Option<&TapeBlock>
        ensures { option_copied result ≡ nearest true self.now }
    {
        self.blocks.list()[self.place..].first()
    }

    /// The block before the place.
    #[tactic(auto, using(crate::proofs::Passing::last_is))]
    pub fn backward(&self) -> Option<&TapeBlock>
        ensures { option_copied result ≡ nearest false self.now }
    {
        self.blocks.list()[..self.place].last()
    }

    /// Its state after MFRQ, or MBRQ where not `forward`.
    pub fn finish_read(&mut self, forward: bool)
        ensures { self.new ≡ after_skip forward 1 self.old }
    {
        self.finish_skip(1, forward);
    }

    /// Its state after MFSKQ of so many blocks, or MBSKQ where not `forward`.
    pub fn finish_skip(&mut self, count: u16, forward: bool)
        ensures { self.new ≡ after_skip forward count self.old }
    {
        if forward {
            self.pass_forward(usize::from(count));
        } else {
            self.pass_backward(usize::from(count));
        }
    }

    /// Its state after MWQ, or MLWQ where the block has the mark. Its room was reserved, and it takes no memory.
    #[tactic(auto, unfolding(crate::specs::Tape::after_write))]
    pub fn finish_write(&mut self, block: TapeBlock)
        requires room { 0 < self.old.room }
        requires few { self.old.place + 1 < 2 ^ 32 }
        ensures { self.new ≡ after_write block self.old }
    {
        self.mark = block.mark();
        self.flag = false;
        self.blocks.write(self.place, block);
        self.place += 1;
    }

    /// Its state after MRWDQ.
    #[tactic(auto, unfolding(crate::specs::Tape::rewound))]
    pub fn rewind(&mut self)
        ensures { self.new ≡ rewound self.old }
    {
        self.place = 0;
        self.flag = false;
        self.mark = false;
    }

    #[tactic(auto, unfolding(crate::specs::Tape::after_skip), using(crate::proofs::Passing::last_is))]
    fn pass_forward(&mut self, count: usize)
        ensures { self.new ≡ after_skip true count self.old }
    {
        let ahead = &self.blocks.list()[self.place..];
        let passed = &ahead[..count.min(ahead.len())];
        let (number, mark) = (passed.len(), mark_of(passed.last()));
        self.place += number;
        self.flag = number < count;
        self.mark = mark;
    }

    #[tactic(auto, unfolding(crate::specs::Tape::after_skip), using(crate::proofs::Passing::back))]
    fn pass_backward(&mut self, count: usize)
        ensures { self.new ≡ after_skip false count self.old }
    {
        let behind = &self.blocks.list()[..self.place];
        let passed = &behind[behind.len().saturating_sub(count)..];
        let (number, mark) = (passed.len(), mark_of(passed.first()));
        self.place -= number;
        self.flag = number < count;
        self.mark = mark;
    }
}

/// A tape of these blocks at its begin.
fn at_begin(label: Word, blocks: Blocks) -> MagTape
    requires { length (blocks_in blocks) < 2 ^ 32 }
    ensures { result ≡
        record { label = label; blocks = blocks_in blocks; place = 0; flag = false; mark = false; room = room_in blocks } }
{
    MagTape {
        label,
        blocks,
        place: 0,
        flag: false,
        mark: false,
    }
}

/// The mark of a block, none where there is no block.
fn mark_of(block: Option<&TapeBlock>) -> bool
    ensures { result ≡ mark_of (option_copied block.entry) }
{
    match block {
        Some(block) => block.mark(),
        None => false,
    }
}
