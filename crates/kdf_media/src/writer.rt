//! A device that keeps blocks: a paper tape punch or a line printer.
ghost use Rattle.std.specs.Prelude.{◌≡◌, ◌+◌, ◌^◌, ◌<◌, ◌∷◌, ◌++◌, [], All, false, length, OnOk, OnErr, IfOk};

use crate::Block;
use crate::blocks::Blocks;
use crate::cuts::{Cut, Lines, Uncut};
use std::alloc::{AllocError, Global};
use std::marker::Model;

/// A punch, which keeps whole blocks.
pub type Punch = Writer<Uncut>;

/// A printer, which keeps lines of 160 characters.
pub type Printer = Writer<Lines>;

/// A device with its finished blocks, fewer than 2^32 of codes below 64, each cut as its kind does.
#[derive(Drop)]
pub struct Writer<C: Cut> {
    blocks: Blocks,
    cut: C,
}

impl<C: Cut> Model for Writer<C> {
    ghost use Rattle.kdf_media.specs.Media.{BlocksState};

    ghost Value = { BlocksState };

    ghost view = { λ d. d.blocks };
}

impl Writer<Uncut> {
    /// A punch without blocks, which has no memory yet.
    pub fn new(alloc: Global) -> Punch
        ensures { result.blocks ≡ [] }
    {
        Writer {
            blocks: Blocks::new(alloc),
            cut: Uncut,
        }
    }
}

impl Writer<Lines> {
    /// A printer without blocks, which has no memory yet.
    pub fn new(alloc: Global) -> Printer
        ensures { result.blocks ≡ [] }
    {
        Writer {
            blocks: Blocks::new(alloc),
            cut: Lines,
        }
    }
}

impl<C: Cut> Writer<C> {
    /// How many blocks are finished.
    pub fn place(&self) -> u32
        ensures { result ≡ length self.now.blocks }
    {
        self.blocks.count()
    }

    /// Its flag, which no order of such a device sets.
    pub fn flag(&self) -> bool
        ensures { result ≡ false }
    {
        false
    }

    /// The finished blocks, the first one first.
    pub fn blocks(&self) -> &[Block]
        ensures { result.now ≡ self.now.blocks }
    {
        self.blocks.as_slice()
    }

    /// Another device with the same blocks.
    pub fn copy(&self, alloc: Global) -> Result<Writer<C>, AllocError>
        ensures { IfOk result (λ d. d.blocks ≡ self.now.blocks) }
    {
        let blocks = self.blocks.copy(alloc)?;
        Ok(Writer {
            blocks,
            cut: self.cut,
        })
    }

    /// Makes room for one block more. Without memory all stays as it was.
    pub fn reserve(&mut self) -> Result<(), AllocError>
        ensures blocks { self.new.blocks ≡ self.old.blocks }
        ensures ok { OnOk result (0 < self.new.room) }
        ensures err { OnErr result (self.new ≡ self.old) }
    {
        self.blocks.reserve()
    }

    /// Adds what is kept of a block of codes below 64. Its room was reserved, and it takes no memory.
    pub fn finish(&mut self, mut block: Vec<u8>)
        requires room { 0 < self.old.room }
        requires few { length self.old.blocks + 1 < 2 ^ 32 }
        requires small { All (λ c. c < 64) block.items }
        ensures blocks { self.new.blocks ≡ self.old.blocks ++ C.kept block.items ∷ [] }
        ensures room { self.new.room + 1 ≡ self.old.room }
    {
        C::cut(&mut block);
        self.blocks.push(Block::new(block));
    }
}
