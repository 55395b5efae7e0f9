//! The finished blocks of a device, and the memory for more.
ghost use Rattle.std.specs.Prelude.{◌≡◌, ◌+◌, ◌-◌, ◌^◌, ◌<◌, ◌≤◌, ◌∷◌, ◌++◌, [], length, OnOk, OnErr, IfOk};

use crate::Block;
use std::alloc::{AllocError, Global};
use std::marker::Model;

/// Fewer than 2^32 finished blocks, in the order in which they were finished.
#[derive(Drop)]
pub struct Blocks {
    blocks: Vec<Block>,
}

impl Model for Blocks {
    ghost use Rattle.std.specs.Prelude.{◌-◌, ◌^◌, ◌<◌, length, vec_len};
    ghost use Rattle.std.specs.Vec.{vec_capacity};
    ghost use Rattle.kdf_media.specs.Media.{BlocksState};

    ghost Value = { BlocksState };

    ghost view = { λ b. record { blocks = b.blocks.items; room = vec_capacity b.blocks - vec_len b.blocks } };

    ghost invariant = { λ b. length b.blocks.items < 2 ^ 32 };
}

impl Blocks {
    /// No blocks.
    pub fn new(alloc: Global) -> Blocks
        ensures { result.blocks ≡ [] }
    {
        Blocks {
            blocks: Vec::new(alloc),
        }
    }

    /// How many blocks there are.
    pub fn count(&self) -> u32
        ensures { result ≡ length self.now.blocks }
    {
        self.blocks.len() as u32
    }

    /// The blocks.
    pub fn as_slice(&self) -> &[Block]
        ensures { result.now ≡ self.now.blocks }
    {
        &self.blocks
    }

    /// The same blocks once more.
    pub fn copy(&self, alloc: Global) -> Result<Blocks, AllocError>
        ensures { IfOk result (λ b. b.blocks ≡ self.now.blocks) }
    {
        let mut blocks = Vec::new(alloc);
        for block in self.blocks.iter() {
            blocks.push(block.copy(alloc)?)?;
        }
        Ok(Blocks { blocks })
    }

    /// Makes room for one block more.
    pub fn reserve(&mut self) -> Result<(), AllocError>
        ensures blocks { self.new.blocks ≡ self.old.blocks }
        ensures ok { OnOk result (0 < self.new.room) }
        ensures err { OnErr result (self.new.room ≡ self.old.room) }
    {
        self.blocks.reserve(1)
    }

    /// Adds a block, for which there is room.
    pub fn push(&mut self, block: Block)
        requires room { 0 < self.old.room }
        requires few { length self.old.blocks + 1 < 2 ^ 32 }
        ensures blocks { self.new.blocks ≡ self.old.blocks ++ block ∷ [] }
        ensures room { self.new.room + 1 ≡ self.old.room }
    {
        self.blocks.push_reserved(block);
    }
}
