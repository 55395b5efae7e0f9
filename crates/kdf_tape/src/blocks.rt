//! The blocks of a tape.
ghost use Rattle.std.specs.Prelude.{◌≡◌, ◌+◌, ◌-◌, ◌++◌, ◌∷◌, [], ◌<◌, ◌≤◌, length, take, IfOk, OnOk, OnErr};
ghost use Rattle.std.specs.Vec.{vec_capacity};
ghost use Rattle.kdf_tape.specs.Sharing.{blocks_in, room_in};

use crate::TapeBlock;
use std::alloc::{AllocError, Global};
use std::rc::Rc;

/// The blocks of a tape: its own, or shared with its copies for as long as no block is added.
#[derive(Drop)]
pub(crate) enum Blocks {
    Own(Vec<TapeBlock>),
    Shared(Rc<Vec<TapeBlock>>),
}

impl Blocks {
    /// Blocks that copies share.
    pub(crate) fn shared(alloc: Global, blocks: Vec<TapeBlock>) -> Result<Blocks, AllocError>
        ensures { IfOk result (λ b. blocks_in b ≡ blocks.items) }
    {
        Ok(Blocks::Shared(Rc::new(alloc, blocks)?))
    }

    /// The blocks, the first one first.
    pub(crate) fn list(&self) -> &[TapeBlock]
        ensures { result.now ≡ blocks_in self.now }
    {
        match self {
            Blocks::Own(blocks) => blocks,
            Blocks::Shared(blocks) => blocks.as_ref(),
        }
    }

    /// The same blocks. Only those that aren't shared take memory.
    pub(crate) fn copy(&self, alloc: Global) -> Result<Blocks, AllocError>
        ensures { IfOk result (λ b. blocks_in b ≡ blocks_in self.now) }
    {
        match self {
            Blocks::Own(blocks) => Ok(Blocks::Own(copied(alloc, blocks, 0)?)),
            Blocks::Shared(blocks) => Ok(Blocks::Shared(blocks.clone()?)),
        }
    }

    /// Makes room for one block more. What was shared is the tape's own from then on. Without memory all stays as it was.
    pub(crate) fn reserve(&mut self) -> Result<(), AllocError>
        ensures same { blocks_in self.new ≡ blocks_in self.old }
        ensures ok { OnOk result (0 < room_in self.new) }
        ensures err { OnErr result (room_in self.new ≡ room_in self.old) }
    {
        match self {
            Blocks::Own(blocks) => blocks.reserve(1),
            Blocks::Shared(blocks) => {
                let shared = Rc::as_ref(blocks);
                let own = copied(*shared.allocator(), shared, 1)?;
                *self = Blocks::Own(own);
                Ok(())
            }
        }
    }

    /// Puts a block in place of those from a place on. Its room was reserved, and it takes no memory.
    pub(crate) fn write(&mut self, place: usize, block: TapeBlock)
        requires room { 0 < room_in self.old }
        requires inside { place ≤ length (blocks_in self.old) }
        ensures blocks { blocks_in self.new ≡ take place (blocks_in self.old) ++ block ∷ [] }
        ensures room { room_in self.new ≡ room_in self.old + length (blocks_in self.old) - (place + 1) }
    {
        match self {
            Blocks::Own(blocks) => {
                blocks.truncate(place);
                blocks.push_reserved(block);
            }
            Blocks::Shared(_) => unreachable!(),
        }
    }
}

/// A list of the same blocks, with room for `more`.
fn copied(alloc: Global, blocks: &[TapeBlock], more: usize) -> Result<Vec<TapeBlock>, AllocError>
    requires { more ≤ 1 }
    ensures items { IfOk result (λ v. v.items ≡ blocks.now) }
    ensures room { IfOk result (λ v. length blocks.now + more ≤ vec_capacity v) }
{
    let mut copied = Vec::with_capacity(alloc, blocks.len() + more)?;
    for block in blocks {
        copied.push(block.copy(alloc)?)?;
    }
    Ok(copied)
}
