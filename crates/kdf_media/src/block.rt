//! A finished block.
ghost use Rattle.std.specs.Prelude.{◌≡◌, ◌<◌, All, IfOk};

use std::alloc::{AllocError, Global};
use std::marker::Model;

/// A block of characters, which contracts see as a list of codes, each below 64.
#[derive(Drop)]
pub struct Block {
    codes: Vec<u8>,
}

impl Model for Block {
    ghost use Rattle.std.specs.Prelude.{◌<◌, List, ℕ, All};

    ghost Value = { List ℕ };

    ghost view = { λ b. b.codes.items };

    ghost invariant = { λ b. All (λ c. c < 64) b.codes.items };
}

impl Block {
    /// The block of these codes, each below 64.
    pub fn new(codes: Vec<u8>) -> Block
        requires { All (λ c. c < 64) codes.items }
        ensures { result ≡ codes.items }
    {
        Block { codes }
    }

    /// Its codes, each below 64.
    pub fn codes(&self) -> &[u8]
        ensures value { result.now ≡ self.now }
        ensures below { All (λ c. c < 64) self.now }
    {
        &self.codes
    }

    /// Another block of the same codes.
    pub(crate) fn copy(&self, alloc: Global) -> Result<Block, AllocError>
        ensures { IfOk result (λ b. b ≡ self.now) }
    {
        let codes = Vec::from_slice(alloc, &self.codes)?;
        Ok(Block { codes })
    }
}
