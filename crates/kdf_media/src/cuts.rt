//! What a device keeps of a block.
ghost use Rattle.std.specs.Prelude.{◌≡◌, ◌<◌, ℕ, List, All};
ghost use Rattle.kdf_media.specs.Media.{printed};

use crate::printed;

/// How a device cuts a block before it keeps it.
pub trait Cut: Copy + Drop {
    ghost kept: { List ℕ → List ℕ };

    /// Cuts a block of codes below 64, in its own memory.
    fn cut(block: &mut Vec<u8>)
        requires { All (λ c. c < 64) block.old.items }
        ensures value { block.new.items ≡ kept block.old.items }
        ensures small { All (λ c. c < 64) block.new.items };
}

/// Keeps the whole block.
#[derive(Clone, Copy)]
pub struct Uncut;

impl Cut for Uncut {
    ghost kept = { λ codes. codes };

    fn cut(_block: &mut Vec<u8>) {}
}

/// Keeps what a line printer prints.
#[derive(Clone, Copy)]
pub struct Lines;

impl Cut for Lines {
    ghost kept = { printed };

    #[tactic(auto, using(crate::proofs::Runs::printed_codes))]
    fn cut(block: &mut Vec<u8>) {
        printed::cut(block);
    }
}
