//! The characters of an area, up to its first End Message.
ghost use Rattle.std.specs.Prelude.{◌≡◌, ◌+◌, ◌-◌, ◌*◌, ◌<◌, All};
ghost use Rattle.kdf_media.specs.Media.{through_end};

use crate::end_word::cut;
use kdf_media::Block;

/// How many characters an area has, from its first to its last address.
pub fn characters_in(first: u16, last: u16) -> usize
    ensures { result ≡ 8 * (last - first + 1) }
{
    8 * (usize::from(last.saturating_sub(first)) + 1)
}

/// The characters up to and with the first End Message, or all.
#[tactic(auto, using(crate::proofs::EndMessage::small_through))]
pub fn up_to_end(mut block: Vec<u8>) -> Block
    requires { All (λ c. c < 64) block.items }
    ensures { result ≡ through_end block.items }
{
    cut(&mut block);
    Block::new(block)
}
