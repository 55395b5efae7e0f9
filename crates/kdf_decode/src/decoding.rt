//! From syllables to orders.
ghost use Rattle.std.specs.Prelude.{◌≡◌, ◌↔◌, [], ◌∷◌, OnErr};
ghost use Rattle.std.specs.Result.{result_ok};
ghost use Rattle.kdf_syllable.specs.Spelling.{IsOrder, spelling};
ghost use Rattle.kdf_syllable.specs.declared.order.Order.{Order};
ghost use Rattle.kdf_decode.specs.Decoding.{BeginsWith, first_decoded};

use crate::jumps::decode_jump;
use crate::one_syllable::decode_one;
use crate::stores::decode_store;
use crate::two_syllables::decode_two;
use kdf_syllable::Order;

/// No order has this spelling.
#[derive(Clone, Copy, PartialEq, Eq)]
pub struct BadCode;

/// The order whose spelling begins the bytes, or `BadCode` where there is none. What stands after
/// the spelling is not looked at.
#[inline(always)]
pub fn decode(bytes: &[u8; 3]) -> Result<Order, BadCode>
    ensures decoded { result_ok result ≡ first_decoded bytes.now }
    ensures ok { (o : Order) → (result ≡ Ok o) ↔ (IsOrder o × BeginsWith bytes.now (spelling o)) }
    ensures bad { OnErr result ((o : Order) → IsOrder o → BeginsWith bytes.now (spelling o) → ⊥) }
{
    let [first, second, third] = *bytes;
    by_first(first, second, third)
}

/// The order that three syllables begin with.
#[tactic(auto, unfolding(crate::specs::Decoding::decoded))]
#[inline(always)]
fn by_first(first: u8, second: u8, third: u8) -> Result<Order, BadCode>
    ensures { result_ok result ≡ first_decoded (first ∷ second ∷ third ∷ []) }
{
    match first {
        0x00..=0x3f => decode_one(first),
        0x40..=0x7f => decode_two(first, second),
        0x80..=0xbf => decode_jump(first, second, third),
        0xc0..=0xff => decode_store(first, second, third),
    }
}
