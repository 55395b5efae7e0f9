//! Jumps.
ghost use Rattle.std.specs.Prelude.{◌≡◌, IfOk};
ghost use Rattle.kdf_syllable.specs.Spelling.{IsOrder};
ghost use Rattle.std.specs.Result.{result_ok};
ghost use Rattle.kdf_decode.specs.Decoding.{decoded_jump};

use crate::decoding::BadCode;
use kdf_syllable::Order;

/// How many words a target can name. Above them stands the number of a syllable.
const WORDS: u16 = 8192;

/// A jump, or the return from a subroutine.
#[inline(always)]
pub fn decode_jump(first: u8, second: u8, third: u8) -> Result<Order, BadCode>
    ensures decoded { result_ok result ≡ decoded_jump first second third }
    ensures order { IfOk result (λ o. IsOrder o) }
{
    let target = u16::from(second) * 256 + u16::from(third);
    match first {
        0x80..=0xb1 if target / WORDS < 6 => Ok(Order::Jump {
            c: first - 0x80,
            target,
        }),
        0xb2 if second == 0 => Ok(Order::Exit { n: third }),
        _ => Err(BadCode),
    }
}
