//! Orders of one syllable.
ghost use Rattle.std.specs.Prelude.{◌≡◌, IfOk};
ghost use Rattle.kdf_syllable.specs.Spelling.{IsOrder};
ghost use Rattle.std.specs.Result.{result_ok};
ghost use Rattle.kdf_decode.specs.Decoding.{decoded_one};

use crate::decoding::BadCode;
use kdf_syllable::Order;

/// The order of one syllable, its code.
#[inline(always)]
pub fn decode_one(code: u8) -> Result<Order, BadCode>
    ensures decoded { result_ok result ≡ decoded_one code }
    ensures order { IfOk result (λ o. IsOrder o) }
{
    match code {
        0x01..=0x12 | 0x14..=0x21 => Ok(Order::Plain { code }),
        _ => Err(BadCode),
    }
}
