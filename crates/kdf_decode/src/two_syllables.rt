//! Orders of two syllables. The second one is two numbers below 16, or the amount of a shift.
ghost use Rattle.std.specs.Prelude.{◌≡◌, IfOk};
ghost use Rattle.kdf_syllable.specs.Spelling.{IsOrder};
ghost use Rattle.std.specs.Result.{result_ok};
ghost use Rattle.kdf_decode.specs.Decoding.{decoded_two, decoded_shift};

use crate::decoding::BadCode;
use kdf_syllable::{Amount, Order};

/// The order of two syllables, the first of which is its code.
#[inline(always)]
pub fn decode_two(code: u8, second: u8) -> Result<Order, BadCode>
    ensures decoded { result_ok result ≡ decoded_two code second }
    ensures order { IfOk result (λ o. IsOrder o) }
{
    let (high, low) = (second / 16, second % 16);
    match code {
        0x40..=0x4f => Ok(Order::Indirect {
            code,
            k: high,
            q: low,
        }),
        0x50..=0x62 | 0x6f if low == 0 => Ok(Order::Single { code, q: high }),
        0x63..=0x69 => Ok(Order::Copies {
            code,
            q: high,
            k: low,
        }),
        0x6a..=0x6e => shift(code, second),
        0x70..=0x7d if low == 0 => Ok(Order::Device { code, q: high }),
        0x7e if low <= 5 => Ok(Order::Query { b: low, q: high }),
        _ => Err(BadCode),
    }
}

/// A shift: by a number of places where the second syllable is odd, else by a counter.
#[inline(always)]
fn shift(code: u8, second: u8) -> Result<Order, BadCode>
    ensures { result_ok result ≡ decoded_shift code second }
{
    let by = if second % 2 == 1 {
        Amount::Fixed {
            n: second.cast_signed() >> 1,
        }
    } else if second % 16 == 0 {
        Amount::Count { q: second / 16 }
    } else {
        return Err(BadCode);
    };
    Ok(Order::Shift { code, by })
}
