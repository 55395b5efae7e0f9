//! Store orders and SET.
ghost use Rattle.std.specs.Prelude.{◌≡◌, ◌<◌, ◌^◌, IfOk};
ghost use Rattle.kdf_syllable.specs.Spelling.{IsOrder};
ghost use Rattle.std.specs.Result.{result_ok};
ghost use Rattle.kdf_decode.specs.Decoding.{decoded_store, direct};

use crate::decoding::BadCode;
use kdf_syllable::Order;

/// A fetch or a store at an address, or SET.
#[inline(always)]
pub fn decode_store(first: u8, second: u8, third: u8) -> Result<Order, BadCode>
    ensures decoded { result_ok result ≡ decoded_store first second third }
    ensures order { IfOk result (λ o. IsOrder o) }
{
    match first {
        0xc0..=0xdf => Ok(direct(
            u32::from(first) * 65536 + u32::from(second) * 256 + u32::from(third),
        )),
        0xe0 => Ok(Order::Set {
            constant: u16::from(second) * 256 + u16::from(third),
        }),
        _ => Err(BadCode),
    }
}

/// The fetch or the store of 24 bits.
#[inline(always)]
fn direct(bits: u32) -> Order
    ensures { result ≡ direct bits }
{
    Order::Direct {
        t: bits / (1 << 20) % 2 == 1,
        u: bits / (1 << 19) % 2 == 1,
        q: (bits / (1 << 15) % (1 << 4)) as u8,
        a: (bits % (1 << 15)) as u16,
    }
}
