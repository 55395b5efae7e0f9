//! Products and shifts of 128 bits out of those of 64, for WebAssembly, which has no others. Its compiler calls them by names of its own.
ghost use Rattle.std.specs.Prelude.{◌≡◌, ◌<◌, ◌*◌, ◌/◌, ◌%◌, ◌^◌};
ghost use Rattle.kdf_engine.specs.Wide.{arithmetic_shift, number};

/// How many numbers a limb of 32 bits tells apart.
const LIMB: u64 = 1 << 32;

/// A number of 128 bits, by its two halves.
#[derive(Clone, Copy)]
#[repr(C)]
pub struct Wide {
    pub low: u64,
    pub high: u64,
}

/// The product of two numbers, modulo 2^128.
#[unsafe(no_mangle)]
pub extern "C" fn kdf9_product(
    product: &mut Wide,
    low: u64,
    high: u64,
    other_low: u64,
    other_high: u64,
)
    ensures { number product.new.low product.new.high ≡ number low high * number other_low other_high % 2 ^ 128 }
{
    product.low = low.wrapping_mul(other_low);
    product.high = upper_half(low, other_low)
        .wrapping_add(low.wrapping_mul(other_high))
        .wrapping_add(high.wrapping_mul(other_low));
}

/// A number that is shifted to the left by `places` modulo 128. The bits that leave it are lost.
#[unsafe(no_mangle)]
pub extern "C" fn kdf9_shift_left(shifted: &mut Wide, low: u64, high: u64, places: u32)
    ensures { number shifted.new.low shifted.new.high ≡ number low high * 2 ^ (places % 128) % 2 ^ 128 }
{
    *shifted = to_the_left(low, high, places % 128);
}

/// A number that is shifted to the right by `places` modulo 128, without a sign.
#[unsafe(no_mangle)]
pub extern "C" fn kdf9_shift_right_logical(shifted: &mut Wide, low: u64, high: u64, places: u32)
    ensures { number shifted.new.low shifted.new.high ≡ number low high / 2 ^ (places % 128) }
{
    *shifted = to_the_right(low, high, places % 128);
}

/// A number that is shifted to the right by `places` modulo 128, with its sign.
#[unsafe(no_mangle)]
pub extern "C" fn kdf9_shift_right_arithmetic(shifted: &mut Wide, low: u64, high: u64, places: u32)
    ensures { number shifted.new.low shifted.new.high ≡ arithmetic_shift (number low high) (places % 128) }
{
    *shifted = to_the_right_with_sign(low, high, places % 128);
}

/// The upper half of the product of two halves.
fn upper_half(a: u64, b: u64) -> u64
    ensures { result ≡ a * b / 2 ^ 64 }
{
    let (a_low, a_high) = (a % LIMB, a / LIMB);
    let (b_low, b_high) = (b % LIMB, b / LIMB);
    let first = a_high * b_low + a_low * b_low / LIMB;
    let second = a_low * b_high + first % LIMB;
    a_high * b_high + first / LIMB + second / LIMB
}

/// A number that is shifted to the left. A half is shifted by 1 first, since no half can be shifted by 64.
fn to_the_left(low: u64, high: u64, places: u32) -> Wide
    requires { places < 128 }
    ensures { number result.low result.high ≡ number low high * 2 ^ places % 2 ^ 128 }
{
    if places < 64 {
        Wide {
            low: low << places,
            high: (high << places) + (low >> 1 >> (63 - places)),
        }
    } else {
        Wide {
            low: 0,
            high: low << (places - 64),
        }
    }
}

/// A number that is shifted to the right.
fn to_the_right(low: u64, high: u64, places: u32) -> Wide
    requires { places < 128 }
    ensures { number result.low result.high ≡ number low high / 2 ^ places }
{
    if places < 64 {
        Wide {
            low: (low >> places) + (high << 1 << (63 - places)),
            high: high >> places,
        }
    } else {
        Wide {
            low: high >> (places - 64),
            high: 0,
        }
    }
}

/// A number that is shifted to the right with its sign.
fn to_the_right_with_sign(low: u64, high: u64, places: u32) -> Wide
    requires { places < 128 }
    ensures { number result.low result.high ≡ arithmetic_shift (number low high) places }
{
    if high < 1 << 63 {
        to_the_right(low, high, places)
    } else {
        let complement = to_the_right(!low, !high, places);
        Wide {
            low: !complement.low,
            high: !complement.high,
        }
    }
}
