//! Octal digits: what stands after a `B`.

ghost use Rattle.std.specs.Prelude.{◌≡◌, ◌+◌, ◌-◌, ◌*◌, ◌^◌, ◌≤◌};
ghost use Rattle.kdf_usercode.specs.Octal.{is_octal, all_octal, octal};
ghost use Rattle.kdf_usercode.specs.Bytes.{digit_0};
ghost use Rattle.kdf_usercode.specs.Capped.{capped};

use crate::shape::MANY;

fn is_octal(byte: u8) -> bool
    ensures { result ≡ is_octal byte }
{
    byte >= b'0' && byte <= b'7'
}

/// Whether all bytes are octal digits.
pub fn all_octal(text: &[u8]) -> bool
    ensures { result ≡ all_octal text.now }
{
    for b in text {
        if !is_octal(*b) {
            return false;
        }
    }
    true
}

fn octal_after(value: u64, byte: u8) -> u64
    requires { value ≤ 2 ^ 48 }
    ensures { result ≡ capped (8 * value + (byte - digit_0)) }
{
    (8 * value + u64::from(byte.saturating_sub(b'0'))).min(MANY)
}

/// The value of octal digits, at most `MANY`.
pub fn octal(text: &[u8]) -> u64
    ensures { result ≡ capped (octal text.now) }
{
    let mut value = 0u64;
    for b in text {
        value = octal_after(value, *b);
    }
    value
}
