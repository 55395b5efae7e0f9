//! Numbers in decimal.
ghost use Rattle.std.specs.Prelude.{◌≡◌, ◌+◌, ◌<◌, [], ◌∷◌, ◌++◌, OnOk, decimal, string_bytes};

use itoa::Buffer;
use std::alloc::AllocError;

/// Writes a number. Most have one digit, which is put at once.
#[inline(always)]
pub fn write_decimal(out: &mut String, n: u64) -> Result<(), AllocError>
    ensures { OnOk result (string_bytes out.new ≡ string_bytes out.old ++ decimal n) }
{
    if n < 10 {
        write_digit(out, n)
    } else {
        write_longer(out, n)
    }
}

/// Writes a number after what stands before it.
#[inline(always)]
pub fn write_after(out: &mut String, front: &str, n: u64) -> Result<(), AllocError>
    ensures { OnOk result (string_bytes out.new ≡ string_bytes out.old ++ front.now ++ decimal n) }
{
    out.push_str(front)?;
    write_decimal(out, n)
}

#[inline(always)]
fn write_digit(out: &mut String, n: u64) -> Result<(), AllocError>
    requires { n < 10 }
    ensures { OnOk result (string_bytes out.new ≡ string_bytes out.old ++ (48 + n) ∷ []) }
{
    out.push(char::from(b'0' + n as u8))
}

#[inline(never)]
fn write_longer(out: &mut String, n: u64) -> Result<(), AllocError>
    ensures { OnOk result (string_bytes out.new ≡ string_bytes out.old ++ decimal n) }
{
    out.push_str(Buffer::new().format(n))
}
