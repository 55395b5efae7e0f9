//! Numbers in decimal. Most of a journal's are short: their digits are put one by one, which is less than a call that
//! finds out how long the number is.
ghost use Rattle.std.specs.Prelude.{◌≡◌, ◌+◌, ◌/◌, ◌%◌, ◌<◌, ◌≤◌, [], ◌∷◌, ◌++◌, OnOk, codes, decimal, string_bytes};

use itoa::Buffer;
use std::alloc::AllocError;

/// Writes a number.
#[inline(always)]
pub(crate) fn write_number(out: &mut String, n: u64) -> Result<(), AllocError>
    ensures { OnOk result (string_bytes out.new ≡ string_bytes out.old ++ decimal n) }
{
    if n < 10 {
        write_digit(out, n)
    } else {
        write_longer(out, n)
    }
}

/// Writes a space and a number.
#[inline(always)]
pub(crate) fn write_after(out: &mut String, n: u64) -> Result<(), AllocError>
    ensures { OnOk result (string_bytes out.new ≡ string_bytes out.old ++ codes " " ++ decimal n) }
{
    out.push(' ')?;
    write_number(out, n)
}

#[inline(always)]
fn write_digit(out: &mut String, n: u64) -> Result<(), AllocError>
    requires { n < 10 }
    ensures { OnOk result (string_bytes out.new ≡ string_bytes out.old ++ (48 + n) ∷ []) }
{
    out.push(char::from(b'0' + n as u8))
}

/// Two digits, of which the first may be 0.
#[inline(always)]
fn write_pair(out: &mut String, n: u64) -> Result<(), AllocError>
    requires { n < 100 }
    ensures { OnOk result (string_bytes out.new ≡ string_bytes out.old ++ (48 + n / 10) ∷ (48 + n % 10) ∷ []) }
{
    write_digit(out, n / 10)?;
    write_digit(out, n % 10)
}

/// A number of one digit or two.
#[inline(always)]
fn write_short(out: &mut String, n: u64) -> Result<(), AllocError>
    requires { n < 100 }
    ensures { OnOk result (string_bytes out.new ≡ string_bytes out.old ++ decimal n) }
{
    if n < 10 {
        write_digit(out, n)
    } else {
        write_pair(out, n)
    }
}

/// A number of three digits or four.
#[inline(always)]
fn write_four(out: &mut String, n: u64) -> Result<(), AllocError>
    requires from { 100 ≤ n }
    requires below { n < 10000 }
    ensures { OnOk result (string_bytes out.new ≡ string_bytes out.old ++ decimal n) }
{
    write_short(out, n / 100)?;
    write_pair(out, n % 100)
}

/// A number of two digits or more.
#[inline(never)]
fn write_longer(out: &mut String, n: u64) -> Result<(), AllocError>
    requires { 10 ≤ n }
    ensures { OnOk result (string_bytes out.new ≡ string_bytes out.old ++ decimal n) }
{
    if n < 100 {
        write_pair(out, n)
    } else if n < 10_000 {
        write_four(out, n)
    } else {
        out.push_str(Buffer::new().format(n))
    }
}
