//! The shape of a statement and its numbers.

ghost use Rattle.std.specs.Prelude.{◌≡◌, ◌^◌, ◌≤◌, ◌&&◌, ◌++◌, [], ◌∷◌, if◌then◌else◌, OnOk, map};
ghost use Rattle.kdf_usercode.specs.Bytes.{digit_0};
ghost use Rattle.kdf_usercode.specs.Capped.{capped};
ghost use Rattle.kdf_usercode.specs.Shape.{is_digit, begins_with_digit, ends_number, shape, value_after, numbers};

use std::alloc::AllocError;

/// 2 ^ 48, as which every greater number is held: it is outside every range.
pub const MANY: u64 = 281_474_976_710_656;

/// A statement's shape and its numbers.
#[derive(Drop)]
pub struct Parts {
    pub shape: Vec<u8>,
    pub numbers: Vec<u64>,
}

fn is_digit(byte: u8) -> bool
    ensures { result ≡ is_digit byte }
{
    byte >= b'0' && byte <= b'9'
}

fn begins_with_digit(rest: &[u8]) -> bool
    ensures { result ≡ begins_with_digit rest.now }
{
    match rest {
        [] => false,
        [byte, ..] => is_digit(*byte),
    }
}

/// Puts a byte of the statement after the others, or `0` where it is the last digit of a number. Its other digits are
/// left out.
fn push_shape(room: &mut Vec<u8>, byte: u8, rest: &[u8]) -> Result<(), AllocError>
    ensures { OnOk result (room.new.items ≡ room.old.items
        ++ (if is_digit byte && begins_with_digit rest.now then []
        else (if is_digit byte then digit_0 else byte) ∷ [])) }
{
    if !is_digit(byte) {
        room.push(byte)?;
    } else if !begins_with_digit(rest) {
        room.push(b'0')?;
    }
    Ok(())
}

/// Puts the statement with `0` in place of each number into `room`, instead of what was there.
pub fn shape_into(text: &[u8], room: &mut Vec<u8>) -> Result<(), AllocError>
    ensures { OnOk result (room.new.items ≡ shape text.now) }
{
    room.clear();
    for (i, byte) in text.iter().enumerate() {
        push_shape(room, *byte, &text[i + 1..])?;
    }
    Ok(())
}

fn value_after(value: u64, byte: u8) -> u64
    requires { value ≤ 2 ^ 48 }
    ensures { result ≡ capped (value_after value byte) }
{
    if is_digit(byte) {
        (10 * value + u64::from(byte - b'0')).min(MANY)
    } else {
        0
    }
}

fn ends_number(byte: u8, rest: &[u8]) -> bool
    ensures { result ≡ ends_number byte rest.now }
{
    is_digit(byte) && !begins_with_digit(rest)
}

/// Puts the numbers of the statement, each at most `MANY`, into `room`, instead of what was there.
pub fn numbers_into(text: &[u8], room: &mut Vec<u64>) -> Result<(), AllocError>
    ensures { OnOk result (room.new.items ≡ map capped (numbers text.now)) }
{
    room.clear();
    let mut value = 0u64;
    for (i, byte) in text.iter().enumerate() {
        value = value_after(value, *byte);
        if ends_number(*byte, &text[i + 1..]) {
            room.push(value)?;
            value = 0;
        }
    }
    Ok(())
}
