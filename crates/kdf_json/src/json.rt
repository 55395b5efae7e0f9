//! JSON: texts in quotes, and what every text of facts begins with.

use crate::decimals::write_decimal;
use std::alloc::AllocError;

const DIGITS: [char; 16] = [
    '0', '1', '2', '3', '4', '5', '6', '7', '8', '9', 'a', 'b', 'c', 'd', 'e', 'f',
];

/// So many bytes of a text in quotes are written at once.
const PIECE: usize = 256;

/// A piece with so many bytes may lack room for one more and its sign.
const FULL: usize = 254;

/// Writes bytes as a text in quotes. A byte that isn't a printable character of ASCII is written as the character of its number.
pub fn write_text(out: &mut String, bytes: &[u8]) -> Result<(), AllocError> {
    let mut piece = [0u8; PIECE];
    let mut length = 0;
    out.push('"')?;
    for byte in bytes {
        if length >= FULL {
            write_plain(out, between(&piece, 0, length))?;
            length = 0;
        }
        if is_plain(*byte) {
            length = put(&mut piece, length, *byte);
        } else if *byte == b'\n' {
            length = put_line_end(&mut piece, length);
        } else {
            write_plain(out, between(&piece, 0, length))?;
            write_byte(out, *byte)?;
            length = 0;
        }
    }
    write_plain(out, between(&piece, 0, length))?;
    out.push('"')
}

/// Puts a byte into a piece after so many, if it has room, and answers how many there are then.
#[inline(always)]
fn put(piece: &mut [u8; PIECE], length: usize, byte: u8) -> usize {
    if length < PIECE {
        piece[length] = byte;
        length + 1
    } else {
        length
    }
}

/// Puts the end of a line into a piece.
#[inline(always)]
fn put_line_end(piece: &mut [u8; PIECE], length: usize) -> usize {
    let length = put(piece, length, b'\\');
    put(piece, length, b'n')
}

/// Whether a byte stands for itself in a text in quotes. Most are digits and capitals.
#[inline(always)]
fn is_plain(byte: u8) -> bool {
    match byte {
        b'#'..=b'[' => true,
        b'"' | b'\\' => false,
        _ => 32 <= byte && byte <= 126,
    }
}

/// The bytes of a text from one offset to another.
fn between(bytes: &[u8], from: usize, to: usize) -> &[u8] {
    if from <= to && to <= bytes.len() {
        &bytes[from..to]
    } else {
        &[]
    }
}

/// Writes bytes that stand for themselves, all at once.
fn write_plain(out: &mut String, bytes: &[u8]) -> Result<(), AllocError> {
    match str::from_utf8(bytes) {
        Ok(text) => out.push_str(text),
        Err(_) => write_singly(out, bytes),
    }
}

fn write_singly(out: &mut String, bytes: &[u8]) -> Result<(), AllocError> {
    for byte in bytes {
        write_byte(out, *byte)?;
    }
    Ok(())
}

/// Writes a byte of a text in quotes.
pub fn write_byte(out: &mut String, byte: u8) -> Result<(), AllocError> {
    match byte {
        b'"' | b'\\' => {
            out.push('\\')?;
            out.push(char::from(byte))
        }
        b'\n' => out.push_str("\\n"),
        32..=126 => out.push(char::from(byte)),
        _ => {
            out.push_str("\\u00")?;
            out.push(DIGITS[usize::from(byte / 16)])?;
            out.push(DIGITS[usize::from(byte % 16)])
        }
    }
}

/// Writes a number, or `null`.
pub fn write_number(out: &mut String, number: Option<u32>) -> Result<(), AllocError> {
    match number {
        Some(number) => write_decimal(out, number.into()),
        None => out.push_str("null"),
    }
}

/// Writes the end of a line before an item of a list, and a comma, unless it is the first.
pub fn write_comma(out: &mut String, i: usize) -> Result<(), AllocError> {
    out.push_str(if i == 0 { "\n" } else { ",\n" })
}

/// Writes a comma before an item of a list in one line, unless it is the first.
pub fn write_items(out: &mut String, i: usize) -> Result<(), AllocError> {
    out.push_str(if i == 0 { "" } else { "," })
}

/// A length as a number of 32 bits. No list of facts has more items than there are events and calls.
pub fn count_of(length: usize) -> u32 {
    if length < 4_294_967_295 {
        length as u32
    } else {
        4_294_967_295
    }
}

/// Writes the letter of a code in a text in quotes.
pub fn write_code(out: &mut String, code: u32) -> Result<(), AllocError> {
    if code < 0x1_0000 {
        write_half(out, code)
    } else {
        let further = code.saturating_sub(0x1_0000);
        write_half(out, (further / 1024 % 1024).saturating_add(0xd800))?;
        write_half(out, (further % 1024).saturating_add(0xdc00))
    }
}

/// Writes 16 bits of a text in quotes.
fn write_half(out: &mut String, half: u32) -> Result<(), AllocError> {
    out.push_str("\\u")?;
    out.push(DIGITS[(half / 4096 % 16) as usize])?;
    out.push(DIGITS[(half / 256 % 16) as usize])?;
    out.push(DIGITS[(half / 16 % 16) as usize])?;
    out.push(DIGITS[(half % 16) as usize])
}
