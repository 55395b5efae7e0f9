//! In which column of its line a job is at fault.

ghost use Rattle.std.specs.Prelude.{◌<◌, length};

use crate::job_lines::{longest, range_of_first};
use kdf_code::to_code;
use kdf_job::JobFault;
use kdf_json::{after, is};
use kdf_text::{Lines, cut_word, number_in};

/// The column, counted from 1, at which this line of a job has this fault.
pub fn column_of(fault: JobFault, line: &[u8], kind: &[u8]) -> u32 {
    match fault {
        JobFault::Header => first_difference(line, b"KDF9 JOB 1"),
        JobFault::BadNumber => column_of_number(line),
        JobFault::BadMedium => column_of_medium(line, kind),
        _ => column_of_field(line, field_of(fault)),
    }
}

/// Which field of a line is at fault, counted from 0.
fn field_of(fault: JobFault) -> u32 {
    match fault {
        JobFault::SlotOrder | JobFault::SizeNotGroups | JobFault::StoreFull => 1,
        JobFault::DeviceTwice | JobFault::ShowRange | JobFault::ClockFalls => 1,
        JobFault::TooManyOrders => 1,
        JobFault::PoolKind => 2,
        JobFault::BadLabel | JobFault::LabelTwice => 3,
        _ => 0,
    }
}

/// The column of the first byte in which two texts differ.
fn first_difference(text: &[u8], due: &[u8]) -> u32 {
    let mut column = 1u32;
    for (i, byte) in text.iter().enumerate() {
        if i >= due.len() || *byte != due[i] {
            return column;
        }
        column = column.saturating_add(1);
    }
    column
}

/// The column at which the field with so many before it begins.
fn column_of_field(line: &[u8], index: u32) -> u32 {
    let mut fields = 0u32;
    let mut column = 1u32;
    for byte in line {
        if fields >= index {
            return column;
        }
        column = column.saturating_add(1);
        if *byte == b' ' {
            fields = fields.saturating_add(1);
        }
    }
    column
}

/// The column of the first field that should be a number in its range and isn't one.
fn column_of_number(line: &[u8]) -> u32 {
    let Some((name, rest)) = cut_word(line) else {
        return 1;
    };
    let (low, high) = range_of_first(name).unwrap_or((0, 15));
    if number_in(low, high, first_field(rest)).is_some() {
        column_of_field(line, 2)
    } else {
        column_of_field(line, 1)
    }
}

/// The column at which a line of a medium is wrong: that of its mark, of the first byte that isn't a character, or of the first one too many.
fn column_of_medium(line: &[u8], kind: &[u8]) -> u32 {
    if !has_medium(kind) || (after(line, b"=").is_some() && !is(kind, b"MT")) {
        return 1;
    }
    let mut column = 1u32;
    for (i, byte) in line.iter().enumerate() {
        if i > 0 && (to_code(*byte).is_none() || i > longest(kind) as usize) {
            return column;
        }
        column = column.saturating_add(1);
    }
    1
}

/// Whether a kind of device begins with a medium.
fn has_medium(kind: &[u8]) -> bool {
    is(kind, b"TR") || is(kind, b"CR") || is(kind, b"MT")
}

/// The kind of the device whose medium a line belongs to; none directly after the line `POOL`.
pub fn kind_above(bytes: &[u8], number: u32) -> &[u8]
    requires { length bytes.now < 4294967295 }
{
    let mut kind: &[u8] = &[];
    let mut lines = Lines::new(bytes);
    for _line in 0..bytes.len() {
        let line = lines.take_line();
        if line.number >= number {
            return kind;
        }
        kind = kind_after(kind, line.text);
    }
    kind
}

/// The kind of the device that a line begins, or the one before it.
pub fn kind_after<'a>(kind: &'a [u8], line: &'a [u8]) -> &'a [u8] {
    if is(line, b"POOL") {
        return &[];
    }
    match after(line, b"DEVICE ") {
        Some(rest) => second_field(kind, rest),
        None => kind,
    }
}

/// The second field of a text, or else this kind.
fn second_field<'a>(kind: &'a [u8], text: &'a [u8]) -> &'a [u8] {
    match cut_word(text) {
        Some((_, rest)) => first_field(rest),
        None => kind,
    }
}

fn first_field(text: &[u8]) -> &[u8] {
    match cut_word(text) {
        Some((word, _)) => word,
        None => text,
    }
}
