//! What may have led to a fault of a job.

ghost use Rattle.std.specs.Prelude.{◌<◌, length};

use crate::fault_columns::kind_above;
use crate::hint::{
    write_begin, write_capitals, write_close, write_none, write_plain, write_value, write_words,
};
use crate::hint_line::write_line_hint;
use crate::hint_medium::write_medium_hint;
use crate::hint_seen::{Seen, seen_above};
use crate::job_lines::{field, form_of, is_blank, range_of};
use kdf_job::JobFault;
use kdf_json::is;
use kdf_text::{Lines, number_in};
use std::alloc::AllocError;

/// The first line of a job.
const HEADER: &[u8] = b"KDF9 JOB 1";

/// How many blank lines before a job count as a slip.
const BLANK_LINES: u32 = 9;

/// The words of a group: a store is whole groups.
const GROUP: u64 = 32;

/// A fault in a line of a job: the number of the line, the line, or none where the text ends before it, and the column.
#[derive(Clone, Copy)]
pub struct FaultyLine<'a> {
    pub fault: JobFault,
    pub number: u32,
    pub text: Option<&'a [u8]>,
    pub column: u32,
}

/// Writes the hint on a fault in a line of a job of these bytes.
pub fn write_job_hint(
    out: &mut String,
    bytes: &[u8],
    faulty: FaultyLine<'_>,
) -> Result<(), AllocError>
    requires { length bytes.now < 4294967295 }
{
    match faulty.fault {
        JobFault::Header => write_header_hint(out, bytes, faulty.text),
        _ => {
            let seen = seen_above(bytes, faulty.number);
            match faulty.text {
                Some(line) => write_hint_in(out, bytes, faulty, line, seen),
                None => write_missing(out, seen),
            }
        }
    }
}

/// Writes what may have led to a text whose first line isn't that of a job.
fn write_header_hint(out: &mut String, bytes: &[u8], first: Option<&[u8]>) -> Result<(), AllocError>
    requires { length bytes.now < 4294967295 }
{
    match first {
        Some(line) => write_first_line_hint(out, bytes, line),
        None => write_none(out),
    }
}

fn write_first_line_hint(out: &mut String, bytes: &[u8], line: &[u8]) -> Result<(), AllocError>
    requires { length bytes.now < 4294967295 }
{
    if line.contains(&13) {
        write_plain(out, "byte_13")
    } else if line.starts_with(b"\xef\xbb\xbf") {
        write_plain(out, "byte_order_mark")
    } else if line.eq_ignore_ascii_case(HEADER) {
        write_begin(out, "capitals")?;
        write_words(out, "text", HEADER)?;
        write_close(out)
    } else if is_blank(line) && has_header(bytes) {
        write_plain(out, "nothing_before")
    } else {
        write_none(out)
    }
}

/// Whether one of the first lines is that of a job.
fn has_header(bytes: &[u8]) -> bool
    requires { length bytes.now < 4294967295 }
{
    let mut lines = Lines::new(bytes);
    for _line in 0..BLANK_LINES {
        let line = lines.take_line();
        if is(line.text, HEADER) {
            return true;
        }
    }
    false
}

/// Writes which line is missing at the end.
fn write_missing(out: &mut String, seen: Seen<'_>) -> Result<(), AllocError> {
    write_begin(out, "missing_line")?;
    write_words(
        out,
        "line",
        if seen.is_deck { b"ENDDECK" } else { b"ENDJOB" },
    )?;
    write_close(out)
}

/// Writes the hint on a line, as it is written or else by its fault.
fn write_hint_in(
    out: &mut String,
    bytes: &[u8],
    faulty: FaultyLine<'_>,
    line: &[u8],
    seen: Seen<'_>,
) -> Result<(), AllocError>
    requires { length bytes.now < 4294967295 }
{
    if line.contains(&13) {
        return write_plain(out, "byte_13");
    }
    match faulty.fault {
        JobFault::BadMedium => {
            write_medium_hint(out, line, kind_above(bytes, faulty.number), faulty.column)
        }
        _ if is_small(line) => {
            write_begin(out, "capitals")?;
            write_capitals(out, "text", line)?;
            write_close(out)
        }
        _ if is_spaced(line) => write_plain(out, "one_space"),
        _ => write_by_fault(out, faulty, line, seen),
    }
}

/// Whether a line has small letters, and its first word is one of a job as capitals.
fn is_small(line: &[u8]) -> bool {
    line.iter().any(|byte| byte.is_ascii_lowercase()) && form_of(field(line, 0)).is_some()
}

/// Whether a line begins or ends with a space, or has two in a row.
fn is_spaced(line: &[u8]) -> bool {
    let mut previous = b' ';
    for byte in line {
        if *byte == 9 || (*byte == b' ' && previous == b' ') {
            return true;
        }
        previous = *byte;
    }
    previous == b' ' && !line.is_empty()
}

fn write_by_fault(
    out: &mut String,
    faulty: FaultyLine<'_>,
    line: &[u8],
    seen: Seen<'_>,
) -> Result<(), AllocError> {
    match faulty.fault {
        JobFault::BadNumber => write_range_hint(out, line, faulty.column),
        JobFault::BadLine => write_line_hint(out, line, seen),
        JobFault::PoolKind => {
            write_begin(out, "pool_kind")?;
            write_words(out, "kind", field(line, 2))?;
            write_close(out)
        }
        JobFault::ShowRange => write_show_hint(out, line, seen.store),
        JobFault::SizeNotGroups => {
            let below = number_of(field(line, 1)) / GROUP * GROUP;
            write_begin(out, "whole_groups")?;
            write_value(out, "below", below)?;
            write_value(out, "above", below.saturating_add(GROUP))?;
            write_close(out)
        }
        _ => write_none(out),
    }
}

/// A number as it is written, or 0.
pub fn number_of(word: &[u8]) -> u64 {
    number_in(0, 281_474_976_710_656, word).unwrap_or(0)
}

/// Writes what is wrong with a number of a line at a column: it begins with a zero, or has a range.
fn write_range_hint(out: &mut String, line: &[u8], column: u32) -> Result<(), AllocError> {
    if has_zeros(line) {
        return write_plain(out, "leading_zeros");
    }
    match range_of(line, column) {
        Some((least, most)) => {
            write_begin(out, "range")?;
            write_value(out, "least", least)?;
            write_value(out, "most", most)?;
            write_close(out)
        }
        None => write_none(out),
    }
}

/// Whether a number of a line has a zero before other digits.
fn has_zeros(line: &[u8]) -> bool {
    let mut before = 0;
    let mut previous = 0;
    for byte in line {
        if before == b' ' && previous == b'0' && byte.is_ascii_digit() {
            return true;
        }
        before = previous;
        previous = *byte;
    }
    false
}

/// Writes what is wrong with the addresses of a line SHOW.
fn write_show_hint(out: &mut String, line: &[u8], store: u64) -> Result<(), AllocError> {
    let first = number_of(field(line, 1));
    let last = number_of(field(line, 2));
    if first > last {
        write_begin(out, "show_falls")?;
        write_value(out, "first", first)?;
        write_value(out, "last", last)?;
    } else {
        write_begin(out, "show_store")?;
        write_value(out, "last", store.saturating_sub(1))?;
    }
    write_close(out)
}
