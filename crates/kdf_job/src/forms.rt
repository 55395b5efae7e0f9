//! The forms of the lines of slots.

ghost use Rattle.std.specs.Prelude.{◌≡◌, ◌<◌, ◌≤◌, [], ◌∷◌, Some, IfSome, IfOk};
ghost use Rattle.std.specs.Prelude.{codes};
ghost use Rattle.std.specs.Option.{option_zip};
ghost use Rattle.kdf_text.specs.Lines.{is_text, words};
ghost use Rattle.kdf_text.specs.Numbers.{number_in};
ghost use Rattle.kdf_job.specs.Forms.{addresses, device_line, described, kind_named, medium_line, number_line, numbered, one_number, two_addresses};
ghost use Rattle.kdf_job.specs.Shows.{told_device, told_line};

use crate::JobFault;
use kdf_journal::Kind;
use kdf_limits::{GROUP_WORDS, LAST_ADDRESS, PROGRAM_WORDS};
use kdf_text::{GREATEST, cut_word, number_in};

/// The highest number of a slot.
const LAST_SLOT: u64 = 3;

/// The highest number of a device.
const LAST_DEVICE: u64 = 15;

/// What a line of a device tells.
#[derive(Clone, Copy)]
pub struct DeviceLine<'a> {
    pub d: u8,
    pub kind: Kind,
    pub label: &'a [u8],
}

/// A line of a medium: its text, and whether it begins with `=`.
#[derive(Clone, Copy)]
pub struct MediumLine<'a> {
    pub marked: bool,
    pub text: &'a [u8],
}

/// The number of a line of this name and a number of this range; None where it is no such line.
fn number_line(name: &[u8], low: u64, high: u64, line: &[u8]) -> Option<Result<u64, JobFault>>
    requires { high ≤ GREATEST }
    ensures value { result ≡ number_line name.now low high (words line.now) }
    ensures within { IfSome result (λ r. IfOk r (λ n. (low ≤ n) × (n ≤ high))) }
{
    let (first, number) = cut_word(line)?;
    if first == name {
        one_number(low, high, number)
    } else {
        None
    }
}

/// The number of this range that a text is; None where it is more words than one.
fn one_number(low: u64, high: u64, text: &[u8]) -> Option<Result<u64, JobFault>>
    requires { high ≤ GREATEST }
    ensures value { result ≡ one_number low high (words text.now) }
    ensures within { IfSome result (λ r. IfOk r (λ n. (low ≤ n) × (n ≤ high))) }
{
    match cut_word(text) {
        Some(_) => None,
        None => Some(number_in(low, high, text).ok_or(JobFault::BadNumber)),
    }
}

/// The number of `SLOT p`.
pub fn slot_number(line: &[u8]) -> Option<Result<u8, JobFault>>
    ensures value { result ≡ number_line (codes "SLOT") 0 3 (words line.now) }
    ensures within { IfSome result (λ r. IfOk r (λ p. p ≤ 3)) }
{
    match number_line(b"SLOT", 0, LAST_SLOT, line)? {
        Ok(p) => Some(Ok(p as u8)),
        Err(fault) => Some(Err(fault)),
    }
}

/// The words of `STORE n`.
pub fn store_size(line: &[u8]) -> Option<Result<u16, JobFault>>
    ensures value { result ≡ number_line (codes "STORE") GROUP_WORDS PROGRAM_WORDS (words line.now) }
    ensures within { IfSome result (λ r. IfOk r (λ n. (GROUP_WORDS ≤ n) × (n ≤ PROGRAM_WORDS))) }
{
    match number_line(
        b"STORE",
        u64::from(GROUP_WORDS),
        u64::from(PROGRAM_WORDS),
        line,
    )? {
        Ok(n) => Some(Ok(n as u16)),
        Err(fault) => Some(Err(fault)),
    }
}

/// The addresses of `SHOW a b`.
pub fn addresses(line: &[u8]) -> Option<Result<(u16, u16), JobFault>>
    ensures { result ≡ addresses (words line.now) }
{
    let (name, numbers) = cut_word(line)?;
    if is(name, b"SHOW") {
        two_addresses(numbers)
    } else {
        None
    }
}

/// The two addresses that a text is; None where it isn't two words.
fn two_addresses(text: &[u8]) -> Option<Result<(u16, u16), JobFault>>
    ensures { result ≡ two_addresses (words text.now) }
{
    let (first, last) = cut_word(text)?;
    match cut_word(last) {
        Some(_) => None,
        None => Some(range(first, last).ok_or(JobFault::BadNumber)),
    }
}

/// The two addresses that words spell.
fn range(first: &[u8], last: &[u8]) -> Option<(u16, u16)>
    ensures { result ≡ option_zip (number_in 0 LAST_ADDRESS first.now) (number_in 0 LAST_ADDRESS last.now) }
{
    let first = number_in(0, u64::from(LAST_ADDRESS), first)?;
    let last = number_in(0, u64::from(LAST_ADDRESS), last)?;
    Some((first as u16, last as u16))
}

/// Whether a line, or a word of one, is this text.
pub fn is(line: &[u8], text: &[u8]) -> bool
    ensures { result ≡ is_text text.now line.now }
{
    line == text
}

/// The kind of this name, of those without a label.
fn kind_named(name: &[u8]) -> Option<Kind>
    ensures { result ≡ kind_named name.now }
{
    if is(name, b"TR") {
        Some(Kind::Tr)
    } else if is(name, b"TP") {
        Some(Kind::Tp)
    } else if is(name, b"CR") {
        Some(Kind::Cr)
    } else if is(name, b"LP") {
        Some(Kind::Lp)
    } else {
        None
    }
}

/// A device of this kind and label, and the number that a word spells.
fn numbered<'a>(kind: Kind, label: &'a [u8], d: &[u8]) -> Result<DeviceLine<'a>, JobFault>
    ensures told { told_device (Some result) ≡ numbered kind label.now d.now }
    ensures within { IfOk result (λ x. x.d ≤ 15) }
{
    match number_in(0, LAST_DEVICE, d) {
        Some(d) => Ok(DeviceLine {
            d: d as u8,
            kind,
            label,
        }),
        None => Err(JobFault::BadNumber),
    }
}

/// The device of `DEVICE d k` and `DEVICE d MT label`.
pub fn device_line(line: &[u8]) -> Option<Result<DeviceLine<'_>, JobFault>>
    ensures told { told_device result ≡ device_line line.now }
    ensures within { IfSome result (λ r. IfOk r (λ x. x.d ≤ 15)) }
{
    let (name, rest) = cut_word(line)?;
    if is(name, b"DEVICE") {
        described(rest)
    } else {
        None
    }
}

/// The device of a number and a kind, and a label if its kind has one.
fn described(text: &[u8]) -> Option<Result<DeviceLine<'_>, JobFault>>
    ensures told { told_device result ≡ described (words text.now) }
    ensures within { IfSome result (λ r. IfOk r (λ x. x.d ≤ 15)) }
{
    let (d, rest) = cut_word(text)?;
    match cut_word(rest) {
        None => Some(numbered(kind_named(rest)?, &[], d)),
        Some((kind, label)) => labelled(d, kind, label),
    }
}

/// The magnetic tape of this number and label; None where it is another kind, or the label is more words than one.
fn labelled<'a>(d: &[u8], kind: &[u8], label: &'a [u8]) -> Option<Result<DeviceLine<'a>, JobFault>>
    ensures told { told_device result ≡ described (d.now ∷ kind.now ∷ words label.now) }
    ensures within { IfSome result (λ r. IfOk r (λ x. x.d ≤ 15)) }
{
    match cut_word(label) {
        Some(_) => None,
        None => tape_named(d, kind, label),
    }
}

/// The magnetic tape of this number and label; None where it is another kind.
fn tape_named<'a>(
    d: &[u8],
    kind: &[u8],
    label: &'a [u8],
) -> Option<Result<DeviceLine<'a>, JobFault>>
    ensures told { told_device result ≡ described (d.now ∷ kind.now ∷ label.now ∷ []) }
    ensures within { IfSome result (λ r. IfOk r (λ x. x.d ≤ 15)) }
{
    if is(kind, b"MT") {
        Some(numbered(Kind::Mt, label, d))
    } else {
        None
    }
}

/// The medium line that begins with `+` or `=`.
pub fn medium_line(line: &[u8]) -> Option<MediumLine<'_>>
    ensures { told_line result ≡ medium_line line.now }
{
    match line {
        [b'+', text @ ..] => Some(MediumLine {
            marked: false,
            text,
        }),
        [b'=', text @ ..] => Some(MediumLine { marked: true, text }),
        _ => None,
    }
}
