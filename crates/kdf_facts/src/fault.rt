//! A fault of a job or of a deck.
ghost use Rattle.std.specs.Prelude.{◌≡◌, ◌≤◌, ◌++◌, IfOk, OnOk, length, string_bytes};
ghost use Rattle.kdf_facts.specs.Faults.{deck_front, deck_named, deck_opening, job_front, job_named, job_opening};
ghost use Rattle.kdf_facts.specs.Run.{Begins};
ghost use Rattle.kdf_job.specs.declared.job.TheConstants.{TEXT_LIMIT};
ghost use Rattle.kdf_usercode.specs.WellFormed.{IsWellFormed};

use crate::sentences::{number_of_job, of_deck, of_job, of_snapshot};
use kdf_fault::Numbered;
use kdf_hints::{
    Faulty, FaultyLine, column_of, kind_above, least_store, write_deck_hint, write_job_hint,
    write_none, write_plain,
};
use kdf_job::{Job, JobFault, TEXT_LIMIT};
use kdf_json::{Spot, before, count_of, deck_line, from, line_of, spot_after, write_text};
use kdf_listing::{statement_of, write_spot};
use kdf_place::assemble;
use kdf_snapshot::SnapshotFault;
use kdf_usercode::{Deck, DeckError, DeckFault, read_deck};
use std::alloc::{AllocError, Global};
use std::fmt::Write;

/// The size of the largest store.
const MOST_STORE: u16 = 8192;

/// A fault of a deck: its slot, and its place, an offset in the deck.
#[derive(Clone, Copy)]
pub struct DeckFound {
    pub slot: u8,
    pub fault: DeckFault,
    pub place: u32,
}

/// The facts of a text of more bytes than are read.
pub fn large(alloc: Global, limit: usize) -> Result<String, AllocError> {
    let mut out = String::new(alloc);
    write!(
        out,
        "{{\"format\":\"kdf9-facts 1\",\"kind\":\"fault\",\"of\":\"text\",\"name\":\"Large\",\"limit\":{limit}}}\n"
    )?;
    Ok(out)
}

/// The text of the deck of a slot.
pub fn deck_of(job: &Job, p: u8) -> &[u8] {
    for slot in job.slots.iter() {
        if slot.p == p {
            return &slot.deck;
        }
    }
    &[]
}

/// The words of the store of a slot.
fn store_of(job: &Job, p: u8) -> u16 {
    for slot in job.slots.iter() {
        if slot.p == p {
            return slot.size;
        }
    }
    0
}

/// The facts of a fault in a line of a job.
pub fn job_fault(
    alloc: Global,
    bytes: &[u8],
    fault: JobFault,
    line: u32,
) -> Result<String, AllocError>
    requires { length bytes.now ≤ TEXT_LIMIT }
    ensures { IfOk result (λ text. Begins (job_front fault line) (string_bytes text)) }
{
    let rest = job_rest(alloc, bytes, fault, line)?;
    let mut out = String::new(alloc);
    write_job_front(&mut out, fault, line)?;
    out.push_str(rest.as_str())?;
    Ok(out)
}

/// Writes which fault of a job it is, and its line.
fn write_job_front(out: &mut String, fault: JobFault, line: u32) -> Result<(), AllocError>
    ensures { OnOk result (string_bytes out.new ≡ string_bytes out.old ++ job_front fault line) }
{
    write_job_opening(out)?;
    write_job_named(out, fault.name(), number_of_job(fault), line)
}

fn write_job_opening(out: &mut String) -> Result<(), AllocError>
    ensures { OnOk result (string_bytes out.new ≡ string_bytes out.old ++ job_opening) }
{
    write!(
        out,
        "{{\"format\":\"kdf9-facts 1\",\"kind\":\"fault\",\"of\":\"job\",\"name\":\""
    )
}

fn write_job_named(out: &mut String, name: &str, number: u8, line: u32) -> Result<(), AllocError>
    ensures { OnOk result (string_bytes out.new ≡ string_bytes out.old ++ job_named name.now number line) }
{
    write!(out, "{name}\",\"number\":{number},\"line\":{line},")
}

/// The column of a fault in a line of a job, the line, what the fault says, and the hint.
fn job_rest(alloc: Global, bytes: &[u8], fault: JobFault, line: u32) -> Result<String, AllocError>
    requires { length bytes.now ≤ TEXT_LIMIT }
{
    let mut out = String::new(alloc);
    let text = line_of(bytes, line);
    let column = match text {
        Some(text) => column_of(fault, text, kind_above(bytes, line)),
        None => 1,
    };
    write!(out, "\"column\":{column},\"text\":")?;
    match text {
        Some(text) => write_text(&mut out, text)?,
        None => out.push_str("null")?,
    }
    write_sentence(&mut out, of_job(fault))?;
    out.push_str(",\"hint\":")?;
    let faulty = FaultyLine {
        fault,
        number: line,
        text,
        column,
    };
    write_job_hint(&mut out, bytes, faulty)?;
    out.push_str("}\n")?;
    Ok(out)
}

/// The facts of a fault in a line of a snapshot.
pub fn snapshot_fault(
    alloc: Global,
    bytes: &[u8],
    fault: SnapshotFault,
    line: u32,
) -> Result<String, AllocError>
    requires { length bytes.now ≤ TEXT_LIMIT }
{
    let mut out = String::new(alloc);
    let name = fault.name();
    let number = fault.number();
    write!(
        out,
        "{{\"format\":\"kdf9-facts 1\",\"kind\":\"fault\",\"of\":\"snapshot\",\"name\":\"{name}\",\"number\":{number},\"line\":{line},\"column\":1,\"text\":"
    )?;
    match line_of(bytes, line) {
        Some(text) => write_text(&mut out, text)?,
        None => out.push_str("null")?,
    }
    write_sentence(&mut out, of_snapshot(fault))?;
    out.push_str(",\"hint\":")?;
    write_snapshot_hint(&mut out, fault, line_of(bytes, line).is_some())?;
    out.push_str("}\n")?;
    Ok(out)
}

/// Writes the hint on a fault of a snapshot, whose line is there or not.
fn write_snapshot_hint(
    out: &mut String,
    fault: SnapshotFault,
    is_there: bool,
) -> Result<(), AllocError> {
    match fault {
        SnapshotFault::NoJournal if !is_there => write_plain(out, "no_journal"),
        SnapshotFault::NoEnd => write_plain(out, "no_end"),
        _ => write_none(out),
    }
}

/// Writes what a fault says.
fn write_sentence(out: &mut String, sentence: &str) -> Result<(), AllocError> {
    out.push_str(",\"sentence\":")?;
    write_text(out, sentence.as_bytes())
}

/// The facts of a fault of a deck in a job of these bytes.
pub fn deck_fault(
    alloc: Global,
    bytes: &[u8],
    job: &Job,
    found: DeckFound,
) -> Result<String, AllocError>
    requires { length bytes.now ≤ TEXT_LIMIT }
    ensures { IfOk result (λ text. Begins (deck_front found.slot found.fault found.place) (string_bytes text)) }
{
    let rest = deck_rest(alloc, bytes, job, found)?;
    let mut out = String::new(alloc);
    write_deck_front(&mut out, found)?;
    out.push_str(rest.as_str())?;
    Ok(out)
}

/// Writes which fault of a deck it is, its slot and its place there.
fn write_deck_front(out: &mut String, found: DeckFound) -> Result<(), AllocError>
    ensures { OnOk result (string_bytes out.new
        ≡ string_bytes out.old ++ deck_front found.slot found.fault found.place) }
{
    let DeckFound { slot, fault, place } = found;
    write_deck_opening(out)?;
    write_deck_named(out, fault.name(), fault.number(), slot, place)
}

fn write_deck_opening(out: &mut String) -> Result<(), AllocError>
    ensures { OnOk result (string_bytes out.new ≡ string_bytes out.old ++ deck_opening) }
{
    write!(
        out,
        "{{\"format\":\"kdf9-facts 1\",\"kind\":\"fault\",\"of\":\"deck\",\"name\":\""
    )
}

fn write_deck_named(
    out: &mut String,
    name: &str,
    number: u8,
    slot: u8,
    place: u32,
) -> Result<(), AllocError>
    ensures { OnOk result (string_bytes out.new ≡ string_bytes out.old ++ deck_named name.now number slot place) }
{
    write!(
        out,
        "{name}\",\"number\":{number},\"slot\":{slot},\"offset\":{place},"
    )
}

/// Where a fault of a deck is in the job, what stands there, and what the fault says.
fn deck_rest(alloc: Global, bytes: &[u8], job: &Job, found: DeckFound) -> Result<String, AllocError>
    requires { length bytes.now ≤ TEXT_LIMIT }
{
    let mut out = String::new(alloc);
    let deck = deck_of(job, found.slot);
    let first = Spot::of_line(deck_line(bytes, found.slot));
    write_spot(&mut out, spot_after(before(deck, found.place), first))?;
    out.push_str(",\"text\":")?;
    write_text(&mut out, subject(deck, found))?;
    write_sentence(&mut out, of_deck(found.fault))?;
    let words = size_of(alloc, deck, found.fault)?;
    if found.fault == DeckFault::TooLarge {
        write_size(&mut out, words)?;
    }
    let faulty = Faulty {
        text: deck,
        first,
        store: store_of(job, found.slot),
        fault: found.fault,
        place: found.place,
    };
    out.push_str(",\"hint\":")?;
    write_deck_hint(alloc, &mut out, faulty, subject(deck, found), words)?;
    out.push_str("}\n")?;
    Ok(out)
}

/// What stands at the place of a fault: the byte that no deck has, or the statement.
fn subject(deck: &[u8], found: DeckFound) -> &[u8] {
    let rest = from(deck, found.place);
    if found.fault == DeckFault::BadByte {
        before(rest, 1)
    } else {
        statement_of(rest)
    }
}

/// Writes how many words the image of a deck has, and the least store for it; nothing is known of one that no store has room for.
fn write_size(out: &mut String, words: Option<u32>) -> Result<(), AllocError> {
    match words {
        Some(words) => {
            let store = least_store(words);
            write!(out, ",\"words\":{words},\"store\":{store}")
        }
        None => out.push_str(",\"words\":null,\"store\":null"),
    }
}

/// How many words the image of a deck has that is too large for its store, if the largest has room for it.
fn size_of(alloc: Global, deck: &[u8], fault: DeckFault) -> Result<Option<u32>, AllocError> {
    if fault == DeckFault::TooLarge {
        image_size(alloc, deck)
    } else {
        Ok(None)
    }
}

/// How many words the image of a deck has, if the largest store has room for it.
fn image_size(alloc: Global, text: &[u8]) -> Result<Option<u32>, AllocError> {
    if text.len() > TEXT_LIMIT {
        return Ok(None);
    }
    match read_deck(alloc, text) {
        Ok(deck) => words_of(alloc, &deck),
        Err(DeckError::Memory) => Err(AllocError),
        Err(DeckError::Fault(_, _)) => Ok(None),
    }
}

/// How many words the image of a deck has that was read.
fn words_of(alloc: Global, deck: &Deck) -> Result<Option<u32>, AllocError>
    requires { IsWellFormed deck.now }
{
    match assemble(alloc, deck, MOST_STORE) {
        Ok(image) => Ok(Some(count_of(image.words.len()))),
        Err(DeckError::Memory) => Err(AllocError),
        Err(DeckError::Fault(_, _)) => Ok(None),
    }
}
