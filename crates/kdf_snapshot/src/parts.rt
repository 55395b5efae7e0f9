//! The parts of a snapshot after its job.
ghost use Rattle.std.specs.Prelude.{◌≡◌, ◌+◌, ◌≤◌, false, true, Ok, IfErr, IfNone, IfOk, IfSome, OnOk, length};
ghost use Rattle.kdf_text.specs.Ahead.{ahead};
ghost use Rattle.kdf_text.specs.Lines.{is_text, line};
ghost use Rattle.kdf_snapshot.specs.Parts.{IsInside, Says, shown_parts};
ghost use Rattle.kdf_snapshot.specs.Passed.{Passed, PassedAll, PassedEnd};
ghost use Rattle.kdf_snapshot.specs.Snapshot.{entries_from, journal_line, parts_of};
ghost use Rattle.kdf_snapshot.specs.declared.fault.SnapshotFault.TheVariants.{NoJournal};
ghost use Rattle.kdf_snapshot.specs.declared.fault.SplitError.TheVariants.{Fault};

use crate::cursor::Cursor;
use crate::{SnapshotFault, SplitError};
use kdf_journal::{Entry, read_entry};
use std::alloc::Global;

// `END 0` has as many bytes, and no printed entry has fewer.
const SHORTEST: usize = 5;

/// The parts of a snapshot after its job. Offsets count from the byte after the job.
#[derive(Drop)]
pub struct Parts {
    /// The entries of the journal's lines, in their order.
    pub entries: Vec<Entry>,
    /// The offset of the line after `SEAL`.
    pub seal_from: usize,
    /// The offset of the first `ENDSNAPSHOT` after that.
    pub seal_to: usize,
    /// The offset of the line after this `ENDSNAPSHOT`.
    pub more_from: usize,
    /// The number of that line.
    pub more_line: u32,
}

/// Splits what stands after the job of a snapshot. `first_line` is the number of its first line, at most 268,435,457, and it has at
/// most 268,435,456 bytes.
///
/// # Errors
///
/// `Fault` with the first of the faults `NoJournal`, `BadEntry` and `NoEnd` and its line, exactly where there is one; `Memory` where
/// there is none.
pub fn split(alloc: Global, bytes: &[u8], first_line: u32) -> Result<Parts, SplitError>
    requires line { first_line ≤ 268435457 }
    requires length { length bytes.now ≤ 268435456 }
    ensures ok { IfOk result (λ p. parts_of first_line bytes.now ≡ Ok (shown_parts p)) }
    ensures fault { IfErr result (λ e. Says e (parts_of first_line bytes.now)) }
    ensures inside { IfOk result (IsInside first_line (length bytes.now)) }
{
    let mut at = Cursor::new(bytes, first_line);
    pass_head(&mut at)?;
    let entries = take_entries(alloc, &mut at)?;
    let seal_from = at.offset;
    let Some(seal_to) = pass_sealed(&mut at) else {
        return Err(SplitError::Fault(SnapshotFault::NoEnd, at.lines.number));
    };
    Ok(Parts {
        entries,
        seal_from,
        seal_to,
        more_from: at.offset.min(bytes.len()),
        more_line: at.lines.number,
    })
}

/// Passes the line `JOURNAL`.
fn pass_head(at: &mut Cursor) -> Result<(), SplitError>
    ensures ok { OnOk result ((is_text journal_line (line (ahead at.old.lines) 1) ≡ true) × Passed 1 at.old at.new) }
    ensures fault { IfErr result (λ e. (is_text journal_line (line (ahead at.old.lines) 1) ≡ false)
        × (e ≡ Fault NoJournal at.old.lines.number)) }
{
    if at.is_at_end() {
        return Err(SplitError::Fault(SnapshotFault::NoJournal, at.lines.number));
    }
    let number = at.lines.number;
    if at.take_line() == b"JOURNAL".as_slice() {
        Ok(())
    } else {
        Err(SplitError::Fault(SnapshotFault::NoJournal, number))
    }
}

/// Passes the lines of the journal, with the line `SEAL`, and gives their entries.
fn take_entries(alloc: Global, at: &mut Cursor) -> Result<Vec<Entry>, SplitError>
    ensures ok { IfOk result (λ es. entries_from at.old.lines.number (ahead at.old.lines) ≡ Ok es.items) }
    ensures passed { IfOk result (λ es. Passed (length es.items + 1) at.old at.new) }
    ensures fault { IfErr result (λ e. Says e (entries_from at.old.lines.number (ahead at.old.lines))) }
{
    let mut entries = Vec::with_capacity(alloc, count_entries(*at))?;
    while !at.is_at_end() {
        let number = at.lines.number;
        let line = at.take_line();
        if line == b"SEAL".as_slice() {
            return Ok(entries);
        }
        let Some(entry) = read_entry(line) else {
            return Err(SplitError::Fault(SnapshotFault::BadEntry, number));
        };
        entries.push(entry)?;
    }
    Err(SplitError::Fault(SnapshotFault::BadEntry, at.lines.number))
}

/// How many lines may be entries, up to the first that is too short for one, as `SEAL` is. So memory for as many entries is less than
/// three times that of the lines.
fn count_entries(at: Cursor) -> usize
    ensures { result ≤ length at.entry.lines.rest.now }
{
    let mut at = at;
    let mut count = 0;
    while !at.is_at_end() {
        let line = at.take_line();
        if line.len() < SHORTEST {
            return count;
        }
        count += 1;
    }
    count
}

/// Passes what is sealed, with the first line `ENDSNAPSHOT`, and tells the offset of that line; `None` where there is none.
fn pass_sealed(at: &mut Cursor) -> Option<usize>
    ensures some { IfSome result (λ begin. PassedEnd at.old at.new begin) }
    ensures none { IfNone result (PassedAll at.old at.new) }
{
    while !at.is_at_end() {
        let offset = at.offset;
        if at.take_line() == b"ENDSNAPSHOT".as_slice() {
            return Some(offset);
        }
    }
    None
}
