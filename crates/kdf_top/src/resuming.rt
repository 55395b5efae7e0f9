//! A run that goes on from a snapshot.
ghost use Rattle.std.specs.Prelude.{◌≡◌, ◌-◌, ◌≤◌, ℕ, List, drop, IfErr, IfOk, OnOk, length, take};
ghost use Rattle.kdf_theory.specs.MachineView.{ShowsSeen};
ghost use Rattle.kdf_job.specs.Shows.{shown_job};
ghost use Rattle.kdf_job.specs.declared.job.TheConstants.{TEXT_LIMIT};
ghost use Rattle.kdf_service.specs.Rules.{IsService};
ghost use Rattle.kdf_top.specs.Answered.{IsReason};
ghost use Rattle.kdf_top.specs.Answers.{IsCalled, IsMade, status_of};
ghost use Rattle.kdf_top.specs.Loaded.{slots_of};
ghost use Rattle.kdf_top.specs.Resumed.{HasRun, IsRead, IsSaved};
ghost use Rattle.kdf_top.specs.Snapshots.{IsCompared, IsComparedFor, IsOf, parts};
ghost use Rattle.kdf_command.specs.declared.command.Command.TheVariants as command;
ghost use Rattle.kdf_top.specs.declared.status.Status.TheVariants as status;

use crate::Status;
use crate::decks::assemble_decks;
use crate::differing::first_other_line;
use crate::making::{Produced, with_machine};
use crate::reason::MakeError;
use crate::saving::sealed_text;
use kdf_director::{Machine, follow_on};
use kdf_job::{Job, line_count, read_job_front, read_more};
use kdf_journal::Entry;
use kdf_place::Image;
use kdf_report::report;
use kdf_service::Service;
use kdf_snapshot::{RebuildError, SnapshotFault, rebuild_with, split};
use std::alloc::Global;

/// A snapshot that was read, with what goes on after it, but for the entries of its journal.
#[derive(Drop)]
pub struct Snapshot {
    /// The number of the line after the job at the front.
    pub line: u32,
    /// The number of the line after `SEAL`.
    pub seal_line: u32,
    /// The lines from there up to `ENDSNAPSHOT`, and with it.
    pub sealed: Vec<u8>,
    /// How many events the job at the front has.
    pub first: usize,
    /// The job, with the further events.
    pub job: Job,
    /// The images of its decks.
    pub images: Vec<Image>,
}

/// The bytes of a text from an offset on.
pub fn rest(text: &[u8], from: usize) -> &[u8]
    requires { from ≤ length text.now }
    ensures { result.now ≡ drop from text.now }
{
    &text[from..]
}

/// The bytes of a text from one offset to another.
fn part(text: &[u8], from: usize, to: usize) -> &[u8]
    requires order { from ≤ to }
    requires within { to ≤ length text.now }
    ensures { result.now ≡ take (to - from) (drop from text.now) }
{
    &text[from..to]
}

/// Reads a snapshot and what goes on after it, makes its run again, compares it, goes on with it, and makes the report of the whole. What it
/// doesn't need any more it gives up at once: the text before the run, and the entries before the report.
pub fn resume<F: Fn(u64) -> u64>(
    alloc: Global,
    text: Vec<u8>,
    service: &Service<F>,
) -> Result<Produced, MakeError>
    ghost bytes: { List ℕ }
    requires service { IsService (F.pre service.now) (F.post service.now) }
    requires text { text.items ≡ bytes }
    requires within { length bytes ≤ TEXT_LIMIT }
    ensures made { IfOk result (λ made. IsMade (F.post service.now) command.Resume bytes made.text.items made.machine) }
    ensures reason { IfErr result (IsReason (IsCalled (F.post service.now) command.Resume bytes)) }
{
    let (snapshot, entries) = read_snapshot(alloc, &text)?;
    drop(text);
    let machine = run_on(alloc, &snapshot, entries, service)?;
    let text = report(alloc, &snapshot.job, &machine);
    with_machine(text, machine)
}

/// Reads a snapshot and what goes on after it.
fn read_snapshot(alloc: Global, text: &[u8]) -> Result<(Snapshot, Vec<Entry>), MakeError>
    requires { length text.now ≤ TEXT_LIMIT }
    ensures read { IfOk result (λ r. IsRead text.now r.0) }
    ensures entries { IfOk result (λ r. r.1.items ≡ (parts text.now).entries) }
    ensures reason { IfErr result (IsReason (λ s. s ≡ status_of command.Resume text.now)) }
{
    let (mut job, end) = read_job_front(alloc, text)?;
    let line = line_count(&text[..end]) + 1;
    let after = rest(text, end);
    let parts = split(alloc, after, line)?;
    let first = job.events.len();
    let further = rest(after, parts.more_from);
    read_more(alloc, &mut job, further, parts.more_line)?;
    let images = assemble_decks(alloc, &job.slots)?;
    let seal_line = line + parts.entries.len() as u32 + 2;
    let sealed = Vec::from_slice(alloc, part(after, parts.seal_from, parts.more_from))?;
    let snapshot = Snapshot {
        line,
        seal_line,
        sealed,
        first,
        job,
        images,
    };
    Ok((snapshot, parts.entries))
}

/// The machine of the whole run, where the snapshot, which has these entries, is that of its front.
fn run_on<F: Fn(u64) -> u64>(
    alloc: Global,
    snapshot: &Snapshot,
    entries: Vec<Entry>,
    service: &Service<F>,
) -> Result<Machine, MakeError>
    ghost bytes: { List ℕ }
    requires service { IsService (F.pre service.now) (F.post service.now) }
    requires read { IsRead bytes snapshot.now }
    requires entries { entries.items ≡ (parts bytes).entries }
    ensures trusted { OnOk result (IsComparedFor (F.post service.now) bytes status.Done) }
    ensures run { IfOk result (HasRun (F.post service.now) snapshot.now) }
    ensures reason { IfErr result (IsReason (IsComparedFor (F.post service.now) bytes)) }
{
    match rebuild_with(
        alloc,
        &snapshot.job,
        snapshot.first,
        &snapshot.images,
        &entries,
        service,
    ) {
        Ok(machine) => {
            drop(entries);
            go_on(alloc, snapshot, machine, service)
        }
        Err(RebuildError::Differs(place)) => Err(MakeError::Refused(Status::Snapshot {
            fault: SnapshotFault::JournalDiffers,
            line: snapshot.line + 1 + place,
        })),
        Err(RebuildError::Memory) => Err(MakeError::Memory),
    }
}

/// The machine after the further events, where what is sealed is what it comes to before them. Else it is given up.
fn go_on<F: Fn(u64) -> u64>(
    alloc: Global,
    snapshot: &Snapshot,
    machine: Machine,
    service: &Service<F>,
) -> Result<Machine, MakeError>
    ghost bytes: { List ℕ }
    requires service { IsService (F.pre service.now) (F.post service.now) }
    requires read { IsRead bytes snapshot.now }
    requires saved { IsSaved (F.post service.now) bytes snapshot.now machine }
    ensures trusted { OnOk result (IsComparedFor (F.post service.now) bytes status.Done) }
    ensures run { IfOk result (HasRun (F.post service.now) snapshot.now) }
    ensures reason { IfErr result (IsReason (IsComparedFor (F.post service.now) bytes)) }
{
    let mut machine = machine;
    match follow_sealed(alloc, snapshot, &mut machine, service) {
        Ok(()) => Ok(machine),
        Err(error) => {
            machine.close();
            Err(error)
        }
    }
}

/// Compares what is sealed, and makes the calls of the further events.
fn follow_sealed<F: Fn(u64) -> u64>(
    alloc: Global,
    snapshot: &Snapshot,
    machine: &mut Machine,
    service: &Service<F>,
) -> Result<(), MakeError>
    ghost bytes: { List ℕ }
    requires service { IsService (F.pre service.now) (F.post service.now) }
    requires read { IsRead bytes snapshot.now }
    requires saved { IsSaved (F.post service.now) bytes snapshot.now machine.old }
    ensures trusted { OnOk result (IsComparedFor (F.post service.now) bytes status.Done) }
    ensures run { OnOk result (HasRun (F.post service.now) snapshot.now machine.new) }
    ensures reason { IfErr result (IsReason (IsComparedFor (F.post service.now) bytes)) }
{
    compare_seal(alloc, snapshot, machine)?;
    follow_on(machine, &snapshot.job.events, snapshot.first, service)?;
    Ok(())
}

/// Compares what is sealed with what the machine comes to.
fn compare_seal(alloc: Global, snapshot: &Snapshot, machine: &Machine) -> Result<(), MakeError>
    ghost bytes: { List ℕ }
    requires read { IsRead bytes snapshot.now }
    requires slots { machine.now.slots ≡ slots_of (shown_job snapshot.now.job) }
    requires seen { ShowsSeen machine.now }
    requires entries { machine.now.journal ≡ (parts bytes).entries }
    ensures same { OnOk result (IsOf bytes machine.now.journal) }
    ensures other { IfErr result (IsReason (IsCompared bytes machine.now.journal)) }
{
    let seal = sealed_text(alloc, &snapshot.job, machine)?;
    match first_other_line(&snapshot.sealed, &seal) {
        None => Ok(()),
        Some(place) => Err(MakeError::Refused(Status::Snapshot {
            fault: SnapshotFault::SealDiffers,
            line: snapshot.seal_line + place,
        })),
    }
}
