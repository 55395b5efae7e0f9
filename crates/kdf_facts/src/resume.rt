//! A run that goes on from a snapshot.
ghost use Rattle.std.specs.Prelude.{◌≡◌, ◌≤◌, IfOk, length};
ghost use Rattle.kdf_facts.specs.Told.{IsAnswer};
ghost use Rattle.kdf_job.specs.Shows.{shown_job};
ghost use Rattle.kdf_job.specs.WellFormed.{IsJob};
ghost use Rattle.kdf_job.specs.declared.job.TheConstants.{TEXT_LIMIT};
ghost use Rattle.kdf_service.specs.Rules.{IsService};

use crate::fault::{DeckFound, deck_fault, job_fault, large, snapshot_fault};
use crate::nowhere::Nowhere;
use crate::printed::Printed;
use crate::run::{Loaded, run_facts};
use kdf_io::MemorySource;
use kdf_job::{Job, TEXT_LIMIT, line_count, read_job_front, read_more};
use kdf_service::Service;
use kdf_snapshot::split;
use kdf_top::{Status, assemble_decks, run_with};
use std::alloc::{AllocError, Global};

/// A line of a text that is read has this number at most, or the next one.
const MOST_LINES: u32 = 268_435_456;

/// The facts of the run that goes on from a snapshot, or those of the first fault of the text, with what the program answers to these words, which
/// resume it.
pub fn resume_facts<F: Fn(u64) -> u64>(
    alloc: Global,
    words: &[String],
    bytes: &[u8],
    service: &Service<F>,
) -> Result<(Status, String), AllocError>
    requires { IsService (F.pre service.now) (F.post service.now) }
    ensures { IfOk result (λ r. IsAnswer r.0) }
{
    if bytes.len() > TEXT_LIMIT {
        return Ok((Status::Large, large(alloc, TEXT_LIMIT)?));
    }
    let status = status_of(alloc, words, bytes, service)?;
    let told = match status {
        Status::Job { fault, line } => job_fault(alloc, bytes, fault, line)?,
        Status::Deck { slot, fault, place } => {
            let found = DeckFound { slot, fault, place };
            fault_of_front(alloc, bytes, found)?
        }
        Status::Snapshot { fault, line } => snapshot_fault(alloc, bytes, fault, line)?,
        _ => run_on(alloc, bytes, service)?,
    };
    Ok((status, told))
}

/// What the program answers to words over a text.
fn status_of<F: Fn(u64) -> u64>(
    alloc: Global,
    words: &[String],
    bytes: &[u8],
    service: &Service<F>,
) -> Result<Status, AllocError>
    requires { IsService (F.pre service.now) (F.post service.now) }
    ensures { IfOk result IsAnswer }
{
    let text = Vec::from_slice(alloc, bytes)?;
    let mut source = MemorySource::new(text, bytes.len().max(1), Vec::new(alloc));
    let mut sink = Nowhere::new();
    let outcome = run_with(alloc, words, &mut source, &mut sink, service);
    let status = outcome.status;
    outcome.close();
    match status {
        Status::Usage | Status::ReadFault | Status::WriteFault | Status::Memory => Err(AllocError),
        status => Ok(status),
    }
}

/// The facts of a fault in a deck of the job at the front of a text.
fn fault_of_front(alloc: Global, bytes: &[u8], found: DeckFound) -> Result<String, AllocError>
    requires { length bytes.now ≤ TEXT_LIMIT }
{
    match read_job_front(alloc, bytes) {
        Ok((job, _end)) => deck_fault(alloc, bytes, &job, found),
        Err(_) => Err(AllocError),
    }
}

/// The facts of the run of the whole job: that at the front, with the events after the snapshot.
fn run_on<F: Fn(u64) -> u64>(
    alloc: Global,
    bytes: &[u8],
    service: &Service<F>,
) -> Result<String, AllocError>
    requires service { IsService (F.pre service.now) (F.post service.now) }
    requires few { length bytes.now ≤ TEXT_LIMIT }
{
    let job = whole_job(alloc, bytes)?;
    run_of(alloc, bytes, &job, service)
}

/// The job at the front of a text that is a snapshot, with the events after the snapshot.
fn whole_job(alloc: Global, bytes: &[u8]) -> Result<Job, AllocError>
    requires { length bytes.now ≤ TEXT_LIMIT }
    ensures { IfOk result (λ job. IsJob (shown_job job)) }
{
    match read_job_front(alloc, bytes) {
        Ok((job, end)) => with_events(alloc, job, &bytes[end..], line_count(&bytes[..end])),
        Err(_) => Err(AllocError),
    }
}

/// The job with the events after a snapshot that follows its lines, of which there are so many.
fn with_events(alloc: Global, job: Job, after: &[u8], lines: u32) -> Result<Job, AllocError>
    requires few { length after.now ≤ TEXT_LIMIT }
    requires job { IsJob (shown_job job) }
    ensures { IfOk result (λ whole. IsJob (shown_job whole)) }
{
    let mut job = job;
    add_events(alloc, &mut job, after, lines)?;
    Ok(job)
}

/// Adds the events after a snapshot to those of the job before it, which has so many lines.
fn add_events(alloc: Global, job: &mut Job, after: &[u8], lines: u32) -> Result<(), AllocError>
    requires few { length after.now ≤ TEXT_LIMIT }
    requires job { IsJob (shown_job job.old) }
    ensures { IsJob (shown_job job.new) }
{
    if lines > MOST_LINES {
        return Err(AllocError);
    }
    let Ok(parts) = split(alloc, after, lines + 1) else {
        return Err(AllocError);
    };
    if parts.more_line > MOST_LINES {
        return Err(AllocError);
    }
    match read_more(alloc, job, &after[parts.more_from..], parts.more_line) {
        Ok(()) => Ok(()),
        Err(_) => Err(AllocError),
    }
}

/// The facts of the run of a job that stands in a text.
fn run_of<F: Fn(u64) -> u64>(
    alloc: Global,
    bytes: &[u8],
    job: &Job,
    service: &Service<F>,
) -> Result<String, AllocError>
    requires service { IsService (F.pre service.now) (F.post service.now) }
    requires few { length bytes.now ≤ TEXT_LIMIT }
    requires job { IsJob (shown_job job.now) }
{
    match assemble_decks(alloc, &job.slots) {
        Ok(images) => {
            let loaded = Loaded {
                bytes,
                job,
                images: &images,
            };
            run_facts(alloc, loaded, Printed::Report, service)
        }
        Err(_) => Err(AllocError),
    }
}
