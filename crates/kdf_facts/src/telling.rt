//! The facts that the words of a command ask for.
ghost use Rattle.std.specs.Prelude.{◌≡◌, ◌≤◌, Some, true, false, IfOk, length, map, string_bytes};
ghost use Rattle.kdf_facts.specs.Faults.{deck_front, job_front};
ghost use Rattle.kdf_facts.specs.Run.{Begins, IsRunTold};
ghost use Rattle.kdf_facts.specs.Told.{IsAnswer, OfJob, TellsDeck, TellsFault, TellsJob, called_over};
ghost use Rattle.kdf_facts.specs.declared.telling.Wanted.TheVariants as asked;
ghost use Rattle.kdf_job.specs.Shows.{shown_job};
ghost use Rattle.kdf_job.specs.WellFormed.{IsJob};
ghost use Rattle.kdf_job.specs.declared.job.TheConstants.{TEXT_LIMIT};
ghost use Rattle.kdf_service.specs.Rules.{IsService};
ghost use Rattle.kdf_top.specs.Answers.{status_of_decks};
ghost use Rattle.kdf_command.specs.Commands.{command, is_command};
ghost use Rattle.kdf_top.specs.Deck.{deck_fault};
ghost use Rattle.kdf_top.specs.Loaded.{HasImages};
ghost use Rattle.kdf_command.specs.declared.command.Command.TheVariants.{Run};
ghost use Rattle.kdf_top.specs.declared.status.Status.TheVariants as status;

use crate::alone::alone_facts;
use crate::check::check_facts;
use crate::fault::{DeckFound, deck_fault, deck_of, job_fault, large};
use crate::printed::Printed;
use crate::resume::resume_facts;
use crate::run::{Loaded, run_facts};
use crate::snapshot::snapshot_facts;
use crate::watch::watch_facts;
use kdf_command::JOB_LIMIT;
use kdf_job::{Job, JobError, JobFault, TEXT_LIMIT, generated, read_job, read_job_front};
use kdf_json::deck_line;
use kdf_listing::{absent_text, lay_out, listing_text};
use kdf_place::Image;
use kdf_service::Service;
use kdf_top::{Command, DecksError, Status, assemble_decks, command_of};
use std::alloc::{AllocError, Global};

/// What facts are wanted of a job.
#[derive(Clone, Copy)]
enum Wanted {
    /// Those of its run.
    Run,
    /// Those of its run, where it is the job that is made of a number.
    Made(u16),
    /// Those of the deck of a slot.
    Listing(u8),
    /// When the program of a slot came to an address.
    Watch(u8, u16),
    /// Those of the program of a slot by itself.
    Alone(u8),
    /// Those of a snapshot.
    Snapshot,
}

/// The facts that the words of a command ask for, over the text that it reads, with what the program answers to them; or those of the text's first fault.
pub fn facts<F: Fn(u64) -> u64>(
    alloc: Global,
    words: &[String],
    bytes: &[u8],
    service: &Service<F>,
) -> Result<(Status, Vec<u8>), AllocError>
    requires service { IsService (F.pre service.now) (F.post service.now) }
    ensures called { command (map string_bytes words.now) ≡ Some Run → IfOk result (λ r.
        r.0 ≡ called_over bytes.now) }
    ensures answer { is_command (map string_bytes words.now) ≡ true → IfOk result (λ r. IsAnswer r.0) }
    ensures usage { is_command (map string_bytes words.now) ≡ false → IfOk result (λ r.
        r.0 ≡ status.Usage) }
    ensures run { command (map string_bytes words.now) ≡ Some Run → IfOk result (λ r.
        OfJob (TellsJob (F.post service.now)) bytes.now r.1.items) }
    ensures deck { command (map string_bytes words.now) ≡ Some Run → IfOk result (λ r.
        OfJob TellsDeck bytes.now r.1.items) }
    ensures fault { command (map string_bytes words.now) ≡ Some Run → IfOk result (λ r.
        TellsFault bytes.now r.1.items) }
{
    let (status, told) = match command_of(alloc, words)? {
        Some(Command::Run) => within(alloc, Wanted::Run, bytes, service)?,
        Some(Command::Asm(p)) => within(alloc, Wanted::Listing(p), bytes, service)?,
        Some(Command::Watch(p, w)) => within(alloc, Wanted::Watch(p, w), bytes, service)?,
        Some(Command::Alone(p)) => within(alloc, Wanted::Alone(p), bytes, service)?,
        Some(Command::Save) => within(alloc, Wanted::Snapshot, bytes, service)?,
        Some(Command::Make(n)) => of_made(alloc, n, service)?,
        Some(Command::Check) => of_report(alloc, bytes, service)?,
        Some(Command::Resume) => resume_facts(alloc, words, bytes, service)?,
        None => (Status::Usage, usage(alloc)?),
    };
    Ok((status, told.into_bytes()))
}

/// What words are told that are no command.
fn usage(alloc: Global) -> Result<String, AllocError> {
    let mut out = String::new(alloc);
    out.push_str(
        "{\"format\":\"kdf9-facts 1\",\"kind\":\"usage\",\"sentence\":\"facts are told of run, alone K, asm K, make N, save, resume, check and watch K W\"}\n",
    )?;
    Ok(out)
}

/// The facts of the run of the job that is made from a number.
fn of_made<F: Fn(u64) -> u64>(
    alloc: Global,
    n: u16,
    service: &Service<F>,
) -> Result<(Status, String), AllocError>
    requires service { IsService (F.pre service.now) (F.post service.now) }
    ensures { IfOk result (λ r. IsAnswer r.0) }
{
    let bytes = generated(alloc, n)?;
    within(alloc, Wanted::Made(n), &bytes, service)
}

/// The facts of the verdict on a report after its job.
fn of_report<F: Fn(u64) -> u64>(
    alloc: Global,
    bytes: &[u8],
    service: &Service<F>,
) -> Result<(Status, String), AllocError>
    requires service { IsService (F.pre service.now) (F.post service.now) }
    ensures { IfOk result (λ r. IsAnswer r.0) }
{
    if bytes.len() > TEXT_LIMIT {
        return Ok((Status::Large, large(alloc, TEXT_LIMIT)?));
    }
    match read_job_front(alloc, bytes) {
        Ok((job, end)) => of_front(alloc, bytes, end, &job, service),
        Err(JobError::Fault(fault, number)) => of_fault(alloc, bytes, fault, number),
        Err(JobError::Memory) => Err(AllocError),
    }
}

/// The facts of the verdict on a report that begins at an offset, or of the first fault of the decks of the job before it.
fn of_front<F: Fn(u64) -> u64>(
    alloc: Global,
    bytes: &[u8],
    end: usize,
    job: &Job,
    service: &Service<F>,
) -> Result<(Status, String), AllocError>
    requires service { IsService (F.pre service.now) (F.post service.now) }
    requires few { length bytes.now ≤ TEXT_LIMIT }
    requires end { end ≤ length bytes.now }
    requires job { IsJob (shown_job job.now) }
    ensures { IfOk result (λ r. IsAnswer r.0) }
{
    match assemble_decks(alloc, &job.slots) {
        Ok(images) => {
            let told = check_facts(alloc, bytes, end, job, &images, service)?;
            Ok((Status::Done, told))
        }
        Err(DecksError::Fault(slot, fault, at)) => {
            let told = DeckFound {
                slot,
                fault,
                place: at,
            };
            of_deck_fault(alloc, bytes, job, told)
        }
        Err(DecksError::Memory) => Err(AllocError),
    }
}

/// The facts of a job, or of a text that is too large for one.
#[tactic(auto, using(crate::proofs::Called::called_large, crate::proofs::Called::called_fault, crate::proofs::Called::called_decks))]
fn within<F: Fn(u64) -> u64>(
    alloc: Global,
    wanted: Wanted,
    bytes: &[u8],
    service: &Service<F>,
) -> Result<(Status, String), AllocError>
    requires service { IsService (F.pre service.now) (F.post service.now) }
    ensures called { IfOk result (λ r. r.0 ≡ called_over bytes.now) }
    ensures answer { IfOk result (λ r. IsAnswer r.0) }
    ensures run { wanted ≡ asked.Run → IfOk result (λ r.
        OfJob (TellsJob (F.post service.now)) bytes.now (string_bytes r.1)) }
    ensures deck { IfOk result (λ r. OfJob TellsDeck bytes.now (string_bytes r.1)) }
    ensures fault { IfOk result (λ r. TellsFault bytes.now (string_bytes r.1)) }
{
    if bytes.len() > JOB_LIMIT {
        return Ok((Status::Large, large(alloc, JOB_LIMIT)?));
    }
    match read_job(alloc, bytes) {
        Ok(job) => of_job(alloc, wanted, bytes, &job, service),
        Err(JobError::Fault(fault, line)) => of_fault(alloc, bytes, fault, line),
        Err(JobError::Memory) => Err(AllocError),
    }
}

/// The facts of a fault in a line of a job.
fn of_fault(
    alloc: Global,
    bytes: &[u8],
    fault: JobFault,
    line: u32,
) -> Result<(Status, String), AllocError>
    requires { length bytes.now ≤ TEXT_LIMIT }
    ensures answer { IfOk result (λ r. IsAnswer r.0) }
    ensures status { IfOk result (λ r. r.0 ≡ status.Job fault line) }
    ensures text { IfOk result (λ r. Begins (job_front fault line) (string_bytes r.1)) }
{
    let told = job_fault(alloc, bytes, fault, line)?;
    Ok((Status::Job { fault, line }, told))
}

/// The facts of a fault in a deck of a job.
fn of_deck_fault(
    alloc: Global,
    bytes: &[u8],
    job: &Job,
    found: DeckFound,
) -> Result<(Status, String), AllocError>
    requires { length bytes.now ≤ TEXT_LIMIT }
    ensures answer { IfOk result (λ r. IsAnswer r.0) }
    ensures status { IfOk result (λ r. r.0 ≡ status.Deck found.slot found.fault found.place) }
    ensures text { IfOk result (λ r. Begins (deck_front found.slot found.fault found.place) (string_bytes r.1)) }
{
    let told = deck_fault(alloc, bytes, job, found)?;
    let DeckFound { slot, fault, place } = found;
    Ok((Status::Deck { slot, fault, place }, told))
}

/// The facts of a job that was read, or of the first fault of its decks.
fn of_job<F: Fn(u64) -> u64>(
    alloc: Global,
    wanted: Wanted,
    bytes: &[u8],
    job: &Job,
    service: &Service<F>,
) -> Result<(Status, String), AllocError>
    requires service { IsService (F.pre service.now) (F.post service.now) }
    requires few { length bytes.now ≤ TEXT_LIMIT }
    requires job { IsJob (shown_job job.now) }
    ensures answer { IfOk result (λ r. IsAnswer r.0) }
    ensures status { IfOk result (λ r. r.0 ≡ status_of_decks (deck_fault (shown_job job.now).slots)) }
    ensures run { wanted ≡ asked.Run → IfOk result (λ r.
        TellsJob (F.post service.now) (shown_job job.now) (string_bytes r.1)) }
    ensures deck { IfOk result (λ r. TellsDeck (shown_job job.now) (string_bytes r.1)) }
{
    match assemble_decks(alloc, &job.slots) {
        Ok(images) => {
            let told = of_images(alloc, wanted, bytes, job, &images, service)?;
            Ok((Status::Done, told))
        }
        Err(DecksError::Fault(slot, fault, place)) => {
            let found = DeckFound { slot, fault, place };
            of_deck_fault(alloc, bytes, job, found)
        }
        Err(DecksError::Memory) => Err(AllocError),
    }
}

/// The facts of a job whose decks have no fault.
fn of_images<F: Fn(u64) -> u64>(
    alloc: Global,
    wanted: Wanted,
    bytes: &[u8],
    job: &Job,
    images: &[Image],
    service: &Service<F>,
) -> Result<String, AllocError>
    requires service { IsService (F.pre service.now) (F.post service.now) }
    requires few { length bytes.now ≤ TEXT_LIMIT }
    requires job { IsJob (shown_job job.now) }
    requires images { HasImages (shown_job job.now).slots images.now }
    ensures run { wanted ≡ asked.Run → IfOk result (λ text.
        IsRunTold (F.post service.now) (shown_job job.now) (string_bytes text)) }
{
    let loaded = Loaded { bytes, job, images };
    match wanted {
        Wanted::Run => run_facts(alloc, loaded, Printed::Report, service),
        Wanted::Made(n) => run_facts(alloc, loaded, Printed::Summary(n), service),
        Wanted::Listing(p) => of_slot(alloc, p, loaded),
        Wanted::Watch(p, address) => watch_facts(alloc, job, images, p, address, service),
        Wanted::Alone(p) => alone_facts(alloc, bytes, job, images, p),
        Wanted::Snapshot => snapshot_facts(alloc, loaded, service),
    }
}

/// The facts of the deck of a slot.
fn of_slot(alloc: Global, p: u8, loaded: Loaded<'_>) -> Result<String, AllocError>
    requires { length loaded.bytes.now ≤ TEXT_LIMIT }
{
    match image_of(loaded.job, loaded.images, p) {
        Some(image) => {
            let text = deck_of(loaded.job, p);
            let layout = lay_out(alloc, text, deck_line(loaded.bytes, p))?;
            listing_text(alloc, p, &layout, image)
        }
        None => absent_text(alloc, p),
    }
}

/// The image of the deck of a slot.
fn image_of<'a>(job: &Job, images: &'a [Image], p: u8) -> Option<&'a Image> {
    for (i, slot) in job.slots.iter().enumerate() {
        if slot.p == p {
            return images.get(i);
        }
    }
    None
}
