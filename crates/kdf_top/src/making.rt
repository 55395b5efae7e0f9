//! What each command makes of its text: a text and, where it runs a job under Director, the machine.
ghost use Rattle.std.specs.Prelude.{◌≡◌, ◌<◌, ◌≤◌, Ok, Err, Some, None, IfErr, IfOk, length};
ghost use Rattle.kdf_job.specs.declared.job.TheConstants.{TEXT_LIMIT};
ghost use Rattle.kdf_service.specs.Rules.{IsService};
ghost use Rattle.kdf_top.specs.Answered.{IsReason};
ghost use Rattle.kdf_top.specs.Answers.{IsCalled, IsMade};
ghost use Rattle.kdf_command.specs.Commands.{HasAddress};
ghost use Rattle.kdf_command.specs.declared.command.Command.TheVariants as command;
ghost use Rattle.kdf_top.specs.declared.reason.MakeError.TheVariants.{Memory};

use crate::alone::alone;
use crate::checking::check;
use crate::listing::list;
use crate::loading::load;
use crate::reason::MakeError;
use crate::resuming::resume;
use crate::running::run_job;
use crate::saving::snapshot;
use crate::watching::{watch_job, watched_text};
use kdf_command::Command;
use kdf_director::Machine;
use kdf_limits::PROGRAM_WORDS;
use kdf_report::{report, summary};
use kdf_service::Service;
use std::alloc::{AllocError, Global};

/// What a command made of its text: the text that it writes, and the machine that it keeps.
pub struct Produced {
    pub text: Vec<u8>,
    pub machine: Option<Machine>,
}

/// What a command makes of its text. Where it runs a job under Director, the service answers the programs.
pub fn produce<F: Fn(u64) -> u64>(
    alloc: Global,
    command: Command,
    text: Vec<u8>,
    service: &Service<F>,
) -> Result<Produced, MakeError>
    requires service { IsService (F.pre service.now) (F.post service.now) }
    requires within { length text.items ≤ TEXT_LIMIT }
    requires address { HasAddress command }
    ensures made { IfOk result (λ made. IsMade (F.post service.now) command text.items made.text.items made.machine) }
    ensures reason { IfErr result (IsReason (IsCalled (F.post service.now) command text.items)) }
{
    match command {
        Command::Run => report_run(alloc, &text, service),
        Command::Save => save(alloc, &text, service),
        Command::Resume => resume(alloc, text, service),
        Command::Check => without_machine(check(alloc, &text, service)),
        Command::Alone(p) => without_machine(alone(alloc, &text, p)),
        Command::Asm(p) => without_machine(list(alloc, &text, p)),
        Command::Make(n) => sum(alloc, n, &text, service),
        Command::Watch(slot, address) => watch(alloc, slot, address, &text, service),
    }
}

/// Runs a job, and makes its report.
fn report_run<F: Fn(u64) -> u64>(
    alloc: Global,
    job_bytes: &[u8],
    service: &Service<F>,
) -> Result<Produced, MakeError>
    requires service { IsService (F.pre service.now) (F.post service.now) }
    requires within { length job_bytes.now ≤ TEXT_LIMIT }
    ensures made { IfOk result (λ made. IsMade (F.post service.now) command.Run job_bytes.now made.text.items
        made.machine) }
    ensures reason { IfErr result (IsReason (IsCalled (F.post service.now) command.Run job_bytes.now)) }
{
    let (job, images) = load(alloc, job_bytes)?;
    let machine = run_job(alloc, &job, &images, service)?;
    let text = report(alloc, &job, &machine);
    with_machine(text, machine)
}

/// Runs a job, and makes its snapshot.
fn save<F: Fn(u64) -> u64>(
    alloc: Global,
    job_bytes: &[u8],
    service: &Service<F>,
) -> Result<Produced, MakeError>
    requires service { IsService (F.pre service.now) (F.post service.now) }
    requires within { length job_bytes.now ≤ TEXT_LIMIT }
    ensures made { IfOk result (λ made. IsMade (F.post service.now) command.Save job_bytes.now made.text.items
        made.machine) }
    ensures reason { IfErr result (IsReason (IsCalled (F.post service.now) command.Save job_bytes.now)) }
{
    let (job, images) = load(alloc, job_bytes)?;
    let machine = run_job(alloc, &job, &images, service)?;
    let text = snapshot(alloc, job_bytes, &job, &machine);
    with_machine(text, machine)
}

/// Runs the job that is made from a number, and makes its summary.
fn sum<F: Fn(u64) -> u64>(
    alloc: Global,
    n: u16,
    job_bytes: &[u8],
    service: &Service<F>,
) -> Result<Produced, MakeError>
    requires service { IsService (F.pre service.now) (F.post service.now) }
    requires within { length job_bytes.now ≤ TEXT_LIMIT }
    ensures made { IfOk result (λ made. IsMade (F.post service.now) (command.Make n) job_bytes.now made.text.items
        made.machine) }
    ensures reason { IfErr result (IsReason (IsCalled (F.post service.now) (command.Make n) job_bytes.now)) }
{
    let (job, images) = load(alloc, job_bytes)?;
    let machine = run_job(alloc, &job, &images, service)?;
    let text = summary(alloc, n, job_bytes.len() as u32, &job, &machine);
    with_machine(text, machine)
}

/// Runs a job, and makes the text of when the program of a slot came to an address, with the job's report.
fn watch<F: Fn(u64) -> u64>(
    alloc: Global,
    slot: u8,
    address: u16,
    job_bytes: &[u8],
    service: &Service<F>,
) -> Result<Produced, MakeError>
    requires service { IsService (F.pre service.now) (F.post service.now) }
    requires within { length job_bytes.now ≤ TEXT_LIMIT }
    requires address { address < PROGRAM_WORDS }
    ensures made { IfOk result (λ made. IsMade (F.post service.now) (command.Watch slot address) job_bytes.now
        made.text.items made.machine) }
    ensures reason { IfErr result (IsReason (IsCalled (F.post service.now) (command.Watch slot address)
        job_bytes.now)) }
{
    let (job, images) = load(alloc, job_bytes)?;
    let (machine, stops) = watch_job(alloc, &job, &images, slot, address, service)?;
    let text = watched_text(alloc, slot, address, &stops, &job, &machine);
    with_machine(text, machine)
}

/// A text without a machine.
fn without_machine(text: Result<Vec<u8>, MakeError>) -> Result<Produced, MakeError>
    ensures text { IfOk result (λ made. text ≡ Ok made.text) }
    ensures machine { IfOk result (λ made. made.machine ≡ None) }
    ensures reason { IfErr result (λ e. text ≡ Err e) }
{
    match text {
        Ok(text) => Ok(Produced {
            text,
            machine: None,
        }),
        Err(error) => Err(error),
    }
}

/// A text with its machine, which is given up where there was no memory for the text.
pub fn with_machine(
    text: Result<Vec<u8>, AllocError>,
    machine: Machine,
) -> Result<Produced, MakeError>
    ensures text { IfOk result (λ made. text ≡ Ok made.text) }
    ensures machine { IfOk result (λ made. made.machine ≡ Some machine) }
    ensures memory { IfErr result (λ e. e ≡ Memory) }
{
    match text {
        Ok(text) => Ok(Produced {
            text,
            machine: Some(machine),
        }),
        Err(_) => {
            machine.close();
            Err(MakeError::Memory)
        }
    }
}
