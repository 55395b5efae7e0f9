//! The call that answers the words of a command: it reads or makes the text of the command, and writes what the command makes of it, or
//! why there is nothing.
ghost use Rattle.std.specs.Prelude.{◌≡◌, ◌≢◌, ℕ, ◌≤◌, ◌⊎◌, List, [], None, Some, length, true, false, IfSome, is_some, map, string_bytes};
ghost use Rattle.kdf_io.specs.Outside.{HasRisen, Advances};
ghost use Rattle.kdf_job.specs.Made.{made_text};
ghost use Rattle.kdf_job.specs.declared.job.TheConstants.{TEXT_LIMIT};
ghost use Rattle.kdf_service.specs.Rules.{IsService};
ghost use Rattle.kdf_top.specs.Answered.{inlet, outlet, IsGiven, IsRefusal, IsRefused, IsRun, ReadsAll, Takes};
ghost use Rattle.kdf_top.specs.Answers.{Answers, IsCalled, IsCalledFor, IsDoneBy, IsDueFor, IsFaultless, IsTrusted, Wrote, WroteFrontBy, is_kept, job_text, reads, reads_by};
ghost use Rattle.kdf_command.specs.Commands.{HasAddress, command, input_of, is_command, is_too_long};
ghost use Rattle.kdf_top.specs.Deck.{deck_fault};
ghost use Rattle.kdf_top.specs.Due.{job_of};
ghost use Rattle.kdf_command.specs.declared.command.Command.{Command};
ghost use Rattle.kdf_command.specs.declared.command.Input.TheVariants as input;

use crate::making::{Produced, produce};
use crate::reason::MakeError;
use crate::refusal::refusal_text;
use crate::{Outcome, Status};
use kdf_command::{Command, Input, command_of, limit_by};
use kdf_director::Machine;
use kdf_io::{ReadEnd, Sink, Source, read_all, write_all};
use kdf_job::generated;
use kdf_service::Service;
use std::alloc::Global;

/// Answers the words of a command: reads its text, a job or a snapshot, from the source or makes it, and writes what the command makes
/// of it to the sink, or why there is nothing.
///
/// The words are those after the program's name. What is written is made whole before its first byte is written. The service answers the
/// programs of a job that runs under Director.
pub fn run_with<S: Source, K: Sink, F: Fn(u64) -> u64>(
    alloc: Global,
    words: &[String],
    source: &mut S,
    sink: &mut K,
    service: &Service<F>,
) -> Outcome
    requires service { IsService (F.pre service.now) (F.post service.now) }

    // The answer is the one that the words and the bytes call for, unless reading or writing failed, or memory.
    ensures answer { let read_failed = HasRisen (S.faults source.old) (S.faults source.new) in
        let write_failed = HasRisen (K.faults sink.old) (K.faults sink.new) in
        IfSome (S.left source.old)
        (λ bytes. Answers (IsCalledFor (F.post service.now) (map string_bytes words.now) bytes) result.status
        read_failed write_failed) }

    // Where nothing fails, a command over a text without a fault, no deck of whose job has one, is done, and other words are told how
    // to use the program; or there was no memory. A snapshot has to be that of its job, too.
    ensures complete { (c : Command) → command (map string_bytes words.now) ≡ Some c
        → IfSome (S.left source.old) (λ bytes. is_too_long (input_of c) bytes ≡ false
        → IsFaultless c (job_text c bytes) → deck_fault (job_of c (job_text c bytes)).slots ≡ None
        → IsTrusted (F.post service.now) c (job_text c bytes)
        → ¬ (HasRisen (S.faults source.old) (S.faults source.new))
        → ¬ (HasRisen (K.faults sink.old) (K.faults sink.new))
        → (result.status ≡ Status.Done) ⊎ (result.status ≡ Status.Memory)) }
    ensures complete_usage { is_command (map string_bytes words.now) ≡ false
        → ¬ (HasRisen (K.faults sink.old) (K.faults sink.new))
        → (result.status ≡ Status.Usage) ⊎ (result.status ≡ Status.Memory) }

    // Causes that hold also where the source tells nothing. Words that are no command read nothing, nor does a command that makes its
    // job, and their answer goes by the words alone.
    ensures unread { reads (map string_bytes words.now) ≡ false
        → Answers (IsCalledFor (F.post service.now) (map string_bytes words.now) []) result.status ⊥
        (HasRisen (K.faults sink.old) (K.faults sink.new)) }
    ensures untouched { reads (map string_bytes words.now) ≡ false → source.new ≡ source.old }
    ensures command { is_command (map string_bytes words.now) ≡ true
        → result.status ≢ Status.Usage }
    ensures read_fault { result.status ≡ Status.ReadFault
        → HasRisen (S.faults source.old) (S.faults source.new) }
    ensures write_fault { result.status ≡ Status.WriteFault
        → HasRisen (K.faults sink.old) (K.faults sink.new) }

    // Whatever is answered, at most one byte more is taken than the command may read.
    ensures taken { Takes (command (map string_bytes words.now)) (S.left source.old) (S.left source.new) }

    // At Done a command that reads has read all. One that runs its job under Director keeps the machine: its journal is legal and
    // whole, and true for the service, what it shows is what is seen of the lone runs, and none of those that are over has a transfer
    // in flight. The sink took the command's text.
    ensures machine { is_some result.machine ≡ is_kept (map string_bytes words.now) result.status }
    ensures ended { result.status ≡ Status.Done
        → ReadsAll (command (map string_bytes words.now)) (S.left source.new) }
    ensures done { result.status ≡ Status.Done → IfSome (S.left source.old)
        (λ bytes. IsDoneBy (F.post service.now) (command (map string_bytes words.now)) bytes result.machine
        (K.written sink.old) (K.written sink.new)) }
    ensures done_untold { result.status ≡ Status.Done → (bytes : List ℕ)
        × Advances (S.left source.old) bytes (S.left source.new)
        × IsDoneBy (F.post service.now) (command (map string_bytes words.now)) bytes result.machine
        (K.written sink.old) (K.written sink.new) }

    // What is written at the other answers.
    ensures wrote { Wrote (command (map string_bytes words.now)) result.status (K.written sink.old)
        (K.written sink.new) }
    ensures front { result.status ≡ Status.WriteFault → IfSome (S.left source.old)
        (λ bytes. WroteFrontBy (F.post service.now) (command (map string_bytes words.now)) bytes
        (K.written sink.old) (K.written sink.new)) }

    // A steady source, and a sink with room for the text that is due, don't fail.
    ensures steady_reads { S.steady source.old → result.status ≢ Status.ReadFault }
    ensures steady_count { S.steady source.old → S.faults source.new ≡ S.faults source.old }
    ensures room_writes { IfSome (S.left source.old) (λ bytes. (due : List ℕ)
        → IsDueFor (F.post service.now) (map string_bytes words.now) bytes due
        → length due ≤ K.room sink.old → result.status ≢ Status.WriteFault) }
    ensures room_count { IfSome (S.left source.old) (λ bytes. (due : List ℕ)
        → IsDueFor (F.post service.now) (map string_bytes words.now) bytes due
        → length due ≤ K.room sink.old → K.faults sink.new ≡ K.faults sink.old) }
    ensures source_counts { S.faults source.old ≤ S.faults source.new }
    ensures sink_counts { K.faults sink.old ≤ K.faults sink.new }
{
    answer_words(alloc, words, source, sink, service)
}

/// Answers the words of a command, or other words.
fn answer_words<S: Source, K: Sink, F: Fn(u64) -> u64>(
    alloc: Global,
    words: &[String],
    source: &mut S,
    sink: &mut K,
    service: &Service<F>,
) -> Outcome
    requires service { IsService (F.pre service.now) (F.post service.now) }
    ensures run { IsRun (F.post service.now) (command (map string_bytes words.now)) result.status result.machine
        (inlet (S.left source.old) (S.faults source.old)) (inlet (S.left source.new) (S.faults source.new))
        (outlet (K.written sink.old) (K.faults sink.old) (K.room sink.old))
        (outlet (K.written sink.new) (K.faults sink.new) (K.room sink.new)) }
    ensures untouched { reads (map string_bytes words.now) ≡ false → source.new ≡ source.old }
    ensures steady_reads { S.steady source.old → result.status ≢ Status.ReadFault }
    ensures steady_count { S.steady source.old → S.faults source.new ≡ S.faults source.old }
{
    match command_of(alloc, words) {
        Ok(Some(command)) => answer_command(alloc, command, source, sink, service),
        Ok(None) => refuse(alloc, None, Status::Usage, sink),
        Err(_) => without_machine(Status::Memory),
    }
}

/// Answers a command over the text that it reads or makes.
fn answer_command<S: Source, K: Sink, F: Fn(u64) -> u64>(
    alloc: Global,
    command: Command,
    source: &mut S,
    sink: &mut K,
    service: &Service<F>,
) -> Outcome
    requires service { IsService (F.pre service.now) (F.post service.now) }
    requires address { HasAddress command }
    ensures run { IsRun (F.post service.now) (Some command) result.status result.machine
        (inlet (S.left source.old) (S.faults source.old)) (inlet (S.left source.new) (S.faults source.new))
        (outlet (K.written sink.old) (K.faults sink.old) (K.room sink.old))
        (outlet (K.written sink.new) (K.faults sink.new) (K.room sink.new)) }
    ensures untouched { reads_by (Some command) ≡ false → source.new ≡ source.old }
    ensures steady_reads { S.steady source.old → result.status ≢ Status.ReadFault }
    ensures steady_count { S.steady source.old → S.faults source.new ≡ S.faults source.old }
{
    match command.input() {
        Input::Read(limit) => answer_read(alloc, command, limit, source, sink, service),
        Input::Made(n) => answer_made(alloc, command, n, sink, service),
    }
}

/// Answers a command over the text that it reads, of at most so many bytes.
fn answer_read<S: Source, K: Sink, F: Fn(u64) -> u64>(
    alloc: Global,
    command: Command,
    limit: usize,
    source: &mut S,
    sink: &mut K,
    service: &Service<F>,
) -> Outcome
    requires service { IsService (F.pre service.now) (F.post service.now) }
    requires address { HasAddress command }
    requires input { input_of command ≡ input.Read limit }
    requires within { limit ≤ TEXT_LIMIT }
    ensures run { IsRun (F.post service.now) (Some command) result.status result.machine
        (inlet (S.left source.old) (S.faults source.old)) (inlet (S.left source.new) (S.faults source.new))
        (outlet (K.written sink.old) (K.faults sink.old) (K.room sink.old))
        (outlet (K.written sink.new) (K.faults sink.new) (K.room sink.new)) }
    ensures steady_reads { S.steady source.old → result.status ≢ Status.ReadFault }
    ensures steady_count { S.steady source.old → S.faults source.new ≡ S.faults source.old }
{
    match read_all(alloc, source, limit) {
        Ok(text) => answer_text(alloc, command, text, sink, service),
        Err(ReadEnd::Large) => refuse(alloc, Some(command), Status::Large, sink),
        Err(ReadEnd::Fault) => without_machine(Status::ReadFault),
        Err(ReadEnd::Memory) => without_machine(Status::Memory),
    }
}

/// Answers a command over the job that it makes from a number.
fn answer_made<K: Sink, F: Fn(u64) -> u64>(
    alloc: Global,
    command: Command,
    n: u16,
    sink: &mut K,
    service: &Service<F>,
) -> Outcome
    requires service { IsService (F.pre service.now) (F.post service.now) }
    requires address { HasAddress command }
    ensures { IsGiven (F.post service.now) (IsCalled (F.post service.now) command (made_text n)) (Some command)
        (made_text n) result.status result.machine
        (outlet (K.written sink.old) (K.faults sink.old) (K.room sink.old))
        (outlet (K.written sink.new) (K.faults sink.new) (K.room sink.new)) }
{
    match generated(alloc, n) {
        Ok(job_bytes) => answer_text(alloc, command, job_bytes, sink, service),
        Err(_) => without_machine(Status::Memory),
    }
}

fn without_machine(status: Status) -> Outcome
    ensures status { result.status ≡ status }
    ensures machine { result.machine ≡ None }
{
    Outcome {
        status,
        machine: None,
    }
}

/// Answers why there is no text of a command, or of words that are none.
fn refuse<K: Sink>(alloc: Global, command: Option<Command>, status: Status, sink: &mut K) -> Outcome
    requires { IsRefusal status }
    ensures machine { result.machine ≡ None }
    ensures refused { IsRefused command status result.status
        (outlet (K.written sink.old) (K.faults sink.old) (K.room sink.old))
        (outlet (K.written sink.new) (K.faults sink.new) (K.room sink.new)) }
{
    let Ok(text) = refusal_text(alloc, limit_by(command), status) else {
        return without_machine(Status::Memory);
    };
    match write_all(sink, &text) {
        Ok(()) => without_machine(status),
        Err(_) => without_machine(Status::WriteFault),
    }
}

/// Answers a command over its text.
fn answer_text<K: Sink, F: Fn(u64) -> u64>(
    alloc: Global,
    command: Command,
    text: Vec<u8>,
    sink: &mut K,
    service: &Service<F>,
) -> Outcome
    requires within { length text.items ≤ TEXT_LIMIT }
    requires service { IsService (F.pre service.now) (F.post service.now) }
    requires address { HasAddress command }
    ensures { IsGiven (F.post service.now) (IsCalled (F.post service.now) command text.items) (Some command)
        text.items result.status result.machine
        (outlet (K.written sink.old) (K.faults sink.old) (K.room sink.old))
        (outlet (K.written sink.new) (K.faults sink.new) (K.room sink.new)) }
{
    match produce(alloc, command, text, service) {
        Ok(Produced { text: due, machine }) => match write_all(sink, &due) {
            Ok(()) => Outcome {
                status: Status::Done,
                machine,
            },
            Err(_) => give_up(machine),
        },
        Err(MakeError::Refused(status)) => refuse(alloc, Some(command), status, sink),
        Err(MakeError::Memory) => without_machine(Status::Memory),
    }
}

/// Gives up the machine of a command whose text wasn't written.
fn give_up(machine: Option<Machine>) -> Outcome
    ensures status { result.status ≡ Status.WriteFault }
    ensures machine { result.machine ≡ None }
{
    if let Some(machine) = machine {
        machine.close();
    }
    without_machine(Status::WriteFault)
}
