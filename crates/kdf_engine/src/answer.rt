//! What a call answers, and the text that it hands out.
ghost use Rattle.std.specs.Prelude.{◌≡◌, ◌≢◌, ◌≤◌, ◌<◌, [], Option, Some, true, IfOk, drop, length, map, string_bytes, take};
ghost use Rattle.kdf_theory.specs.MachineView.{MachineView};
ghost use Rattle.kdf_top.specs.Answers.{IsCalledFor, IsDoneBy, IsDueFor};
ghost use Rattle.kdf_command.specs.Commands.{command, is_command};
ghost use Rattle.kdf_engine.specs.Answered.{IsAnswered};
ghost use Rattle.kdf_engine.specs.Service.{exchanged};
ghost use Rattle.kdf_engine.specs.Words.{words_in};

use crate::sink::TextSink;
use crate::words::words_of;
use kdf_io::MemorySource;
use kdf_service::Service;
use kdf_top::{Status, run_with};
use std::alloc::{AllocError, Global};

/// How many numbers a half of a word tells apart.
pub const HALF: u64 = 1 << 24;

/// What a call answers: its status, and how many bytes the whole text has that is due.
pub struct Answer {
    pub status: Status,
    pub size: usize,
}

/// Answers the words that stand one to a line over a job, and hands out the text to the front of the room.
pub fn answer_lines(alloc: Global, words: &[u8], job: &[u8], room: &mut [u8]) -> Answer
    ensures { IsAnswered (words_in words.now) job.now room.old room.new result.status result.size }
{
    match words_of(alloc, words) {
        Ok(words) => answer_words(alloc, &words, job, room),
        Err(_) => no_memory(),
    }
}

/// Answers words over a job, and hands out the text.
fn answer_words(alloc: Global, words: &[String], job: &[u8], room: &mut [u8]) -> Answer
    ensures { IsAnswered (map string_bytes words.now) job.now room.old room.new result.status result.size }
{
    match text_due(alloc, words, job) {
        Ok((status, text)) => hand_out(status, &text, room),
        Err(_) => no_memory(),
    }
}

/// The answer where there was no memory.
pub fn no_memory() -> Answer
    ensures status { result.status ≡ Status.Memory }
    ensures size { result.size ≡ 0 }
{
    Answer {
        status: Status::Memory,
        size: 0,
    }
}

/// Hands out a text where it fits the room: the answer is then this status.
pub fn hand_out(status: Status, text: &[u8], room: &mut [u8]) -> Answer
    ensures size { result.size ≡ length text.now }
    ensures fits { length text.now ≤ length room.old → result.status ≡ status }
    ensures text { length text.now ≤ length room.old → take (length text.now) room.new ≡ text.now }
    ensures short { length room.old < length text.now → result.status ≡ Status.WriteFault }
    ensures short_writes { length room.old < length text.now → room.new ≡ room.old }
    ensures beyond { drop (length text.now) room.new ≡ drop (length text.now) room.old }
{
    let size = text.len();
    if size > room.len() {
        return Answer {
            status: Status::WriteFault,
            size,
        };
    }
    room[..size].copy_from_slice(text);
    Answer { status, size }
}

/// The answer that words over a job call for, and the text that is due then.
///
/// # Errors
///
/// There was no memory.
fn text_due(alloc: Global, words: &[String], job: &[u8]) -> Result<(Status, Vec<u8>), AllocError>
    ensures called { IfOk result (λ r. IsCalledFor exchanged (map string_bytes words.now) job.now r.0) }
    ensures usage { is_command (map string_bytes words.now) ≡ true → IfOk result (λ r. r.0 ≢ Status.Usage) }
    ensures read { IfOk result (λ r. r.0 ≢ Status.ReadFault) }
    ensures write { IfOk result (λ r. r.0 ≢ Status.WriteFault) }
    ensures memory { IfOk result (λ r. r.0 ≢ Status.Memory) }
    ensures due { IfOk result (λ r. IsDueFor exchanged (map string_bytes words.now) job.now r.1.items) }
    ensures done { IfOk result (λ r. r.0 ≡ Status.Done → (kept : Option MachineView)
        × IsDoneBy exchanged (command (map string_bytes words.now)) job.now kept (Some []) (Some r.1.items)) }
{
    let bytes = Vec::from_slice(alloc, job)?;
    let mut source = MemorySource::new(bytes, job.len().max(1), Vec::new(alloc));
    let mut sink = TextSink::new(alloc);
    // It exchanges the two halves of a word, as that of the program does.
    let service = Service::new(
        |word: u64|
            ensures { exchanged word result }
        { word % HALF * HALF + word / HALF },
    );
    let outcome = run_with(alloc, words, &mut source, &mut sink, &service);
    let status = outcome.status;
    outcome.close();
    match status {
        // The sink fails only where there is no memory.
        Status::WriteFault | Status::Memory => Err(AllocError),
        status => Ok((status, sink.bytes)),
    }
}
