//! What a call tells that asks for facts.
ghost use Rattle.std.specs.Prelude.{◌≡◌, Some, true, false, IfOk, map, string_bytes};
ghost use Rattle.kdf_facts.specs.Told.{IsAnswer, OfJob, TellsDeck, TellsFault, TellsJob};
ghost use Rattle.kdf_top.specs.Answers.{IsCalledFor};
ghost use Rattle.kdf_command.specs.Commands.{command, is_command};
ghost use Rattle.kdf_command.specs.declared.command.Command.TheVariants.{Run};
ghost use Rattle.kdf_top.specs.declared.status.Status.TheVariants as status;
ghost use Rattle.kdf_engine.specs.Service.{exchanged};
ghost use Rattle.kdf_engine.specs.Told.{IsTold};
ghost use Rattle.kdf_engine.specs.Words.{words_in};

use crate::answer::{Answer, HALF, hand_out, no_memory};
use crate::words::words_of;
use kdf_facts::facts;
use kdf_service::Service;
use kdf_top::Status;
use std::alloc::{AllocError, Global};

/// Tells the facts that the words ask for which stand one to a line, over a job, and hands out their text to the front of the room.
pub fn tell_lines(alloc: Global, words: &[u8], job: &[u8], room: &mut [u8]) -> Answer
    ensures { IsTold (words_in words.now) job.now room.old room.new result.status result.size }
{
    match words_of(alloc, words) {
        Ok(words) => tell_words(alloc, &words, job, room),
        Err(_) => no_memory(),
    }
}

/// Tells the facts that words ask for over a job, and hands out their text.
fn tell_words(alloc: Global, words: &[String], job: &[u8], room: &mut [u8]) -> Answer
    ensures { IsTold (map string_bytes words.now) job.now room.old room.new result.status result.size }
{
    match facts_due(alloc, words, job) {
        Ok((status, text)) => hand_out(status, &text, room),
        Err(_) => no_memory(),
    }
}

/// The answer that words over a job call for, and the facts that they ask for.
///
/// # Errors
///
/// There was no memory.
fn facts_due(alloc: Global, words: &[String], job: &[u8]) -> Result<(Status, Vec<u8>), AllocError>
    ensures called { command (map string_bytes words.now) ≡ Some Run → IfOk result (λ r.
        IsCalledFor exchanged (map string_bytes words.now) job.now r.0) }
    ensures answer { is_command (map string_bytes words.now) ≡ true → IfOk result (λ r. IsAnswer r.0) }
    ensures usage { is_command (map string_bytes words.now) ≡ false → IfOk result (λ r.
        r.0 ≡ status.Usage) }
    ensures run { command (map string_bytes words.now) ≡ Some Run → IfOk result (λ r.
        OfJob (TellsJob exchanged) job.now r.1.items) }
    ensures deck { command (map string_bytes words.now) ≡ Some Run → IfOk result (λ r.
        OfJob TellsDeck job.now r.1.items) }
    ensures fault { command (map string_bytes words.now) ≡ Some Run → IfOk result (λ r.
        TellsFault job.now r.1.items) }
{
    // It exchanges the two halves of a word, as that of the program does.
    let service = Service::new(
        |word: u64|
            ensures { exchanged word result }
        { word % HALF * HALF + word / HALF },
    );
    facts(alloc, words, job, &service)
}
