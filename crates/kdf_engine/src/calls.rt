//! The calls that the library exports.
ghost use Rattle.std.specs.Prelude.{◌≡◌, ◌≢◌, ◌≤◌, ◌<◌, [], List, ℕ, Option, Some, true, drop, length, take};
ghost use Rattle.kdf_theory.specs.MachineView.{MachineView};
ghost use Rattle.kdf_top.specs.Answers.{Answers, IsCalledFor, IsDoneBy, IsDueFor};
ghost use Rattle.kdf_top.specs.Codes.{code_of};
ghost use Rattle.kdf_command.specs.Commands.{command, is_command};
ghost use Rattle.kdf_top.specs.declared.status.Status.{Status};
ghost use Rattle.kdf_command.specs.declared.command.Command.TheVariants.{Run};
ghost use Rattle.kdf_engine.specs.Service.{exchanged};
ghost use Rattle.kdf_engine.specs.Told.{AreFacts};
ghost use Rattle.kdf_engine.specs.Words.{words_in};

use crate::answer::{Answer, answer_lines};
use crate::facts::tell_lines;
use kdf_top::Status;
use std::alloc::Global;

/// Answers the words of a command, which stand one to a line, over a job: the result is the number of the status.
///
/// The text of the command, or the line that says why there is none, goes to the front of `text`, and its length to `size`. A text that `text`
/// has no room for isn't written: the answer is then 6, and `size` says how much room it wants.
#[unsafe(no_mangle)]
pub extern "C" fn kdf9_run(
    alloc: Global,
    words: &[u8],
    job: &[u8],
    text: &mut [u8],
    size: &mut u64,
) -> u32
    // The answer is the one that the words and the job call for, unless the room is too small, or there was no memory.
    ensures answer { (given : Status) × (result ≡ code_of given)
        × Answers (IsCalledFor exchanged (words_in words.now) job.now) given ⊥ (length text.old < size.new) }
    ensures usage { is_command (words_in words.now) ≡ true → result ≢ code_of Status.Usage }
    ensures read { result ≢ code_of Status.ReadFault }

    // What is due is told and handed out whole, or not at all.
    ensures due { result ≢ code_of Status.Memory → (due : List ℕ)
        × IsDueFor exchanged (words_in words.now) job.now due × (size.new ≡ length due)
        × (result ≢ code_of Status.WriteFault → take size.new text.new ≡ due) }
    ensures done { result ≡ code_of Status.Done → (kept : Option MachineView)
        × IsDoneBy exchanged (command (words_in words.now)) job.now kept (Some []) (Some (take size.new text.new)) }

    // A room that is too small is told what is wanted.
    ensures short { result ≡ code_of Status.WriteFault → length text.old < size.new }
    ensures room { (due : List ℕ) → IsDueFor exchanged (words_in words.now) job.now due
        → length due ≤ length text.old → result ≢ code_of Status.WriteFault }

    // Nothing else is written.
    ensures short_writes { result ≡ code_of Status.WriteFault → text.new ≡ text.old }
    ensures memory { result ≡ code_of Status.Memory → (size.new ≡ 0) × (text.new ≡ text.old) }
    ensures beyond { drop size.new text.new ≡ drop size.new text.old }
{
    let Answer {
        status,
        size: wanted,
    } = answer_lines(alloc, words, job, text);
    *size = wanted as u64;
    u32::from(status.code())
}

/// Tells the facts that the words of a command ask for, which stand one to a line, over a job: the result is the number of the status with which the
/// program answers the words.
///
/// The facts go to the front of `text`, and their length to `size`. Those that `text` has no room for aren't written: the answer is then 6, and `size`
/// says how much room they want.
#[unsafe(no_mangle)]
pub extern "C" fn kdf9_facts(
    alloc: Global,
    words: &[u8],
    job: &[u8],
    text: &mut [u8],
    size: &mut u64,
) -> u32
    // The answer to `run` is the one that the job calls for, unless the room is too small, or there was no memory.
    ensures answer { command (words_in words.now) ≡ Some Run → (given : Status) × (result ≡ code_of given)
        × Answers (IsCalledFor exchanged (words_in words.now) job.now) given ⊥ (length text.old < size.new) }
    ensures usage { is_command (words_in words.now) ≡ true → result ≢ code_of Status.Usage }
    ensures read { result ≢ code_of Status.ReadFault }

    // The facts are told and handed out whole, or not at all.
    ensures facts { result ≢ code_of Status.Memory → (told : List ℕ)
        × AreFacts (words_in words.now) job.now told × (size.new ≡ length told)
        × (result ≢ code_of Status.WriteFault → take size.new text.new ≡ told) }

    // A room that is too small is told what is wanted.
    ensures short { result ≡ code_of Status.WriteFault → length text.old < size.new }

    // Nothing else is written.
    ensures short_writes { result ≡ code_of Status.WriteFault → text.new ≡ text.old }
    ensures memory { result ≡ code_of Status.Memory → (size.new ≡ 0) × (text.new ≡ text.old) }
    ensures beyond { drop size.new text.new ≡ drop size.new text.old }
{
    let Answer {
        status,
        size: wanted,
    } = tell_lines(alloc, words, job, text);
    *size = wanted as u64;
    u32::from(status.code())
}

/// The version of these calls. It rises where one of them, or what it means, changes.
#[unsafe(no_mangle)]
pub extern "C" fn kdf9_version() -> u32
    ensures { result ≡ 1 }
{
    1
}
