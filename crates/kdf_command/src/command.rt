//! The commands of the program.
ghost use Rattle.std.specs.Prelude.{◌≡◌, ◌∷◌, true, false, IfOk, IfSome, None, Some, codes, if◌then◌else◌, is_some, map, string_bytes};
ghost use Rattle.kdf_command.specs.Commands.{HasAddress, HasSlot, address_of_word, command, input_of, limit_by, limit_of, made_of_word, slot_of_word, watch_at};
ghost use Rattle.kdf_command.specs.Values.{any_hyphen, is_empty};

mod values;
pub mod worked_commands;

use kdf_job::TEXT_LIMIT;
use kdf_limits::LAST_ADDRESS;
use kdf_text::number_in;
use std::alloc::{AllocError, Global};
use values::{Values, any_hyphen};

/// What the words after the program's name ask for. A slot is below 4, and an address below 8192.
#[derive(Clone, Copy)]
pub enum Command {
    /// `run`: reads a job, runs it under Director and writes its report.
    Run,
    /// `save`: reads a job, runs it under Director and writes a snapshot.
    Save,
    /// `resume`: reads a snapshot and further lines of its job's schedule, runs the whole under Director and writes its report.
    Resume,
    /// `check`: reads a job and a report, and writes the verdict on the report.
    Check,
    /// `alone K`: reads a job, runs the program of slot K alone and writes what it comes to.
    Alone(u8),
    /// `asm K`: reads a job, assembles the deck of slot K and writes its listing.
    Asm(u8),
    /// `make N`: makes job N, runs it under Director and writes a summary.
    Make(u16),
    /// `watch K W`: reads a job, runs it under Director, and writes when the program of slot K came to syllable 0 of the word at
    /// address W, and the report.
    Watch(u8, u16),
}

/// Where the text of a command comes from.
#[derive(Clone, Copy)]
pub enum Input {
    /// It is read, and has at most so many bytes.
    Read(usize),
    /// It is made from a number.
    Made(u16),
}

/// The most bytes that a command reads, but for `resume` and `check`, which read as many as `TEXT_LIMIT` says.
pub const JOB_LIMIT: usize = 4_194_304;

/// The line that tells how the program is used.
pub const USAGE: &str = "USAGE kdf9 run, alone K, asm K, make N, save, resume, check, watch K W";

/// The highest number of a slot.
const LAST_SLOT: u64 = 3;

/// The highest number of a made job.
const LAST_MADE: u64 = 65_535;

impl Command {
    /// How many bytes the command's text may have.
    pub fn limit(self) -> usize
        ensures { result ≡ limit_of self }
    {
        match self {
            Command::Resume | Command::Check => TEXT_LIMIT,
            _ => JOB_LIMIT,
        }
    }

    /// Where the command's text comes from.
    pub fn input(self) -> Input
        ensures { result ≡ input_of self }
    {
        match self {
            Command::Make(n) => Input::Made(n),
            _ => Input::Read(self.limit()),
        }
    }
}

/// How many bytes may be read for a command, or for words that are none.
pub fn limit_by(command: Option<Command>) -> usize
    ensures { result ≡ limit_by command }
{
    match command {
        Some(command) => command.limit(),
        None => JOB_LIMIT,
    }
}

/// The command of these words, or none.
#[tactic(auto, unfolding(crate::specs::Commands::command))]
pub fn command_of(alloc: Global, words: &[String]) -> Result<Option<Command>, AllocError>
    ensures value { IfOk result (λ c. c ≡ command (map string_bytes words.now)) }
    ensures slot { IfOk result (λ c. IfSome c HasSlot) }
    ensures address { IfOk result (λ c. IfSome c HasAddress) }
    ensures hyphen { IfOk result (λ c. is_some c ≡ true
        → any_hyphen (map string_bytes words.now) ≡ false) }
{
    if any_hyphen(words) {
        return Ok(None);
    }
    match words {
        [] => Ok(None),
        [name, words @ ..] => command_of_name(Values {
            alloc,
            name: name.as_str(),
            words,
        }),
    }
}

/// The commands: of each its name, and the values that it takes, if any.
#[tactic(auto, unfolding(crate::specs::Commands::command))]
fn command_of_name(values: Values<'_>) -> Result<Option<Command>, AllocError>
    ensures value { IfOk result (λ c. c
        ≡ command (values.entry.name.now ∷ map string_bytes values.entry.words.now)) }
    ensures slot { IfOk result (λ c. IfSome c HasSlot) }
    ensures address { IfOk result (λ c. IfSome c HasAddress) }
{
    match values.name {
        "run" => bare(values, Command::Run),
        "save" => bare(values, Command::Save),
        "resume" => bare(values, Command::Resume),
        "check" => bare(values, Command::Check),
        "alone" => alone(values),
        "asm" => asm(values),
        "make" => make(values),
        "watch" => watch(values),
        _ => Ok(None),
    }
}

/// A command that takes no value.
fn bare(values: Values<'_>, asked: Command) -> Result<Option<Command>, AllocError>
    ensures { IfOk result (λ c. c
        ≡ (if is_empty (map string_bytes values.entry.words.now) then Some asked else None)) }
{
    Ok(values.none()?.then_some(asked))
}

#[tactic(auto, unfolding(crate::specs::Commands::command))]
fn alone(values: Values<'_>) -> Result<Option<Command>, AllocError>
    ensures value { IfOk result (λ c. c ≡ command (codes "alone" ∷ map string_bytes values.entry.words.now)) }
    ensures slot { IfOk result (λ c. IfSome c HasSlot) }
    ensures address { IfOk result (λ c. IfSome c HasAddress) }
{
    Ok(values.one()?.and_then(slot).map(Command::Alone))
}

#[tactic(auto, unfolding(crate::specs::Commands::command))]
fn asm(values: Values<'_>) -> Result<Option<Command>, AllocError>
    ensures value { IfOk result (λ c. c ≡ command (codes "asm" ∷ map string_bytes values.entry.words.now)) }
    ensures slot { IfOk result (λ c. IfSome c HasSlot) }
    ensures address { IfOk result (λ c. IfSome c HasAddress) }
{
    Ok(values.one()?.and_then(slot).map(Command::Asm))
}

#[tactic(auto, unfolding(crate::specs::Commands::command))]
fn make(values: Values<'_>) -> Result<Option<Command>, AllocError>
    ensures value { IfOk result (λ c. c ≡ command (codes "make" ∷ map string_bytes values.entry.words.now)) }
    ensures slot { IfOk result (λ c. IfSome c HasSlot) }
    ensures address { IfOk result (λ c. IfSome c HasAddress) }
{
    Ok(values.one()?.and_then(made).map(Command::Make))
}

#[tactic(auto, unfolding(crate::specs::Commands::command))]
fn watch(values: Values<'_>) -> Result<Option<Command>, AllocError>
    ensures value { IfOk result (λ c. c ≡ command (codes "watch" ∷ map string_bytes values.entry.words.now)) }
    ensures slot { IfOk result (λ c. IfSome c HasSlot) }
    ensures address { IfOk result (λ c. IfSome c HasAddress) }
{
    Ok(values.two()?.and_then(place))
}

/// The slot that a word names.
fn slot(word: &str) -> Option<u8>
    ensures { result ≡ slot_of_word word.now }
{
    Some(number_in(0, LAST_SLOT, word.as_bytes())? as u8)
}

/// The made job that a word names.
fn made(word: &str) -> Option<u16>
    ensures { result ≡ made_of_word word.now }
{
    Some(number_in(0, LAST_MADE, word.as_bytes())? as u16)
}

/// The watch that two words name.
fn place(words: (&str, &str)) -> Option<Command>
    ensures value { result ≡ watch_at (slot_of_word words.entry.0.now) (address_of_word words.entry.1.now) }
    ensures slot { IfSome result HasSlot }
    ensures address { IfSome result HasAddress }
{
    Some(Command::Watch(slot(words.0)?, address(words.1)?))
}

/// The address that a word names.
fn address(word: &str) -> Option<u16>
    ensures { result ≡ address_of_word word.now }
{
    Some(number_in(0, u64::from(LAST_ADDRESS), word.as_bytes())? as u16)
}
