//! The words after a command's name, read by `clap`. It tells whether there are too few or too many; a word that begins
//! with `-`, which would be a flag to it, has to be refused before.
ghost use Rattle.std.specs.Prelude.{◌≡◌, true, false, IfOk, map, option_map, string_bytes};
ghost use Rattle.clap.specs.Words.{app_of, is_simple_and_free, rule_of};
ghost use Rattle.kdf_command.specs.Values.{Parses, any_hyphen, bare, both, has_hyphen, is_empty, needed, only, with_one, with_two};

use clap::error::ErrorKind;
use clap::{Arg, ArgAction, ArgMatches, Command};
use std::alloc::{AllocError, Global};

/// What `clap` calls the value of a command.
const VALUE: &str = "value";

/// What `clap` calls the second value of a command.
const SECOND: &str = "second";

/// Whether a word begins with `-`.
pub fn any_hyphen(words: &[String]) -> bool
    ensures { result ≡ any_hyphen (map string_bytes words.now) }
{
    words.iter().any(has_hyphen)
}

fn has_hyphen(word: &String) -> bool
    ensures { result ≡ has_hyphen (string_bytes word.now) }
{
    word.as_str().starts_with('-')
}

/// The words after a command's name, of which none begins with `-`.
#[derive(Clone, Copy)]
pub struct Values<'a> {
    pub alloc: Global,
    pub name: &'a str,
    pub words: &'a [String],
    ghost plain: { any_hyphen (map string_bytes words.now) ≡ false },
}

impl<'a> Values<'a> {
    /// Whether there are none.
    pub fn none(self) -> Result<bool, AllocError>
        ensures { IfOk result (λ none. none ≡ is_empty (map string_bytes self.entry.words.now)) }
    {
        Ok(parsed(bare(self.alloc, self.name), self.words)?.is_some())
    }

    /// The value, where it is the only one.
    pub fn one(self) -> Result<Option<&'a str>, AllocError>
        ensures { IfOk result (λ value. option_map (λ v. v.now) value
            ≡ only (map string_bytes self.entry.words.now)) }
    {
        match parsed(with_one(self.alloc, self.name, VALUE)?, self.words)? {
            Some(matches) => Ok(matches.get_str(VALUE)),
            None => Ok(None),
        }
    }

    /// The two values, where there are no others.
    pub fn two(self) -> Result<Option<(&'a str, &'a str)>, AllocError>
        ensures { IfOk result (λ values. option_map (λ v. (v.0.now, v.1.now)) values
            ≡ both (map string_bytes self.entry.words.now)) }
    {
        match parsed(with_two(self.alloc, self.name, VALUE, SECOND)?, self.words)? {
            Some(matches) => Ok(matches.get_str(VALUE).zip(matches.get_str(SECOND))),
            None => Ok(None),
        }
    }
}

/// A command that takes no value. Its words are those after its name.
fn bare<'a>(alloc: Global, name: &'a str) -> Command<'a>
    ensures { app_of result ≡ bare name.now }
{
    Command::new(alloc, name)
        .no_binary_name(true)
        .disable_help_flag(true)
}

/// A command that takes the value `id`.
fn with_one<'a>(alloc: Global, name: &'a str, id: &'a str) -> Result<Command<'a>, AllocError>
    ensures { IfOk result (λ c. app_of c ≡ with_one name.now id.now) }
{
    bare(alloc, name).arg(needed(alloc, id))
}

/// A command that takes the values `id` and `other`.
fn with_two<'a>(
    alloc: Global,
    name: &'a str,
    id: &'a str,
    other: &'a str,
) -> Result<Command<'a>, AllocError>
    ensures { IfOk result (λ c. app_of c ≡ with_two name.now id.now other.now) }
{
    with_one(alloc, name, id)?.arg(needed(alloc, other))
}

/// A value that a command needs.
fn needed<'a>(alloc: Global, id: &'a str) -> Arg<'a>
    ensures rule { rule_of result ≡ needed id.now }
    ensures local { result.global ≡ false }
{
    Arg::new(alloc, id).required(true).action(ArgAction::Set)
}

/// What the command makes of its words, or none where they are faulty to it.
fn parsed<'a>(
    command: Command<'a>,
    words: &'a [String],
) -> Result<Option<ArgMatches<'a>>, AllocError>
    requires { is_simple_and_free (app_of command) ≡ true }
    ensures { IfOk result (Parses (app_of command.entry) (map string_bytes words.now)) }
{
    match command.try_get_matches_from(words) {
        Ok(matches) => Ok(Some(matches)),
        Err(error) => match error.kind() {
            ErrorKind::OutOfMemory => Err(AllocError),
            _ => Ok(None),
        },
    }
}
