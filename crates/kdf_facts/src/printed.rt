//! What the program prints, within facts: one run gives both.
ghost use Rattle.std.specs.Prelude.{All, map};
ghost use Rattle.kdf_job.specs.Shows.{shown_job, shown_slot};
ghost use Rattle.kdf_job.specs.WellFormed.{IsJob};
ghost use Rattle.kdf_report.specs.MadeFrom.{HasProgram};

use crate::run::Loaded;
use kdf_director::Machine;
use kdf_job::SlotJob;
use kdf_json::{count_of, write_text};
use kdf_report::{report, summary};
use std::alloc::{AllocError, Global};

/// What the program prints of a run: the report of its job, or the summary of the job that is made of a number.
#[derive(Clone, Copy)]
pub enum Printed {
    Report,
    Summary(u16),
}

/// A text that is printed has so many bytes at most within facts.
const MOST_TEXT: usize = 67_108_864;

/// A report that shows more words than these has more bytes.
pub const MOST_SHOWN: u64 = 4_194_304;

/// Writes the text that the program prints of a run, as the last member of its facts.
pub fn write_printed(
    alloc: Global,
    out: &mut String,
    loaded: Loaded<'_>,
    printed: Printed,
    machine: &Machine,
) -> Result<(), AllocError>
    requires job { IsJob (shown_job loaded.job.now) }
    requires programs { All (HasProgram machine.now) (map shown_slot loaded.job.now.slots.items) }
{
    let text = printed_of(alloc, loaded, printed, machine);
    write_last(out, &text)
}

/// Writes a text as the last member of facts, or `null` where there is none.
pub fn write_last(out: &mut String, text: &Option<Vec<u8>>) -> Result<(), AllocError> {
    out.push_str("\"text\":")?;
    match text {
        Some(text) => write_text(out, text)?,
        None => out.push_str("null")?,
    }
    out.push_str("}\n")
}

/// The text that the program prints of a run, unless it is too long or there was no memory for it.
fn printed_of(
    alloc: Global,
    loaded: Loaded<'_>,
    printed: Printed,
    machine: &Machine,
) -> Option<Vec<u8>>
    requires job { IsJob (shown_job loaded.job.now) }
    requires programs { All (HasProgram machine.now) (map shown_slot loaded.job.now.slots.items) }
{
    match printed {
        Printed::Report if all_shown(&loaded.job.slots) > MOST_SHOWN => None,
        Printed::Report => short(report(alloc, loaded.job, machine)),
        Printed::Summary(n) => {
            let bytes = count_of(loaded.bytes.len());
            short(summary(alloc, n, bytes, loaded.job, machine))
        }
    }
}

/// A text, unless it is too long or there was no memory for it.
pub fn short(text: Result<Vec<u8>, AllocError>) -> Option<Vec<u8>> {
    match text {
        Ok(text) => if_short(text),
        Err(_) => None,
    }
}

fn if_short(text: Vec<u8>) -> Option<Vec<u8>> {
    if text.len() <= MOST_TEXT {
        Some(text)
    } else {
        None
    }
}

/// How many words the report of these slots shows.
fn all_shown(slots: &[SlotJob]) -> u64 {
    let mut words = 0u64;
    for slot in slots {
        words = words.saturating_add(words_shown(&slot.shows));
    }
    words
}

/// How many words are shown that stand from the first to the last address of each of these runs.
pub fn words_shown(shows: &[(u16, u16)]) -> u64 {
    let mut words = 0u64;
    for show in shows {
        let (first, last) = *show;
        let more = last.saturating_sub(first);
        words = words.saturating_add(u64::from(more)).saturating_add(1);
    }
    words
}
