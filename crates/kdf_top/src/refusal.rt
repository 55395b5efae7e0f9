//! The lines that say why there is no text of a command.
ghost use Rattle.std.specs.Prelude.{◌≡◌, [], ◌∷◌, OnOk, IfOk, vec_items};
ghost use Rattle.kdf_text.specs.Text.{text, Adds};
ghost use Rattle.kdf_top.specs.Answers.{refusal_lines};
ghost use Rattle.kdf_top.specs.Text.{deck_fault_line, job_fault_line, large_line, snapshot_fault_line, usage_line};

use crate::Status;
use kdf_command::USAGE;
use kdf_job::JobFault;
use kdf_snapshot::SnapshotFault;
use kdf_usercode::DeckFault;
use std::alloc::{AllocError, Global};
use std::fmt::Write;

/// The text that is due where this status is answered in place of the text of a command, which may read so many bytes. Of a status
/// that has no such text it is empty.
pub fn refusal_text(alloc: Global, limit: usize, status: Status) -> Result<Vec<u8>, AllocError>
    ensures { IfOk result (λ bytes. bytes.items ≡ text (refusal_lines limit status)) }
{
    let mut out = String::new(alloc);
    write_refusal(&mut out, limit, status)?;
    Ok(out.into_bytes())
}

/// Writes the line that is due where this status is answered, if there is one.
#[tactic(auto, unfolding(kdf_text::specs::Text::text))]
fn write_refusal(out: &mut String, limit: usize, status: Status) -> Result<(), AllocError>
    ensures { OnOk result (Adds out.old out.new (refusal_lines limit status)) }
{
    match status {
        Status::Usage => write_usage(out),
        Status::Job { fault, line } => write_job_fault(out, fault, line),
        Status::Deck { slot, fault, place } => write_deck_fault(out, slot, fault, place),
        Status::Large => write_large(out, limit),
        Status::Snapshot { fault, line } => write_snapshot_fault(out, fault, line),
        _ => Ok(()),
    }
}

/// How the program is used.
#[tactic(auto, unfolding(kdf_text::specs::Text::text))]
fn write_usage(out: &mut String) -> Result<(), AllocError>
    ensures { OnOk result (Adds out.old out.new (usage_line ∷ [])) }
{
    let usage = USAGE;
    writeln!(out, "{usage}")
}

/// A fault of the job, and its line.
#[tactic(auto, unfolding(kdf_text::specs::Text::text))]
fn write_job_fault(out: &mut String, fault: JobFault, line: u32) -> Result<(), AllocError>
    ensures { OnOk result (Adds out.old out.new (job_fault_line fault line ∷ [])) }
{
    let name = fault.name();
    writeln!(out, "JOB {name} {line}")
}

/// A fault of the deck of a slot, and its place.
#[tactic(auto, unfolding(kdf_text::specs::Text::text))]
fn write_deck_fault(
    out: &mut String,
    slot: u8,
    fault: DeckFault,
    place: u32,
) -> Result<(), AllocError>
    ensures { OnOk result (Adds out.old out.new (deck_fault_line slot fault place ∷ [])) }
{
    let name = fault.name();
    writeln!(out, "DECK {slot} {name} {place}")
}

/// That there are more than so many bytes.
#[tactic(auto, unfolding(kdf_text::specs::Text::text))]
fn write_large(out: &mut String, limit: usize) -> Result<(), AllocError>
    ensures { OnOk result (Adds out.old out.new (large_line limit ∷ [])) }
{
    writeln!(out, "LARGE {limit}")
}

/// A fault of the snapshot, and its line.
#[tactic(auto, unfolding(kdf_text::specs::Text::text))]
fn write_snapshot_fault(out: &mut String, fault: SnapshotFault, line: u32) -> Result<(), AllocError>
    ensures { OnOk result (Adds out.old out.new (snapshot_fault_line fault line ∷ [])) }
{
    let name = fault.name();
    writeln!(out, "SNAPSHOT {name} {line}")
}
