//! The text of a program that ran alone.
ghost use Rattle.std.specs.Prelude.{◌≡◌, [], ◌∷◌, IfOk, OnOk};
ghost use Rattle.kdf_text.specs.Text.{Adds};
ghost use Rattle.kdf_job.specs.Shows.{shown_slot};
ghost use Rattle.kdf_report.specs.MadeFrom.{IsProgramOf};
ghost use Rattle.kdf_report.specs.Text.{absent_text, alone_line, alone_text};

use crate::write_section;
use kdf_alone::Alone;
use kdf_job::SlotJob;
use kdf_text::write_end;
use std::alloc::{AllocError, Global};
use std::fmt::Write;

/// The text of the program of a slot that ran alone: its first line, the section of the slot, and the last line. The program has the
/// slot's size, above all addresses that are to be shown, and exactly its device numbers.
pub fn alone_text(alloc: Global, slot: &SlotJob, program: &Alone) -> Result<Vec<u8>, AllocError>
    requires { IsProgramOf (shown_slot slot.now) program.now }
    ensures { IfOk result (λ bytes. bytes.items ≡ alone_text (shown_slot slot.now) program.now) }
{
    let mut out = String::new(alloc);
    write_head(&mut out, slot.p)?;
    write_section(&mut out, slot, program)?;
    write_end(&mut out)?;
    Ok(out.into_bytes())
}

/// The text of a slot that the job doesn't have: its first line, and the last line.
#[tactic(auto, unfolding(kdf_text::specs::Text::text))]
pub fn alone_absent(alloc: Global, slot: u8) -> Result<Vec<u8>, AllocError>
    ensures { IfOk result (λ bytes. bytes.items ≡ absent_text slot) }
{
    let mut out = String::new(alloc);
    write_head(&mut out, slot)?;
    write_end(&mut out)?;
    Ok(out.into_bytes())
}

#[tactic(auto, unfolding(kdf_text::specs::Text::text))]
fn write_head(out: &mut String, slot: u8) -> Result<(), AllocError>
    ensures { OnOk result (Adds out.old out.new (alone_line slot ∷ [])) }
{
    writeln!(out, "KDF9 ALONE {slot}")
}
