//! The section of a slot.
ghost use Rattle.std.specs.Prelude.{◌++◌, [], ◌∷◌, OnOk, codes, decimal};
ghost use Rattle.kdf_text.specs.Text.{Adds};
ghost use Rattle.kdf_job.specs.Shows.{shown_slot};
ghost use Rattle.kdf_report.specs.MadeFrom.{IsProgramOf};
ghost use Rattle.kdf_report.specs.Text.{section};

use crate::Program;
use crate::devices::write_devices;
use crate::registers::write_registers;
use crate::shows::write_shows;
use crate::spool::write_spooled;
use crate::stints::write_stints;
use kdf_job::SlotJob;
use std::alloc::AllocError;
use std::fmt::Write;

/// Writes the section of a slot: the registers of its program, the words that are to be shown, what it spooled, its devices with their
/// blocks, the least number first, and its stints with their blocks, the first one first. The program has the slot's size, above all
/// addresses that are to be shown, and exactly its device numbers. Without memory nothing is said of `out`.
pub fn write_section<P: Program>(
    out: &mut String,
    slot: &SlotJob,
    program: &P,
) -> Result<(), AllocError>
    requires { IsProgramOf (shown_slot slot.now) (P.state program.now) }
    ensures { OnOk result (Adds out.old out.new (section (shown_slot slot.now) (P.state program.now))) }
{
    write_slot(out, slot.p)?;
    write_registers(out, program.registers())?;
    write_shows(out, &slot.shows, program)?;
    write_spooled(out, program.spooled())?;
    write_devices(out, program)?;
    write_stints(out, program)
}

#[tactic(auto, unfolding(kdf_text::specs::Text::text))]
fn write_slot(out: &mut String, p: u8) -> Result<(), AllocError>
    ensures { OnOk result (Adds out.old out.new ((codes "SLOT " ++ decimal p) ∷ [])) }
{
    writeln!(out, "SLOT {p}")
}
