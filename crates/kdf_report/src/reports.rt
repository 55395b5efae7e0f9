//! The report of a job.
ghost use Rattle.std.specs.Prelude.{◌≡◌, [], ◌∷◌, All, IfOk, OnOk, map};
ghost use Rattle.std.specs.List.{flat_map};
ghost use Rattle.kdf_theory.specs.MachineView.{state_at};
ghost use Rattle.kdf_job.specs.Shows.{shown_job, shown_slot};
ghost use Rattle.kdf_text.specs.Text.{Adds, text};
ghost use Rattle.kdf_report.specs.MadeFrom.{HasProgram};
ghost use Rattle.kdf_report.specs.Text.{head_line, journal_lines, report_text, section, sections_lines};

use crate::in_slot::InSlot;
use crate::{write_entries, write_section};
use kdf_director::Machine;
use kdf_job::{Job, SlotJob};
use kdf_journal::Journal;
use kdf_text::write_end;
use std::alloc::{AllocError, Global};
use std::fmt::Write;

/// The report of a job and of a machine that was loaded from it: the first line, the journal, a section for each slot of the job, and
/// the last line. The machine has the program of each slot.
pub fn report(alloc: Global, job: &Job, machine: &Machine) -> Result<Vec<u8>, AllocError>
    requires { All (HasProgram machine.now) (map shown_slot job.now.slots.items) }
    ensures { IfOk result (λ bytes. bytes.items
        ≡ report_text (shown_job job.now) machine.now.journal (state_at machine.now)) }
{
    let mut out = String::new(alloc);
    write_head(&mut out)?;
    write_entries(&mut out, machine.journal())?;
    write_sections(&mut out, &job.slots, machine)?;
    write_end(&mut out)?;
    Ok(out.into_bytes())
}

/// The lines of a journal, as the report has them.
pub fn journal_text(alloc: Global, journal: &Journal) -> Result<Vec<u8>, AllocError>
    ensures { IfOk result (λ bytes. bytes.items ≡ text (journal_lines journal.now.entries)) }
{
    let mut out = String::new(alloc);
    write_entries(&mut out, journal)?;
    Ok(out.into_bytes())
}

/// The sections of all slots of a job, as the report has them. The machine was loaded from the job, and has the program of each slot.
pub fn sections(alloc: Global, job: &Job, machine: &Machine) -> Result<Vec<u8>, AllocError>
    requires { All (HasProgram machine.now) (map shown_slot job.now.slots.items) }
    ensures { IfOk result (λ bytes. bytes.items
        ≡ text (sections_lines (shown_job job.now) (state_at machine.now))) }
{
    let mut out = String::new(alloc);
    write_sections(&mut out, &job.slots, machine)?;
    Ok(out.into_bytes())
}

#[tactic(auto, unfolding(kdf_text::specs::Text::text))]
fn write_head(out: &mut String) -> Result<(), AllocError>
    ensures { OnOk result (Adds out.old out.new (head_line ∷ [])) }
{
    writeln!(out, "KDF9 REPORT 1")
}

/// The section of each slot, in the order of the slots.
#[tactic(auto, unfolding(kdf_text::specs::Text::text))]
fn write_sections(out: &mut String, slots: &[SlotJob], machine: &Machine) -> Result<(), AllocError>
    requires { All (λ slot. HasProgram machine.now (shown_slot slot)) slots.now }
    ensures { OnOk result (Adds out.old out.new (
        flat_map (λ slot. section slot (state_at machine.now slot.p)) (map shown_slot slots.now))) }
{
    for slot in slots {
        write_section_of(out, slot, machine)?;
    }
    Ok(())
}

/// The section of a slot, from its program in the machine.
fn write_section_of(out: &mut String, slot: &SlotJob, machine: &Machine) -> Result<(), AllocError>
    requires { HasProgram machine.now (shown_slot slot.now) }
    ensures { OnOk result (Adds out.old out.new (
        section (shown_slot slot.now) (state_at machine.now slot.now.p))) }
{
    write_section(out, slot, &InSlot { machine, slot })
}
