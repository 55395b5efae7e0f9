//! The summary of a made job.
ghost use Rattle.std.specs.Prelude.{◌≡◌, ◌<◌, [], ◌∷◌, All, IfOk, OnOk, map};
ghost use Rattle.kdf_theory.specs.MachineView.{state_at};
ghost use Rattle.kdf_job.specs.Shows.{shown_job, shown_slot};
ghost use Rattle.kdf_job.specs.WellFormed.{IsSlot};
ghost use Rattle.kdf_processor.specs.State.{device_limit};
ghost use Rattle.kdf_text.specs.Text.{Adds};
ghost use Rattle.kdf_report.specs.MadeFrom.{HasProgram};
ghost use Rattle.kdf_report.specs.Summary.{blocks_at, entries_line, job_line, make_line, program_line, slot_line, summary_text};

use crate::Program;
use crate::entries::write_one;
use crate::in_slot::InSlot;
use crate::registers::write_life_name;
use kdf_director::Machine;
use kdf_job::{Job, SlotJob};
use kdf_journal::Journal;
use kdf_processor::Registers;
use kdf_text::{write_end, write_octal};
use kdf_transfer::Device;
use kdf_word::Word;
use std::alloc::{AllocError, Global};
use std::fmt::Write;

/// The summary of a job that was made of `n` and has so many bytes, and of a machine that was loaded from it: the number, the bytes,
/// how many entries the journal has, a line for each slot of the job, and the last line. The slots are well formed, and the machine
/// has the program of each.
pub fn summary(
    alloc: Global,
    n: u16,
    bytes: u32,
    job: &Job,
    machine: &Machine,
) -> Result<Vec<u8>, AllocError>
    requires slots { All IsSlot (map shown_slot job.now.slots.items) }
    requires programs { All (HasProgram machine.now) (map shown_slot job.now.slots.items) }
    ensures { IfOk result (λ text. text.items
        ≡ summary_text n bytes (shown_job job.now) machine.now.journal (state_at machine.now)) }
{
    let mut out = String::new(alloc);
    write_head(&mut out, n, bytes, machine.journal())?;
    write_slots(&mut out, &job.slots, machine)?;
    write_end(&mut out)?;
    Ok(out.into_bytes())
}

/// The number of which the job was made, its bytes, and how many entries its journal has.
#[tactic(auto, unfolding(kdf_text::specs::Text::text))]
fn write_head(out: &mut String, n: u16, bytes: u32, journal: &Journal) -> Result<(), AllocError>
    ensures { OnOk result (Adds out.old out.new (
        make_line n ∷ job_line bytes ∷ entries_line journal.now.entries ∷ [])) }
{
    write_one(out, "KDF9 MAKE ", n.into())?;
    write_one(out, "JOB ", bytes.into())?;
    write_one(out, "ENTRIES ", journal.entries().len() as u64)
}

/// The line of each slot, in the order of the slots.
#[tactic(auto, unfolding(kdf_text::specs::Text::text))]
fn write_slots(out: &mut String, slots: &[SlotJob], machine: &Machine) -> Result<(), AllocError>
    requires slots { All (λ slot. IsSlot (shown_slot slot)) slots.now }
    requires programs { All (λ slot. HasProgram machine.now (shown_slot slot)) slots.now }
    ensures { OnOk result (Adds out.old out.new (
        map (λ slot. program_line slot.p (state_at machine.now slot.p)) (map shown_slot slots.now))) }
{
    for slot in slots {
        write_slot_of(out, slot, machine)?;
    }
    Ok(())
}

/// The line of a slot, from its program in the machine.
fn write_slot_of(out: &mut String, slot: &SlotJob, machine: &Machine) -> Result<(), AllocError>
    requires slot { IsSlot (shown_slot slot.now) }
    requires program { HasProgram machine.now (shown_slot slot.now) }
    ensures { OnOk result (Adds out.old out.new (
        program_line slot.now.p (state_at machine.now slot.now.p) ∷ [])) }
{
    write_program(out, slot.p, &InSlot { machine, slot })
}

/// The line of slot `p`, from its program.
fn write_program<P: Program>(out: &mut String, p: u8, program: &P) -> Result<(), AllocError>
    requires number { p < 4 }
    requires word { 12 < (P.state program.now).stock.claims.size }
    ensures { OnOk result (Adds out.old out.new (program_line p (P.state program.now) ∷ [])) }
{
    let blocks = blocks_of(program, 2 * p + 1);
    write_slot(out, p, program.registers(), blocks, program.word(12))
}

/// The life and the orders of the program of slot `p`, how many blocks it punched, and a word of it.
#[tactic(auto, unfolding(kdf_text::specs::Text::text))]
fn write_slot(
    out: &mut String,
    p: u8,
    registers: &Registers,
    blocks: u32,
    word: Word,
) -> Result<(), AllocError>
    ensures { OnOk result (Adds out.old out.new (slot_line p registers.now blocks word ∷ [])) }
{
    let orders = registers.ran;
    write!(out, "SLOT {p} ")?;
    write_life_name(out, registers.state)?;
    write!(out, " ORDERS {orders} BLOCKS {blocks} WORD ")?;
    write_octal(out, word.bits())?;
    writeln!(out)
}

/// How many blocks the device of this number has finished; 0 where the program has none of it, or it isn't a paper tape punch.
fn blocks_of<P: Program>(program: &P, d: u8) -> u32
    requires { d < device_limit }
    ensures { result ≡ blocks_at (P.state program.now) d }
{
    match program.device(d) {
        Some(Device::Tp(punch)) => punch.place(),
        _ => 0,
    }
}
