//! The lines of the words that a snapshot has.
ghost use Rattle.std.specs.Prelude.{◌≡◌, ◌<◌, ◌^◌, All, IfOk, IsSomeAnd, OnOk, map};
ghost use Rattle.std.specs.List.{flat_map};
ghost use Rattle.kdf_job.specs.Shows.{shown_job, shown_slot};
ghost use Rattle.kdf_processor.specs.State.{word_at};
ghost use Rattle.kdf_text.specs.Text.{Adds, text};
ghost use Rattle.kdf_theory.specs.MachineView.{state_at, state_of};
ghost use Rattle.kdf_snapshot.specs.Stores.{HasStore, slot_lines, store_lines, word_lines};

use kdf_director::Machine;
use kdf_job::{Job, SlotJob};
use kdf_text::write_octal;
use std::alloc::{AllocError, Global};
use std::fmt::Write;

/// The lines `STORE p a word` of a job and of a machine that was loaded from it: for each slot, and in it for each address whose word
/// isn't zero, both rising, the word in 16 octal digits. The machine has the program of each slot.
pub fn dump(alloc: Global, job: &Job, machine: &Machine) -> Result<Vec<u8>, AllocError>
    requires { All (HasStore machine.now) (map shown_slot job.now.slots.items) }
    ensures { IfOk result (λ bytes. bytes.items
        ≡ text (store_lines (shown_job job.now) (state_at machine.now))) }
{
    let mut out = String::new(alloc);
    write_stores(&mut out, &job.slots, machine)?;
    Ok(out.into_bytes())
}

/// The words of each slot, in the order of the slots.
#[tactic(auto, unfolding(kdf_text::specs::Text::text))]
fn write_stores(out: &mut String, slots: &[SlotJob], machine: &Machine) -> Result<(), AllocError>
    requires { All (λ slot. HasStore machine.now (shown_slot slot)) slots.now }
    ensures { OnOk result (Adds out.old out.new (
        flat_map (λ slot. slot_lines slot (state_at machine.now slot.p)) (map shown_slot slots.now))) }
{
    for slot in slots {
        write_store(out, slot, machine)?;
    }
    Ok(())
}

/// The words of a slot, from its program in the machine.
#[tactic(auto, unfolding(kdf_text::specs::Text::text))]
fn write_store(out: &mut String, slot: &SlotJob, machine: &Machine) -> Result<(), AllocError>
    requires { HasStore machine.now (shown_slot slot.now) }
    ensures { OnOk result (Adds out.old out.new (
        slot_lines (shown_slot slot.now) (state_at machine.now slot.now.p))) }
{
    for address in 0..slot.size {
        write_word(out, slot.p, address, machine)?;
    }
    Ok(())
}

/// The word of program `p` at an address.
fn write_word(out: &mut String, p: u8, address: u16, machine: &Machine) -> Result<(), AllocError>
    requires { IsSomeAnd (state_of machine.now p) (λ s. address < s.stock.claims.size) }
    ensures { OnOk result (Adds out.old out.new (
        word_lines p address (word_at (state_at machine.now p) address))) }
{
    write_bits(out, p, address, machine.word(p, address).bits())
}

/// A word, unless it is zero.
#[tactic(auto, unfolding(kdf_text::specs::Text::text))]
fn write_bits(out: &mut String, p: u8, address: u16, bits: u64) -> Result<(), AllocError>
    requires { bits < 2 ^ 48 }
    ensures { OnOk result (Adds out.old out.new (word_lines p address bits)) }
{
    if bits == 0 {
        return Ok(());
    }
    write!(out, "STORE {p} {address} ")?;
    write_octal(out, bits)?;
    writeln!(out)
}
