//! The slots of a job, and whose turn is next in its run.
ghost use Rattle.std.specs.Prelude.{◌<◌, length};

use kdf_causes::Ending;
use kdf_director::Machine;
use kdf_job::SlotJob;
use kdf_json::{deck_line, write_comma, write_items};
use kdf_processor::Life;
use kdf_text::LINE_END;
use std::alloc::AllocError;
use std::fmt::Write;

/// Writes each slot of a job of these bytes: the words of its store, where its deck is, whether it is served, and what of it is shown.
pub fn write_slots(out: &mut String, bytes: &[u8], slots: &[SlotJob]) -> Result<(), AllocError>
    requires { length bytes.now < 4294967295 }
{
    for (i, slot) in slots.iter().enumerate() {
        write_comma(out, i)?;
        write_slot(out, slot, deck_line(bytes, slot.p))?;
        write_shows(out, &slot.shows)?;
        out.push_str("}")?;
    }
    Ok(())
}

/// Writes a slot whose deck begins at a line of the job.
fn write_slot(out: &mut String, slot: &SlotJob, line: u32) -> Result<(), AllocError> {
    let p = slot.p;
    let store = slot.size;
    let lines = lines_in(&slot.deck);
    let is_served = slot.served;
    write!(
        out,
        "{{\"slot\":{p},\"store\":{store},\"line\":{line},\"lines\":{lines},\"served\":{is_served},\"shows\":["
    )
}

/// How many lines a deck has, each of which has its end.
fn lines_in(deck: &[u8]) -> u32 {
    let mut lines = 0u32;
    for byte in deck {
        if *byte == LINE_END {
            lines = lines.saturating_add(1);
        }
    }
    lines
}

/// Writes the first and the last address of each run of words that is shown.
fn write_shows(out: &mut String, shows: &[(u16, u16)]) -> Result<(), AllocError> {
    for (i, (first, last)) in shows.iter().enumerate() {
        write_items(out, i)?;
        write!(out, "[{first},{last}]")?;
    }
    out.push_str("]")
}

/// The slot whose program has the next turn, if one has it: that of the highest priority that is live and waits for nothing.
pub fn next_turn(machine: &Machine, ending: Ending<'_>) -> Option<u32> {
    for p in machine.journal().priorities() {
        if is_live(machine, p) && ending.waiting(p).is_none() {
            return Some(u32::from(p));
        }
    }
    None
}

/// Whether the program of a slot is live.
fn is_live(machine: &Machine, p: u8) -> bool {
    match machine.seen(p) {
        Some(registers) => match registers.state {
            Life::Live => true,
            _ => false,
        },
        None => false,
    }
}
