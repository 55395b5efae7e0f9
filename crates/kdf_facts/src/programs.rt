//! The programs of a run at its end.

use crate::registers::write_registers;
use crate::run::Loaded;
use kdf_causes::{Case, Ending, write_why};
use kdf_director::Machine;
use kdf_json::{write_comma, write_number};
use kdf_listing::{Deck, Layout, write_order};
use kdf_processor::{Life, Registers};
use std::alloc::{AllocError, Global};
use std::fmt::Write;

/// Writes how each program is at the end: how many orders it obeyed, whether it is live, its next order, and what it waits for.
pub fn write_programs(
    alloc: Global,
    out: &mut String,
    decks: &[Deck<'_>],
    machine: &Machine,
    ending: Ending<'_>,
    loaded: Loaded<'_>,
) -> Result<(), AllocError> {
    for (i, deck) in decks.iter().enumerate() {
        write_comma(out, i)?;
        let p = deck.p;
        write!(out, "{{\"slot\":{p}")?;
        if let Some(registers) = machine.seen(p) {
            write_place(out, registers, &deck.layout)?;
            write_waiting(out, registers.state, ending.waiting(p), ending)?;
            write_cause_of(alloc, out, i, deck, registers, machine, ending, loaded)?;
            write_registers(out, registers)?;
        }
        out.push_str("}")?;
    }
    Ok(())
}

/// Writes why the program of the slot of a number in the job isn't over.
fn write_cause_of(
    alloc: Global,
    out: &mut String,
    i: usize,
    deck: &Deck<'_>,
    registers: &Registers,
    machine: &Machine,
    ending: Ending<'_>,
    loaded: Loaded<'_>,
) -> Result<(), AllocError> {
    match (loaded.job.slots.get(i), loaded.images.get(i)) {
        (Some(slot), Some(image)) => write_why(
            out,
            Case {
                alloc,
                slot,
                image,
                layout: &deck.layout,
                registers,
                machine,
                ending,
            },
        ),
        _ => out.push_str(",\"why\":null"),
    }
}

/// Writes how many orders a program obeyed, whether it is live, and its next order.
fn write_place(
    out: &mut String,
    registers: &Registers,
    layout: &Layout<'_>,
) -> Result<(), AllocError> {
    let orders = registers.ran;
    write!(out, ",\"orders\":{orders}")?;
    write_life(out, registers.state)?;
    write_order(out, Some(registers.at), Some(layout))
}

/// Writes whether a program is live, and how it failed.
pub fn write_life(out: &mut String, life: Life) -> Result<(), AllocError> {
    match life {
        Life::Live => out.push_str(",\"state\":\"LIVE\",\"failure\":null"),
        Life::Ended => out.push_str(",\"state\":\"ENDED\",\"failure\":null"),
        Life::Failed(kind) => {
            let name = kind.name();
            write!(out, ",\"state\":\"FAILED\",\"failure\":\"{name}\"")
        }
    }
}

/// Writes the number of the hold that a live program is in, and whether nothing but more calls is lacking.
fn write_waiting(
    out: &mut String,
    life: Life,
    waiting: Option<u32>,
    ending: Ending<'_>,
) -> Result<(), AllocError> {
    out.push_str(",\"hold\":")?;
    write_number(out, waiting)?;
    let Life::Live = life else {
        return out.push_str(",\"lacks\":null");
    };
    match waiting {
        Some(i) => ending.write_lack(out, i),
        None => out.push_str(",\"lacks\":{\"what\":\"calls\"}"),
    }
}
