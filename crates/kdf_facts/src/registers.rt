//! The registers of a program.

use kdf_json::write_items;
use kdf_processor::Registers;
use std::alloc::AllocError;
use std::fmt::Write;

/// How many Q-stores there are.
const Q_STORES: u8 = 16;

/// Writes the words of the nest and the links, the top first, the parts of each Q-store, V and TR. Words are without signs.
pub fn write_registers(out: &mut String, registers: &Registers) -> Result<(), AllocError> {
    out.push_str(",\"nest\":[")?;
    for i in 0..registers.nest.depth() {
        let bits = registers.nest.peek(i).bits();
        write_items(out, i)?;
        write!(out, "{bits}")?;
    }
    out.push_str("],\"links\":[")?;
    for i in 0..registers.links.depth() {
        write_items(out, i)?;
        write_link(out, registers.links.peek(i))?;
    }
    out.push_str("],\"q\":[")?;
    write_q_stores(out, registers)?;
    let v = registers.flags.v;
    let tr = registers.flags.tr;
    write!(out, "],\"v\":{v},\"tr\":{tr}")
}

/// Writes a link: a word, and a number of 3 bits, which is that of a syllable if it is below 6.
fn write_link(out: &mut String, link: u16) -> Result<(), AllocError> {
    let word = link % 8192;
    let syllable = link / 8192;
    write!(out, "[{word},{syllable}]")
}

/// Writes the counter, increment and modifier of each Q-store.
fn write_q_stores(out: &mut String, registers: &Registers) -> Result<(), AllocError> {
    for q in 0..Q_STORES {
        let parts = registers.q.triple(q);
        let c = parts.c;
        let i = parts.i;
        let m = parts.m;
        write_items(out, usize::from(q))?;
        write!(out, "[{c},{i},{m}]")?;
    }
    Ok(())
}
