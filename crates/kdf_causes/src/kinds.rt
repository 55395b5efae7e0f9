//! The kinds of devices in words, and the devices that a program has.

use crate::case::Case;
use kdf_code::to_host;
use kdf_job::kind_lent;
use kdf_journal::Kind;
use kdf_json::write_separator;
use kdf_transfer::Device;
use kdf_word::Word;
use std::alloc::{AllocError, Global};
use std::fmt::Write;

/// A device of a kind, in words.
pub fn a_device(kind: Kind) -> &'static str {
    match kind {
        Kind::Tr => "a paper tape reader",
        Kind::Tp => "a paper tape punch",
        Kind::Cr => "a card reader",
        Kind::Lp => "a line printer",
        Kind::Mt => "a magnetic tape",
    }
}

/// Which devices the slot of a program has, and the pool, in words.
pub fn write_devices_there(out: &mut String, case: Case<'_, '_>) -> Result<(), AllocError> {
    let own = case.slot.devices.len();
    if own == 0 {
        out.push_str("the slot has no devices")?;
    } else {
        out.push_str("the slot has ")?;
    }
    for (i, (d, device)) in case.slot.devices.iter().enumerate() {
        write_separator(out, i, own, " and ")?;
        write_device(case.alloc, out, *d, device)?;
    }
    write_pool(out, &case.slot.pool)
}

/// Writes the kind of a device, its number, and the label of a tape.
fn write_device(alloc: Global, out: &mut String, d: u8, device: &Device) -> Result<(), AllocError> {
    let name = device.kind().name();
    write!(out, "{name} {d}")?;
    match device {
        Device::Mt(tape) => {
            let label = characters(alloc, tape.label())?;
            out.push(' ')?;
            out.push_str(label.as_str())
        }
        _ => Ok(()),
    }
}

/// Writes the devices of the pool, if it has any.
fn write_pool(out: &mut String, pool: &[(u8, Kind)]) -> Result<(), AllocError> {
    if !pool.is_empty() {
        out.push_str("; the pool has ")?;
    }
    for (i, (d, kind)) in pool.iter().enumerate() {
        let name = kind.name();
        write_separator(out, i, pool.len(), " and ")?;
        write!(out, "{name} {d}")?;
    }
    Ok(())
}

/// The characters of a word, without the spaces at its end.
pub fn characters(alloc: Global, word: Word) -> Result<String, AllocError> {
    let mut out = String::new(alloc);
    let mut spaces = 0u8;
    for code in word.codes() {
        let byte = to_host(code % 64);
        if byte == b' ' {
            spaces = spaces.saturating_add(1);
        } else {
            write_after(&mut out, spaces, byte)?;
            spaces = 0;
        }
    }
    Ok(out)
}

/// Writes a character after so many spaces.
fn write_after(out: &mut String, spaces: u8, byte: u8) -> Result<(), AllocError> {
    for _space in 0..spaces {
        out.push(' ')?;
    }
    out.push(char::from(byte))
}

/// A device that a program may name: its kind, and whether it is one of the pool.
#[derive(Clone, Copy)]
pub struct Known {
    pub kind: Kind,
    pub is_pooled: bool,
}

/// The device of a number, if the slot of a program or the pool has it.
pub fn device_known(case: Case<'_, '_>, number: u16) -> Option<Known> {
    let Ok(d) = u8::try_from(number) else {
        return None;
    };
    match (kind_lent(&case.slot.pool, d), case.slot.device(d)) {
        (Some(kind), _) => Some(Known {
            kind,
            is_pooled: true,
        }),
        (None, Some(device)) => Some(Known {
            kind: device.kind(),
            is_pooled: false,
        }),
        (None, None) => None,
    }
}

/// Whether a program has a device of the pool. One that is over had what it gave back then.
pub fn has_taken(case: Case<'_, '_>, d: u8) -> bool {
    let p = case.slot.p;
    let over = case.ending.story.over_of(p);
    let mut found = false;
    for loan in case.ending.story.loans.iter() {
        if loan.p == p && loan.d == d {
            found = loan.given.is_none() || loan.given == over;
        }
    }
    found
}
