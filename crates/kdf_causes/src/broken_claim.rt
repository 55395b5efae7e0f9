//! Which device an order names, and which the program may use: the failure CLAIM.

use crate::case::Case;
use crate::cause::Cause;
use crate::kinds::{Known, a_device, characters, device_known, has_taken, write_devices_there};
use kdf_journal::Kind;
use kdf_json::{write_items, write_separator};
use kdf_syllable::Order;
use std::alloc::AllocError;
use std::fmt::Write;

/// Why an order failed as CLAIM.
pub fn broken_claim(case: Case<'_, '_>) -> Result<Cause, AllocError> {
    match case.order_at(u32::from(case.registers.at)) {
        Some(Order::Device { code, q }) => device(case, q, kind_needed(code)),
        Some(Order::Query { q, .. }) => device(case, q, Kind::Mt),
        _ => asked(case),
    }
}

/// The kind of device that the order of a transfer needs, by its code.
fn kind_needed(code: u8) -> Kind {
    match code {
        0x70 | 0x71 => Kind::Tr,
        0x72 | 0x73 => Kind::Tp,
        0x74 => Kind::Cr,
        0x75 | 0x76 => Kind::Lp,
        _ => Kind::Mt,
    }
}

/// The device that a Q-store names.
fn device(case: Case<'_, '_>, q: u8, wanted: Kind) -> Result<Cause, AllocError> {
    let number = case.triple(q).c;
    match device_known(case, number) {
        None => no_device(case, q, number),
        Some(known) => wrong_device(case, q, number, known, wanted),
    }
}

fn no_device(case: Case<'_, '_>, q: u8, number: u16) -> Result<Cause, AllocError> {
    let mut cause = case.failure("no device", 3)?;
    case.say_q_store(&mut cause, q)?;
    cause.number("device", number.into())?;
    write!(cause.sentence, ", and its counter names device {number}; ")?;
    write_devices_there(&mut cause.sentence, case)?;
    if number == 0 {
        write!(cause.sentence, "; did you forget =C{q}?")?;
    }
    Ok(cause)
}

/// A device that there is, and that the order can't use.
fn wrong_device(
    case: Case<'_, '_>,
    q: u8,
    number: u16,
    known: Known,
    wanted: Kind,
) -> Result<Cause, AllocError> {
    let d = (number % 256) as u8;
    let mut cause = case.failure(what_is_wrong(case, d, known), 3)?;
    say_named(case, &mut cause, q, d, known)?;
    if is_unclaimed(case, d, known) {
        say_unclaimed(&mut cause, known)?;
    } else {
        say_wanted(case, &mut cause, wanted)?;
    }
    Ok(cause)
}

/// Whether a program hasn't got a device.
fn is_unclaimed(case: Case<'_, '_>, d: u8, known: Known) -> bool {
    if known.is_pooled {
        !has_taken(case, d)
    } else {
        !case.machine.claimed(d)
    }
}

fn what_is_wrong(case: Case<'_, '_>, d: u8, known: Known) -> &'static str {
    match (is_unclaimed(case, d, known), known.is_pooled) {
        (true, true) => "not taken",
        (true, false) => "not claimed",
        (false, _) => "wrong kind",
    }
}

/// Adds the device that a Q-store names.
fn say_named(
    case: Case<'_, '_>,
    cause: &mut Cause,
    q: u8,
    d: u8,
    known: Known,
) -> Result<(), AllocError> {
    let kind = known.kind.name();
    let a_device = a_device(known.kind);
    let parts = case.triple(q);
    let c = parts.c;
    let i = parts.i;
    let m = parts.m;
    write!(
        cause.members,
        ",\"q\":{q},\"parts\":[{c},{i},{m}],\"device\":{d},\"kind\":\"{kind}\""
    )?;
    write!(cause.sentence, "Q{q} names device {d}, {a_device}")?;
    cause.say(if known.is_pooled { " of the pool" } else { "" })
}

fn say_unclaimed(cause: &mut Cause, known: Known) -> Result<(), AllocError> {
    cause.say(match (known.is_pooled, known.kind) {
        (true, _) => ", which the program hasn't got: OUT 5 takes one from the pool",
        (false, Kind::Mt) => ", which isn't claimed: OUT 4 claims it",
        (false, _) => ", which isn't claimed: OUT 5 claims it",
    })
}

fn say_wanted(case: Case<'_, '_>, cause: &mut Cause, wanted: Kind) -> Result<(), AllocError> {
    let text = case.text()?;
    let name = text.as_str();
    let a_device = a_device(wanted);
    cause.text("name", name)?;
    cause.text("wanted", wanted.name())?;
    write!(cause.sentence, "; {name} needs {a_device}")
}

/// What OUT asks for.
fn asked(case: Case<'_, '_>) -> Result<Cause, AllocError> {
    match case.bits(0) {
        4 => label(case),
        5 => kind(case),
        _ => not_given(case),
    }
}

/// A failure of an OUT.
fn failure(case: Case<'_, '_>, what: &str) -> Result<Cause, AllocError> {
    let mut cause = case.failure(what, 3)?;
    cause.signed("number", case.number(0))?;
    cause.signed("operand", case.number(1))?;
    Ok(cause)
}

/// The label that an OUT 4 looks for.
fn label(case: Case<'_, '_>) -> Result<Cause, AllocError> {
    let mut cause = failure(case, "label")?;
    match (case.bits(1), case.nested(1)) {
        (number @ 0..=63, _) => say_number(&mut cause, number)?,
        (_, Some(word)) => {
            let label = characters(case.alloc, word)?;
            say_label(&mut cause, label.as_str())?;
        }
        (_, None) => {}
    }
    cause.say("; ")?;
    write_devices_there(&mut cause.sentence, case)?;
    Ok(cause)
}

fn say_number(cause: &mut Cause, number: u64) -> Result<(), AllocError> {
    write!(
        cause.sentence,
        "OUT 4 looks for a tape with the label {number}, which is a number"
    )?;
    if number == 5 {
        cause.number("meant", 5)?;
        cause.say(": for a card reader write SET 4; SET 5; OUT, with the 5 on top")?;
    }
    Ok(())
}

fn say_label(cause: &mut Cause, label: &str) -> Result<(), AllocError> {
    cause.text("label", label)?;
    write!(
        cause.sentence,
        "OUT 4 looks for an unclaimed tape with the label \"{label}\""
    )
}

/// The kind of device that an OUT 5 asks for, by its number.
fn kind_asked(number: u64) -> Kind {
    match number {
        1 => Kind::Tp,
        2 => Kind::Tr,
        3 => Kind::Lp,
        _ => Kind::Cr,
    }
}

/// The kind of device that an OUT 5 asks for.
fn kind(case: Case<'_, '_>) -> Result<Cause, AllocError> {
    let wanted = kind_asked(case.bits(1));
    let taken = taken_of(case, wanted)?;
    let mut cause = failure(
        case,
        if taken.is_empty() {
            "none"
        } else {
            "none left"
        },
    )?;
    say_kind(&mut cause, wanted)?;
    if taken.is_empty() {
        write_devices_there(&mut cause.sentence, case)?;
    } else {
        say_taken(&mut cause, &taken)?;
    }
    Ok(cause)
}

fn say_kind(cause: &mut Cause, wanted: Kind) -> Result<(), AllocError> {
    let a_device = a_device(wanted);
    let name = wanted.name();
    cause.text("wanted", name)?;
    write!(cause.sentence, "OUT 5 needs {a_device}, {name}; ")
}

/// Adds that these devices are all taken.
fn say_taken(cause: &mut Cause, taken: &[u8]) -> Result<(), AllocError> {
    cause.members.push_str(",\"taken\":[")?;
    cause.say(if taken.len() == 1 {
        "device "
    } else {
        "devices "
    })?;
    for (i, d) in taken.iter().enumerate() {
        write_items(&mut cause.members, i)?;
        write!(cause.members, "{d}")?;
        write_separator(&mut cause.sentence, i, taken.len(), " and ")?;
        write!(cause.sentence, "{d}")?;
    }
    cause.members.push_str("]")?;
    cause.say(if taken.len() == 1 {
        " is already claimed"
    } else {
        " are already claimed"
    })
}

/// The devices of a kind that a program has.
fn taken_of(case: Case<'_, '_>, wanted: Kind) -> Result<Vec<u8>, AllocError> {
    let mut taken = Vec::new(case.alloc);
    for (d, device) in case.slot.devices.iter() {
        if device.kind() == wanted && case.machine.claimed(*d) {
            taken.push(*d)?;
        }
    }
    for (d, kind) in case.slot.pool.iter() {
        if *kind == wanted && has_taken(case, *d) {
            taken.push(*d)?;
        }
    }
    Ok(taken)
}

/// The device that an OUT 6 gives back.
fn not_given(case: Case<'_, '_>) -> Result<Cause, AllocError> {
    let mut cause = failure(case, "not given")?;
    let number = case.number(1);
    cause.signed("device", number)?;
    write!(
        cause.sentence,
        "OUT 6 gives back device {number}, which isn't claimed; "
    )?;
    write_devices_there(&mut cause.sentence, case)?;
    Ok(cause)
}
