//! Which address or area isn't in the store: the failure LIV.

use crate::case::Case;
use crate::cause::Cause;
use crate::names::no_order;
use kdf_qstore::Triple;
use kdf_syllable::Order;
use std::alloc::AllocError;
use std::fmt::Write;

/// An area has so many words at most.
const MOST_WORDS: u16 = 4096;

/// The code of OUT.
const OUT: u8 = 0x21;

/// Why an order failed as LIV.
pub fn broken_store(case: Case<'_, '_>) -> Result<Cause, AllocError> {
    match case.order() {
        None => no_order(case),
        Some(order) if case.is_cut(order) => cut(case),
        Some(Order::Direct { q, a, .. }) => direct(case, q, a),
        Some(Order::Indirect { code, k, q }) => indirect(case, code, k, q),
        Some(Order::Device { q, .. } | Order::Query { q, .. }) => area(case, q),
        Some(Order::Plain { code: OUT }) => text(case),
        Some(_) => cut(case),
    }
}

/// An order that goes on behind the store.
fn cut(case: Case<'_, '_>) -> Result<Cause, AllocError> {
    let mut cause = case.failure("syllables", 1)?;
    cause.say("one of its syllables is outside the store; ")?;
    case.say_store(&mut cause)?;
    Ok(cause)
}

/// A store by its address and a modifier.
fn direct(case: Case<'_, '_>, q: u8, a: u16) -> Result<Cause, AllocError> {
    let mut cause = case.failure("address", 3)?;
    let address = a.wrapping_add(case.modifier(q));
    cause.number("address", address.into())?;
    if q == 0 {
        write!(cause.sentence, "its address is {address}")?;
    } else {
        modified(case, &mut cause, q, a, address)?;
    }
    cause.say("; ")?;
    case.say_store(&mut cause)?;
    Ok(cause)
}

/// What the address of a store and a modifier give.
fn modified(
    case: Case<'_, '_>,
    cause: &mut Cause,
    q: u8,
    a: u16,
    address: u16,
) -> Result<(), AllocError> {
    let name = store_named(case)?;
    let name = name.as_str();
    let modifier = case.modifier(q);
    cause.text("name", name)?;
    write!(
        cause.members,
        ",\"word\":{a},\"q\":{q},\"modifiers\":[{modifier}]"
    )?;
    write!(
        cause.sentence,
        "{name} is word {a}, and M{q} = {modifier}, which gives {address}"
    )
}

/// The name of the store in the statement of an order: what stands before its modifier.
fn store_named(case: Case<'_, '_>) -> Result<String, AllocError> {
    let text = case.text()?;
    let bytes = text.as_str().as_bytes();
    let end = last_modifier(bytes);
    let mut name = String::new(case.alloc);
    for (i, byte) in bytes.iter().enumerate() {
        if i < end && *byte != b'=' {
            name.push(char::from(*byte))?;
        }
    }
    Ok(name)
}

/// Where the modifier of a statement begins.
fn last_modifier(bytes: &[u8]) -> usize {
    let mut end = bytes.len();
    for (i, byte) in bytes.iter().enumerate() {
        if *byte == b'M' {
            end = i;
        }
    }
    end
}

/// A word by the sum of two modifiers.
fn indirect(case: Case<'_, '_>, code: u8, k: u8, q: u8) -> Result<Cause, AllocError> {
    let mut cause = case.failure("modifiers", 3)?;
    let base = case.modifier(k);
    let is_half = code / 2 % 2 == 1;
    let step = if is_half {
        case.modifier(q) / 2
    } else {
        case.modifier(q)
    };
    let after = u16::from(code % 2);
    let address = base.wrapping_add(step).wrapping_add(after);
    write!(
        cause.members,
        ",\"q\":{q},\"modifiers\":[{base},{step}],\"address\":{address}"
    )?;
    write!(cause.sentence, "M{k} + M{q}")?;
    cause.say(if is_half { "/2" } else { "" })?;
    cause.say(if after == 1 { " + 1" } else { "" })?;
    write!(cause.sentence, " = {address}; ")?;
    case.say_store(&mut cause)?;
    Ok(cause)
}

/// The area of a transfer or a test.
fn area(case: Case<'_, '_>, q: u8) -> Result<Cause, AllocError> {
    let mut cause = case.failure("area", 3)?;
    let Triple { i, m, .. } = case.triple(q);
    case.say_q_store(&mut cause, q)?;
    cause.say("; ")?;
    fault_of_area(case, &mut cause, i, m)?;
    Ok(cause)
}

/// The area that OUT 8 sends.
fn text(case: Case<'_, '_>) -> Result<Cause, AllocError> {
    let mut cause = case.failure("area", 3)?;
    let bits = case.bits(1);
    let first = (bits / 65536 % 65536) as u16;
    let last = (bits % 65536) as u16;
    cause.number("number", 8)?;
    write!(cause.sentence, "OUT 8 sends the words {first} to {last}; ")?;
    fault_of_area(case, &mut cause, first, last)?;
    Ok(cause)
}

/// Why some words aren't an area.
fn fault_of_area(
    case: Case<'_, '_>,
    cause: &mut Cause,
    first: u16,
    last: u16,
) -> Result<(), AllocError> {
    cause.number("first", first.into())?;
    cause.number("last", last.into())?;
    if first > last {
        write!(
            cause.sentence,
            "the first address, {first}, is above the last, {last}"
        )
    } else if last >= case.slot.size {
        case.say_store(cause)
    } else {
        write!(cause.sentence, "an area has at most {MOST_WORDS} words")
    }
}
