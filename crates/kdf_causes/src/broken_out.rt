//! What the number of an OUT is, or what it asks for: the failure OUT.

use crate::case::Case;
use crate::cause::Cause;
use std::alloc::AllocError;
use std::fmt::Write;

/// Why an order failed as OUT.
pub fn broken_out(case: Case<'_, '_>) -> Result<Cause, AllocError> {
    match case.bits(0) {
        5 => kind(case),
        8 => stream(case),
        64 => not_served(case),
        _ => call(case),
    }
}

/// A failure of an OUT with this number.
fn failure(case: Case<'_, '_>, what: &str) -> Result<Cause, AllocError> {
    let mut cause = case.failure(what, 3)?;
    cause.signed("number", case.number(0))?;
    if case.depth() > 1 {
        cause.signed("operand", case.number(1))?;
    }
    Ok(cause)
}

fn kind(case: Case<'_, '_>) -> Result<Cause, AllocError> {
    let mut cause = failure(case, "kind")?;
    let second = case.number(1);
    write!(
        cause.sentence,
        "OUT 5 needs 1 (TP), 2 (TR), 3 (LP) or 4 (CR) in N2, but N2 is {second}"
    )?;
    Ok(cause)
}

fn stream(case: Case<'_, '_>) -> Result<Cause, AllocError> {
    let mut cause = failure(case, "stream")?;
    let stream = case.bits(1) / 4294967296;
    cause.number("stream", stream)?;
    write!(
        cause.sentence,
        "OUT 8 has streams 0 to 7, but the counter of N2 is {stream}"
    )?;
    Ok(cause)
}

fn not_served(case: Case<'_, '_>) -> Result<Cause, AllocError> {
    let mut cause = failure(case, "not served")?;
    let p = case.slot.p;
    write!(
        cause.sentence,
        "OUT 64 asks the installation's service, and slot {p} isn't served: it has no line SERVICE after its ENDDECK"
    )?;
    Ok(cause)
}

/// A number that OUT doesn't have.
fn call(case: Case<'_, '_>) -> Result<Cause, AllocError> {
    let mut cause = failure(case, "call")?;
    let number = case.number(0);
    write!(cause.sentence, "OUT {number} isn't one of 0, 3, 4, 5, 6, 8")?;
    cause.say(if case.slot.served {
        ", 9 and 64"
    } else {
        " and 9"
    })?;
    say_meant(case, &mut cause)?;
    Ok(cause)
}

/// Adds the number of OUT that may have been meant.
fn say_meant(case: Case<'_, '_>, cause: &mut Cause) -> Result<(), AllocError> {
    match (case.number(1), case.number(0)) {
        (meant @ (4 | 5 | 6 | 8), _) => say_exchanged(cause, meant),
        (64, _) if case.slot.served => say_exchanged(cause, 64),
        (_, 52 | 100) if case.slot.served => {
            cause.number("meant", 64)?;
            cause.say("; did you mean OUT 64? That is SET 64, or SETB100 in octal")
        }
        _ => Ok(()),
    }
}

fn say_exchanged(cause: &mut Cause, meant: i64) -> Result<(), AllocError> {
    cause.signed("meant", meant)?;
    write!(
        cause.sentence,
        "; did you mean OUT {meant}? The number goes on top, and here {meant} is in N2"
    )
}
