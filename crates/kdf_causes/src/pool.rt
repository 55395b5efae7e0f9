//! Why a program waits for the pool: who has the devices of a kind, and why they aren't given back.

use crate::case::Case;
use crate::cause::Cause;
use crate::endings::Ending;
use crate::kinds::a_device;
use crate::stuck::{all_stuck, hold_of};
use crate::why::write_held_by;
use kdf_journal::Kind;
use kdf_json::{write_comma, write_separator};
use kdf_trace::{HeldBy, Loan};
use std::alloc::AllocError;
use std::fmt::Write;

/// Why a holder doesn't give a device back.
#[derive(Clone, Copy)]
enum Kept {
    Itself,
    GoingOn,
    Transfer,
    Pool,
}

/// Adds each device of a kind in the pool, and the circle of a deadlock.
pub fn push_wait(
    causes: &mut Vec<Cause>,
    case: Case<'_, '_>,
    kind: Kind,
) -> Result<(), AllocError> {
    for d in 0..16 {
        if case.ending.is_of(d, kind) {
            causes.push(device(case, d)?)?;
        }
    }
    if case.ending.is_stuck(kind) {
        causes.push(deadlock(case)?)?;
    }
    Ok(())
}

/// A device of the pool for which a program waits.
fn device(case: Case<'_, '_>, d: u8) -> Result<Cause, AllocError> {
    match loan_of(case.ending, d) {
        Some(loan) => lent(case, loan),
        None => free(case, d),
    }
}

/// The loan of a device that goes on.
fn loan_of(ending: Ending<'_>, d: u8) -> Option<Loan> {
    let mut found = None;
    for loan in ending.story.loans.iter() {
        if loan.d == d && loan.given.is_none() {
            found = Some(*loan);
        }
    }
    found
}

fn free(case: Case<'_, '_>, d: u8) -> Result<Cause, AllocError> {
    let mut cause = Cause::new(case.alloc, "free")?;
    let p = case.slot.p;
    cause.number("device", d.into())?;
    write!(
        cause.sentence,
        "device {d} of the pool is free again, but slot {p} has had no turn since"
    )?;
    Ok(cause)
}

fn lent(case: Case<'_, '_>, loan: Loan) -> Result<Cause, AllocError> {
    let mut cause = Cause::new(case.alloc, "loan")?;
    let Loan { p, d, taken, .. } = loan;
    cause.number("device", d.into())?;
    cause.number("slot", p.into())?;
    cause.number("call", taken.into())?;
    if p == case.slot.p {
        cause.say("it")?;
    } else {
        write!(cause.sentence, "slot {p}")?;
    }
    write!(
        cause.sentence,
        " took device {d} of the pool at call {taken}, "
    )?;
    say_kept(case, &mut cause, p)?;
    Ok(cause)
}

/// Why the program of a slot doesn't give back what it has.
fn why_kept(case: Case<'_, '_>, holder: u8) -> Kept {
    let slot = usize::from(holder);
    if holder == case.slot.p {
        return Kept::Itself;
    }
    if slot >= 4 || !all_stuck(case.ending)[slot] {
        return Kept::GoingOn;
    }
    match case.ending.wanted(holder) {
        Some(_) => Kept::Pool,
        None => Kept::Transfer,
    }
}

fn say_kept(case: Case<'_, '_>, cause: &mut Cause, holder: u8) -> Result<(), AllocError> {
    match why_kept(case, holder) {
        Kept::Itself => {
            cause.text("kept", "itself")?;
            cause.say("and wants one more")
        }
        Kept::GoingOn => {
            cause.text("kept", "going on")?;
            cause.say("and has neither given it back nor ended")
        }
        Kept::Transfer => {
            cause.text("kept", "transfer")?;
            say_held(case, cause, holder, "the schedule doesn't end its transfer")
        }
        Kept::Pool => {
            cause.text("kept", "pool")?;
            say_held(case, cause, holder, "nobody will give anything back")
        }
    }
}

/// Adds by what a holder is held up itself.
fn say_held(
    case: Case<'_, '_>,
    cause: &mut Cause,
    holder: u8,
    why: &str,
) -> Result<(), AllocError> {
    cause.say("and is itself held up by ")?;
    if let Some(hold) = hold_of(case.ending, holder) {
        write_held_by(&mut cause.sentence, hold.cause)?;
    }
    write!(cause.sentence, ": {why}")
}

/// The circle of those who wait for devices that the others have.
fn deadlock(case: Case<'_, '_>) -> Result<Cause, AllocError> {
    let mut cause = Cause::new(case.alloc, "deadlock")?;
    cause.members.push_str(",\"circle\":[")?;
    cause.say("deadlock: ")?;
    let mut written = 0;
    for p in 0..4 {
        if let Some(kind) = wanted_in_circle(case.ending, p) {
            write_waiter(&mut cause, case.ending, p, kind, written)?;
            written = 1;
        }
    }
    cause.members.push_str("]")?;
    Ok(cause)
}

/// The kind of device that a program waits for, if it waits in a circle.
fn wanted_in_circle(ending: Ending<'_>, p: u8) -> Option<Kind> {
    let kind = ending.wanted(p)?;
    if ending.is_stuck(kind) {
        Some(kind)
    } else {
        None
    }
}

/// Adds a program of the circle, after others.
fn write_waiter(
    cause: &mut Cause,
    ending: Ending<'_>,
    p: u8,
    kind: Kind,
    written: usize,
) -> Result<(), AllocError> {
    let name = kind.name();
    write_comma(&mut cause.members, written)?;
    write!(
        cause.members,
        "{{\"slot\":{p},\"pool\":\"{name}\",\"holders\":["
    )?;
    ending.write_holders(&mut cause.members, kind)?;
    cause.members.push_str("]}")?;
    cause.say(if written == 0 { "" } else { "; " })?;
    let a_device = a_device(kind);
    write!(cause.sentence, "slot {p} waits for {a_device}, which ")?;
    write_holders_in_words(&mut cause.sentence, ending, kind)
}

/// Writes who has the devices of a kind.
fn write_holders_in_words(
    out: &mut String,
    ending: Ending<'_>,
    kind: Kind,
) -> Result<(), AllocError> {
    let holders = holders_of(ending, kind);
    let mut many = 0;
    for is_holder in holders {
        if is_holder {
            many = usize::saturating_add(many, 1);
        }
    }
    let mut i = 0;
    for (p, is_holder) in holders.iter().enumerate() {
        if *is_holder {
            write_separator(out, i, many, " and ")?;
            write!(out, "slot {p}")?;
            i = usize::saturating_add(i, 1);
        }
    }
    out.push_str(if many == 1 { " has" } else { " have" })
}

/// Which programs have a device of a kind.
fn holders_of(ending: Ending<'_>, kind: Kind) -> [bool; 4] {
    let mut holders = [false; 4];
    for d in 0..16 {
        if let (true, Some(p)) = (ending.is_of(d, kind), ending.story.borrower(d)) {
            if p < 4 {
                holders[usize::from(p)] = true;
            }
        }
    }
    holders
}
