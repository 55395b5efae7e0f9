//! Why a program is live still: it is held up, it never had a turn, others had the turns, it is in a loop, or the calls ran out.

use crate::case::Case;
use crate::cause::Cause;
use crate::loops::push_loop;
use crate::pool::push_wait;
use crate::stuck::hold_of;
use crate::why::write_numbers;
use kdf_journal::Entry;
use kdf_json::{write_count, write_separator};
use kdf_trace::{Flight, HeldBy, Hold};
use std::alloc::AllocError;
use std::fmt::Write;

/// A group has so many words, and a word so many syllables.
const GROUP: u32 = 32;

const WORD: u64 = 6;

/// Why a live program isn't over.
pub fn push_live(causes: &mut Vec<Cause>, case: Case<'_, '_>) -> Result<(), AllocError> {
    if case.registers.ran == 0 {
        causes.push(no_turn(case)?)?;
        return Ok(());
    }
    match hold_of(case.ending, case.slot.p) {
        Some(hold) => push_hold(causes, case, hold),
        None => push_free(causes, case),
    }
}

/// A program that never had a turn.
fn no_turn(case: Case<'_, '_>) -> Result<Cause, AllocError> {
    let mut cause = Cause::new(case.alloc, "no turn")?;
    let p = case.slot.p;
    let others = others_that_ran(case)?;
    write_numbers(&mut cause.members, "slots", &others)?;
    write!(cause.sentence, "slot {p} never had a turn: ")?;
    if case.machine.journal().calls() == 0 {
        cause.say("the schedule has no ORDERS")?;
    } else {
        write_slots(&mut cause.sentence, &others)?;
        cause.say(" could run at every call")?;
    }
    Ok(cause)
}

/// The slots whose programs obeyed orders.
fn others_that_ran(case: Case<'_, '_>) -> Result<Vec<u8>, AllocError> {
    let mut others = Vec::new(case.alloc);
    for p in 0..4 {
        if ran(case, p) {
            others.push(p)?;
        }
    }
    Ok(others)
}

/// Whether the program of a slot obeyed an order.
fn ran(case: Case<'_, '_>, p: u8) -> bool {
    match case.machine.seen(p) {
        Some(registers) => registers.ran > 0,
        None => false,
    }
}

/// Writes slots as those of which one is meant.
fn write_slots(out: &mut String, slots: &[u8]) -> Result<(), AllocError> {
    out.push_str("slot ")?;
    for (i, p) in slots.iter().enumerate() {
        write_separator(out, i, slots.len(), " or ")?;
        write!(out, "{p}")?;
    }
    Ok(())
}

/// What a program waits for, and why that doesn't come.
fn push_hold(causes: &mut Vec<Cause>, case: Case<'_, '_>, hold: Hold) -> Result<(), AllocError> {
    match hold.cause {
        HeldBy::Pool(kind) => push_wait(causes, case, kind),
        HeldBy::Device(_) => push_flight(causes, case, hold.flight),
        HeldBy::Group(group) => {
            causes.push(locked(case, group)?)?;
            push_flight(causes, case, hold.flight)
        }
    }
}

/// A group that is locked out.
fn locked(case: Case<'_, '_>, group: u16) -> Result<Cause, AllocError> {
    let mut cause = Cause::new(case.alloc, "group")?;
    let first = u32::from(group) * GROUP;
    let last = first + (GROUP - 1);
    let is_own = is_own(case, group);
    cause.number("group", group.into())?;
    cause.number("first", first.into())?;
    cause.number("last", last.into())?;
    cause.truth("own", is_own)?;
    write!(
        cause.sentence,
        "it needs group {group}: words {first} to {last}"
    )?;
    cause.say(if is_own { " hold this order, and" } else { "" })?;
    cause.say(" are locked out by a transfer")?;
    Ok(cause)
}

/// Whether the next order of a program stands in a group.
fn is_own(case: Case<'_, '_>, group: u16) -> bool {
    let at = u64::from(case.registers.at);
    let size = match case.layout.order_at(case.registers.at) {
        Some(row) => row.size.max(1),
        None => 1,
    };
    let last = at.saturating_add(size).saturating_sub(1);
    let group = u64::from(group);
    group == at / WORD / 32 || group == last / WORD / 32
}

/// Adds a transfer by its number.
fn push_flight(
    causes: &mut Vec<Cause>,
    case: Case<'_, '_>,
    number: Option<u32>,
) -> Result<(), AllocError> {
    let Some(i) = number else {
        return Ok(());
    };
    match case.ending.story.flights.get(i as usize) {
        Some(flight) => {
            causes.push(endless(case, i, flight)?)?;
            Ok(())
        }
        None => Ok(()),
    }
}

/// A transfer without an end.
fn endless(case: Case<'_, '_>, number: u32, flight: &Flight) -> Result<Cause, AllocError> {
    let mut cause = Cause::new(case.alloc, "transfer")?;
    let Flight { d, began, .. } = *flight;
    cause.number("transfer", number.into())?;
    cause.number("device", d.into())?;
    cause.number("call", began.into())?;
    write!(
        cause.sentence,
        "the transfer of device {d} began at call {began}, and the schedule has no END {d} after it"
    )?;
    Ok(cause)
}

/// Why a program isn't over that nothing holds up.
fn push_free(causes: &mut Vec<Cause>, case: Case<'_, '_>) -> Result<(), AllocError> {
    let before = causes.len();
    push_loop(causes, case)?;
    push_turns(causes, case)?;
    push_flights(causes, case)?;
    if causes.len() == before {
        causes.push(calls_ran_out(case)?)?;
    }
    Ok(())
}

/// Adds the transfers of a program that go on.
fn push_flights(causes: &mut Vec<Cause>, case: Case<'_, '_>) -> Result<(), AllocError> {
    for number in case.ending.story.open {
        if is_flight_of(case, number) {
            push_flight(causes, case, number)?;
        }
    }
    Ok(())
}

/// Whether a transfer is one of a program's own.
fn is_flight_of(case: Case<'_, '_>, number: Option<u32>) -> bool {
    let Some(i) = number else {
        return false;
    };
    match case.ending.story.flights.get(i as usize) {
        Some(flight) => flight.p == case.slot.p,
        None => false,
    }
}

/// A program that would go on with the next call.
fn calls_ran_out(case: Case<'_, '_>) -> Result<Cause, AllocError> {
    let mut cause = Cause::new(case.alloc, "calls")?;
    let calls = u64::from(case.machine.journal().calls());
    cause.number("calls", calls)?;
    cause.say("nothing holds it up: the schedule has no calls after ")?;
    write_count(&mut cause.sentence, calls, "call")?;
    Ok(cause)
}

/// The calls since the last turn of a program, and whose programs ran in them.
#[derive(Clone, Copy)]
struct Since {
    calls: u64,
    ran: [bool; 4],
}

/// Adds who had the turns after the last of a program, if others had.
fn push_turns(causes: &mut Vec<Cause>, case: Case<'_, '_>) -> Result<(), AllocError> {
    let since = since_turn(case);
    let mut slots = Vec::new(case.alloc);
    for p in 0..4u8 {
        if since.ran[usize::from(p)] {
            slots.push(p)?;
        }
    }
    if slots.is_empty() {
        return Ok(());
    }
    causes.push(no_turn_since(case, since.calls, &slots)?)?;
    Ok(())
}

fn no_turn_since(case: Case<'_, '_>, calls: u64, slots: &[u8]) -> Result<Cause, AllocError> {
    let mut cause = Cause::new(case.alloc, "turns")?;
    cause.number("calls", calls)?;
    write_numbers(&mut cause.members, "slots", slots)?;
    cause.say("it had no turn in the last ")?;
    write_count(&mut cause.sentence, calls, "call")?;
    cause.say(", in which ")?;
    for (i, p) in slots.iter().enumerate() {
        write_separator(&mut cause.sentence, i, slots.len(), " and ")?;
        write!(cause.sentence, "slot {p}")?;
    }
    cause.say(" ran")?;
    Ok(cause)
}

/// The calls since the last turn of a program.
fn since_turn(case: Case<'_, '_>) -> Since {
    let mut since = Since {
        calls: 0,
        ran: [false; 4],
    };
    for entry in case.machine.journal().entries() {
        since = since.after(*entry, case.slot.p);
    }
    since
}

impl Since {
    /// After an entry.
    fn after(self, entry: Entry, own: u8) -> Since {
        match entry {
            Entry::Ran { p, .. }
            | Entry::Lov { p, .. }
            | Entry::Busy { p, .. }
            | Entry::Wait { p, .. }
                if p == own => {
                Since {
                    calls: 0,
                    ran: [false; 4],
                }
            }
            Entry::Ran { p, n } => self.with(p, n),
            Entry::Idle { n } => self.with(4, n),
            Entry::Lov { .. } | Entry::Busy { .. } | Entry::Wait { .. } => self.with(4, 1),
            _ => self,
        }
    }

    /// With so many calls more, in which the program of a slot ran, if there is such a slot.
    fn with(self, p: u8, n: u32) -> Since {
        let mut ran = self.ran;
        if p < 4 {
            ran[usize::from(p)] = true;
        }
        Since {
            calls: self.calls.saturating_add(n.into()),
            ran,
        }
    }
}
