//! The loop that a live program is in: its last orders, and a place to which it came twice.

use crate::case::Case;
use crate::cause::Cause;
use kdf_json::{write_count, write_items};
use kdf_syllable::Order;
use kdf_trace::Past;
use std::alloc::AllocError;
use std::fmt::Write;

/// Adds the loop that a program is in, if it was at the same place shortly before.
pub fn push_loop(causes: &mut Vec<Cause>, case: Case<'_, '_>) -> Result<(), AllocError> {
    match last_here(case) {
        Some(past) => {
            causes.push(in_loop(case, past)?)?;
            Ok(())
        }
        None => Ok(()),
    }
}

/// When a program was last at the place where it is.
fn last_here(case: Case<'_, '_>) -> Option<Past> {
    let mut last = None;
    for past in case.ending.story.pasts.iter() {
        if past.p == case.slot.p && past.at == case.registers.at {
            last = Some(*past);
        }
    }
    last
}

fn in_loop(case: Case<'_, '_>, past: Past) -> Result<Cause, AllocError> {
    let mut cause = Cause::new(case.alloc, "loop")?;
    let period = u64::from(case.registers.ran.saturating_sub(past.k));
    cause.number("period", period)?;
    cause.say("it is in a loop: it was here ")?;
    write_count(&mut cause.sentence, period, "order")?;
    cause.say(" earlier")?;
    cause.members.push_str(",\"counters\":[")?;
    say_counters(case, &mut cause, past)?;
    cause.members.push_str("]")?;
    Ok(cause)
}

/// Adds the counters that the orders of a round name, now and a round before.
fn say_counters(case: Case<'_, '_>, cause: &mut Cause, past: Past) -> Result<(), AllocError> {
    let named = counters_named(case, past.k);
    let mut written = 0;
    for q in 0..16u8 {
        if named[usize::from(q)] {
            write_items(&mut cause.members, written)?;
            written = 1;
            say_counter(cause, q, case.triple(q).c, past.counters[usize::from(q)])?;
        }
    }
    Ok(())
}

fn say_counter(cause: &mut Cause, q: u8, now: u16, before: u16) -> Result<(), AllocError> {
    write!(cause.members, "[{q},{now},{before}]")?;
    write!(cause.sentence, "; C{q} = {now}, and was {before} then")
}

/// The counters that the orders of a program name from after its own order `k` on.
fn counters_named(case: Case<'_, '_>, k: u32) -> [bool; 16] {
    let mut named = [false; 16];
    for past in case.ending.story.pasts.iter() {
        if past.p == case.slot.p && past.k >= k {
            if let Some(q) = counter_at(case, past.at) {
                if q < 16 {
                    named[usize::from(q)] = true;
                }
            }
        }
    }
    named
}

/// The Q-store whose counter the order at a syllable names, if a statement wrote it.
fn counter_at(case: Case<'_, '_>, at: u16) -> Option<u8> {
    case.layout.order_at(at)?;
    match case.order_at(u32::from(at))? {
        Order::Jump { c, .. } if c < 32 => Some(c % 16),
        Order::Single {
            code: 0x55 | 0x60 | 0x6f,
            q,
        } => Some(q),
        _ => None,
    }
}
