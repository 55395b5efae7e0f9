//! What held programs up, what they asked, and what the pool lent them.

use crate::retrace::Before;
use kdf_journal::Kind;
use kdf_json::{write_after, write_comma, write_number};
use kdf_listing::{Deck, layout_of, write_order};
use std::alloc::AllocError;

/// What a program waits for.
#[derive(Clone, Copy)]
pub enum HeldBy {
    Group(u16),
    Device(u8),
    Pool(Kind),
}

/// A hold: the program before its own order `k`, the call that found it held, what it waits for, the number of the transfer that it waits for,
/// after how many calls that had come, and the call with which it went on.
#[derive(Clone, Copy)]
pub struct Hold {
    pub p: u8,
    pub k: u32,
    pub call: u32,
    pub cause: HeldBy,
    pub flight: Option<u32>,
    pub resumed: Option<u32>,
}

/// A question of a program, by its own order `k`, and its answer.
#[derive(Clone, Copy)]
pub struct Ask {
    pub p: u8,
    pub k: u32,
    pub call: u32,
    pub answer: u64,
    pub before: Option<Before>,
}

/// A device of the pool that a program took with a call, and after how many calls it had it no more.
#[derive(Clone, Copy)]
pub struct Loan {
    pub p: u8,
    pub d: u8,
    pub taken: u32,
    pub given: Option<u32>,
}

/// Writes each hold.
pub fn write_holds(out: &mut String, holds: &[Hold]) -> Result<(), AllocError> {
    for (i, hold) in holds.iter().enumerate() {
        write_comma(out, i)?;
        write_hold(out, hold)?;
    }
    Ok(())
}

fn write_hold(out: &mut String, hold: &Hold) -> Result<(), AllocError> {
    let Hold { p, k, call, .. } = *hold;
    write_event(out, p, k, call)?;
    out.push(',')?;
    write_cause(out, hold.cause)?;
    out.push_str(",\"transfer\":")?;
    write_number(out, hold.flight)?;
    out.push_str(",\"resumed\":")?;
    write_number(out, hold.resumed)?;
    out.push_str("}")
}

/// Writes what a program waits for.
pub fn write_cause(out: &mut String, cause: HeldBy) -> Result<(), AllocError> {
    match cause {
        HeldBy::Group(group) => { write_after(out, "\"by\":\"group\",\"group\":", group.into()) }
        HeldBy::Device(d) => write_after(out, "\"by\":\"device\",\"device\":", d.into()),
        HeldBy::Pool(kind) => {
            out.push_str("\"by\":\"pool\",\"pool\":\"")?;
            out.push_str(kind.name())?;
            out.push('"')
        }
    }
}

/// Writes each question, with the statement of its order and with what the nest had.
pub fn write_asks(out: &mut String, asks: &[Ask], decks: &[Deck<'_>]) -> Result<(), AllocError> {
    for (i, ask) in asks.iter().enumerate() {
        write_comma(out, i)?;
        write_ask(out, ask)?;
        let at = ask.before.map(|before| before.at);
        write_order(out, at, layout_of(decks, ask.p))?;
        write_operand(out, ask.before)?;
    }
    Ok(())
}

fn write_ask(out: &mut String, ask: &Ask) -> Result<(), AllocError> {
    let Ask {
        p,
        k,
        call,
        answer,
        ..
    } = *ask;
    write_event(out, p, k, call)?;
    write_after(out, ",\"answer\":", answer)
}

/// Writes whose order an item is of, which of the program's own it is, and how many calls were before it.
#[inline(always)]
fn write_event(out: &mut String, p: u8, k: u32, call: u32) -> Result<(), AllocError> {
    write_after(out, "{\"slot\":", p.into())?;
    write_after(out, ",\"order\":", k.into())?;
    write_after(out, ",\"call\":", call.into())
}

/// Writes the two top words of a nest, each without its sign, as the last member.
fn write_operand(out: &mut String, before: Option<Before>) -> Result<(), AllocError> {
    let (top, next) = match before {
        Some(before) => (before.top, before.next),
        None => (None, None),
    };
    match top {
        Some(word) => write_after(out, ",\"nest\":[", word.bits())?,
        None => out.push_str(",\"nest\":[")?,
    }
    if let Some(word) = next {
        write_after(out, ",", word.bits())?;
    }
    out.push_str("]}")
}

/// Writes each loan of the pool.
pub fn write_loans(out: &mut String, loans: &[Loan]) -> Result<(), AllocError> {
    for (i, loan) in loans.iter().enumerate() {
        write_comma(out, i)?;
        let Loan { p, d, taken, given } = *loan;
        write_after(out, "{\"device\":", d.into())?;
        write_after(out, ",\"slot\":", p.into())?;
        write_after(out, ",\"taken\":", taken.into())?;
        out.push_str(",\"given\":")?;
        write_number(out, given)?;
        out.push_str("}")?;
    }
    Ok(())
}
