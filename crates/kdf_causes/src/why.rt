//! Why a program failed, or why it is live still.

use crate::broken_claim::broken_claim;
use crate::broken_nest::{broken_link, broken_nest};
use crate::broken_out::broken_out;
use crate::broken_store::broken_store;
use crate::case::Case;
use crate::cause::{Cause, write_cause};
use crate::live::push_live;
use crate::stuck::{hold_of, is_stuck};
use crate::unset::push_unset;
use kdf_json::{write_count, write_items};
use kdf_processor::{Failure, Life};
use kdf_text::write_octal;
use kdf_trace::{Ask, HeldBy};
use kdf_word::Word;
use std::alloc::AllocError;
use std::fmt::Write;

/// The number of the OUT that asks the installation's service.
const SERVICE: u64 = 64;

/// There are so many words.
const WORDS: u64 = 281_474_976_710_656;

/// Writes why a program isn't over, or `null` where it ended.
pub fn write_why(out: &mut String, case: Case<'_, '_>) -> Result<(), AllocError> {
    match case.registers.state {
        Life::Ended => out.push_str(",\"why\":null"),
        Life::Failed(_) | Life::Live => write_causes(out, case),
    }
}

fn write_causes(out: &mut String, case: Case<'_, '_>) -> Result<(), AllocError> {
    let mut causes = Vec::new(case.alloc);
    push_causes(&mut causes, case)?;
    out.push_str(",\"why\":[")?;
    for (i, cause) in causes.iter().enumerate() {
        write_cause(out, i, cause)?;
    }
    out.push_str("]")
}

fn push_causes(causes: &mut Vec<Cause>, case: Case<'_, '_>) -> Result<(), AllocError> {
    match case.registers.state {
        Life::Failed(kind) => push_failed(causes, case, kind),
        Life::Live => push_waiting(causes, case),
        Life::Ended => Ok(()),
    }
}

/// Why a program failed, and how it was.
fn push_failed(
    causes: &mut Vec<Cause>,
    case: Case<'_, '_>,
    kind: Failure,
) -> Result<(), AllocError> {
    causes.push(broken(case, kind)?)?;
    push_unset(causes, case)?;
    causes.push(failed(case)?)?;
    push_answer(causes, case)
}

/// The rule that an order broke.
fn broken(case: Case<'_, '_>, kind: Failure) -> Result<Cause, AllocError> {
    match kind {
        Failure::Liv => broken_store(case),
        Failure::Nouv => broken_nest(case),
        Failure::Out => broken_out(case),
        Failure::Reset => broken_link(case),
        Failure::Claim => broken_claim(case),
    }
}

/// How a program was when it failed.
fn failed(case: Case<'_, '_>) -> Result<Cause, AllocError> {
    let mut cause = Cause::new(case.alloc, "state")?;
    let p = case.slot.p;
    let orders = case.registers.ran;
    cause.number("order", orders.into())?;
    write!(
        cause.sentence,
        "slot {p} failed at its order {orders}; nest, top first: "
    )?;
    write_nest(&mut cause.sentence, case)?;
    Ok(cause)
}

fn write_nest(out: &mut String, case: Case<'_, '_>) -> Result<(), AllocError> {
    if case.depth() == 0 {
        return out.push_str("empty");
    }
    for i in 0..case.depth() {
        out.push_str(if i == 0 { "" } else { " " })?;
        write_nested(out, case.nested(i))?;
    }
    Ok(())
}

fn write_nested(out: &mut String, word: Option<Word>) -> Result<(), AllocError> {
    match word {
        Some(word) => write_octal(out, word.bits()),
        None => Ok(()),
    }
}

/// How a live program is, and why it isn't over.
fn push_waiting(causes: &mut Vec<Cause>, case: Case<'_, '_>) -> Result<(), AllocError> {
    causes.push(live(case)?)?;
    push_answer(causes, case)?;
    push_live(causes, case)?;
    push_unset(causes, case)
}

/// How a live program is.
fn live(case: Case<'_, '_>) -> Result<Cause, AllocError> {
    let mut cause = Cause::new(case.alloc, "state")?;
    let p = case.slot.p;
    let orders = u64::from(case.registers.ran);
    cause.number("order", orders)?;
    cause.truth("stuck", is_stuck(case))?;
    write!(
        cause.sentence,
        "slot {p} was live when the schedule ended, after "
    )?;
    write_count(&mut cause.sentence, orders, "order")?;
    say_hold(case, &mut cause)?;
    cause.say("; this is its next order")?;
    Ok(cause)
}

/// Adds what holds a program up.
fn say_hold(case: Case<'_, '_>, cause: &mut Cause) -> Result<(), AllocError> {
    match hold_of(case.ending, case.slot.p) {
        Some(hold) => {
            cause.say(" and held up by ")?;
            write_held_by(&mut cause.sentence, hold.cause)
        }
        None => Ok(()),
    }
}

/// Writes what holds a program up, in words.
pub fn write_held_by(out: &mut String, by: HeldBy) -> Result<(), AllocError> {
    match by {
        HeldBy::Group(group) => write!(out, "group {group}"),
        HeldBy::Device(d) => write!(out, "device {d}"),
        HeldBy::Pool(kind) => {
            let name = kind.name();
            write!(out, "the pool, which had no free {name}")
        }
    }
}

/// What a program asked the installation's service last, and what that answered.
fn push_answer(causes: &mut Vec<Cause>, case: Case<'_, '_>) -> Result<(), AllocError> {
    if !case.slot.served {
        return Ok(());
    }
    match last_asked(case.ending.story.asks.as_slice(), case.slot.p) {
        Some(ask) => {
            causes.push(answer(case, ask)?)?;
            Ok(())
        }
        None => Ok(()),
    }
}

/// The last question of a program to the service.
fn last_asked(asks: &[Ask], p: u8) -> Option<Ask> {
    let mut last = None;
    for ask in asks {
        if ask.p == p && word_asked(ask).is_some() {
            last = Some(*ask);
        }
    }
    last
}

/// The word that a question asks the service to answer.
fn word_asked(ask: &Ask) -> Option<Word> {
    let before = ask.before?;
    if before.top?.bits() == SERVICE {
        before.next
    } else {
        None
    }
}

fn answer(case: Case<'_, '_>, ask: Ask) -> Result<Cause, AllocError> {
    let mut cause = Cause::new(case.alloc, "answer")?;
    let Ask { p, k, answer, .. } = ask;
    let word = word_asked(&ask);
    cause.number("order", k.into())?;
    cause.number("answer", answer)?;
    if let Some(word) = word {
        cause.number("operand", word.bits())?;
    }
    write!(
        cause.sentence,
        "ANSWER {p} {answer}: its order {k} asked the installation's service, which answered "
    )?;
    write_octal(&mut cause.sentence, answer % WORDS)?;
    cause.say(" to the word ")?;
    write_nested(&mut cause.sentence, word)?;
    Ok(cause)
}

/// Writes the numbers of a list.
pub fn write_numbers(out: &mut String, name: &str, numbers: &[u8]) -> Result<(), AllocError> {
    write!(out, ",\"{name}\":[")?;
    for (i, number) in numbers.iter().enumerate() {
        write_items(out, i)?;
        write!(out, "{number}")?;
    }
    out.push_str("]")
}
