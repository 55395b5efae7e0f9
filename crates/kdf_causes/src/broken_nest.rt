//! How many words or links there are: the failures NOUV and RESET.

use crate::case::Case;
use crate::cause::Cause;
use kdf_json::write_count;
use kdf_syllable::Order;
use std::alloc::AllocError;
use std::fmt::Write;

/// The links and the nest have room for so many.
const ROOM: usize = 16;

/// The codes of LINK, =LINK and OUT, and the condition of JS.
const LINK: u8 = 0x1d;

const KEEP_LINK: u8 = 0x1e;

const OUT: u8 = 0x21;

const CALLS: u8 = 0x21;

/// What an order finds too few or too many of.
#[derive(Clone, Copy)]
enum Short {
    LinksFull,
    NoLink,
    NestFull,
    NestShort,
}

/// Why an order failed as NOUV.
pub fn broken_nest(case: Case<'_, '_>) -> Result<Cause, AllocError> {
    match short_of(case) {
        Short::LinksFull => links_full(case),
        Short::NoLink => no_link(case),
        Short::NestFull => nest_full(case),
        Short::NestShort => nest_short(case),
    }
}

fn short_of(case: Case<'_, '_>) -> Short {
    let is_full = case.registers.links.depth() >= ROOM;
    match case.order_at(u32::from(case.registers.at)) {
        Some(Order::Jump { c: CALLS, .. }) => Short::LinksFull,
        Some(Order::Plain { code: KEEP_LINK }) if is_full => Short::LinksFull,
        Some(Order::Plain { code: LINK }) if case.depth() < ROOM => Short::NoLink,
        Some(Order::Exit { .. }) => Short::NoLink,
        _ if case.depth() > 14 => Short::NestFull,
        _ => Short::NestShort,
    }
}

fn links_full(case: Case<'_, '_>) -> Result<Cause, AllocError> {
    let mut cause = case.failure("links full", 2)?;
    cause.number("links", case.registers.links.depth() as u64)?;
    cause.say("there are already 16 links")?;
    Ok(cause)
}

fn no_link(case: Case<'_, '_>) -> Result<Cause, AllocError> {
    let mut cause = case.failure("no link", 2)?;
    cause.number("links", 0)?;
    cause.say("there is no link: was this part reached by J instead of JS?")?;
    Ok(cause)
}

fn nest_full(case: Case<'_, '_>) -> Result<Cause, AllocError> {
    let mut cause = case.failure("nest full", 2)?;
    say_depth(case, &mut cause)?;
    cause.say(", and at most 16 fit")?;
    Ok(cause)
}

/// Adds how many words the nest has.
fn say_depth(case: Case<'_, '_>, cause: &mut Cause) -> Result<(), AllocError> {
    let words = case.depth() as u64;
    cause.number("words", words)?;
    cause.say("the nest has ")?;
    write_count(&mut cause.sentence, words, "word")
}

fn nest_short(case: Case<'_, '_>) -> Result<Cause, AllocError> {
    let mut cause = case.failure("nest short", 2)?;
    say_depth(case, &mut cause)?;
    cause.say(", which is too few for ")?;
    let text = case.text()?;
    if text.is_empty() {
        cause.say("this order")?;
    } else {
        cause.text("name", text.as_str())?;
        cause.say(text.as_str())?;
    }
    say_call(case, &mut cause)?;
    Ok(cause)
}

/// Adds the number of an OUT.
fn say_call(case: Case<'_, '_>, cause: &mut Cause) -> Result<(), AllocError> {
    match (case.order(), case.nested(0)) {
        (Some(Order::Plain { code: OUT }), Some(word)) => {
            let number = word.signed();
            cause.signed("number", number)?;
            write!(cause.sentence, " {number}")
        }
        _ => Ok(()),
    }
}

/// Why an order failed as RESET: the link that isn't a place.
pub fn broken_link(case: Case<'_, '_>) -> Result<Cause, AllocError> {
    let mut cause = case.failure("link", 3)?;
    if case.registers.links.depth() > 0 {
        let link = case.registers.links.peek(0);
        say_link(&mut cause, link % 8192, link / 8192)?;
    }
    Ok(cause)
}

fn say_link(cause: &mut Cause, word: u16, syllable: u16) -> Result<(), AllocError> {
    cause.pair("link", word.into(), syllable.into())?;
    write!(
        cause.sentence,
        "the link is {word}/{syllable}, but a word has syllables 0 to 5"
    )
}
