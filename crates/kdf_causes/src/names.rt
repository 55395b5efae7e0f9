//! What stands where a program met no order, by the names of its deck.

use crate::case::Case;
use crate::cause::Cause;
use kdf_json::without_comments;
use kdf_listing::{GROUPS, Row, StatementKind, count_in, end_of};
use std::alloc::{AllocError, Global};
use std::fmt::Write;

/// How many syllables a word has.
const WORD: u64 = 6;

/// What a deck has in a word.
#[derive(Clone, Copy)]
enum Met {
    /// The constant of this statement.
    Constant(Row),
    /// V-store n of part p.
    V { n: u64, p: u16 },
    /// Y-store n of a group.
    Y { n: u64, group: u8 },
    /// Nothing of its own.
    Nothing,
}

/// What a program met instead of an order.
pub fn no_order(case: Case<'_, '_>) -> Result<Cause, AllocError> {
    let at = u64::from(case.registers.at);
    let word = at / WORD;
    if word >= u64::from(case.slot.size) {
        return outside(case, word);
    }
    match ran_past(&case.layout.rows, at) {
        Some(row) => past(case, word, row),
        None => elsewhere(case, word),
    }
}

fn outside(case: Case<'_, '_>, word: u64) -> Result<Cause, AllocError> {
    let mut cause = case.failure("outside", 1)?;
    cause.number("word", word)?;
    write!(cause.sentence, "word {word} isn't in the store; ")?;
    case.say_store(&mut cause)?;
    Ok(cause)
}

/// The last order before a syllable, if it goes on there, with what fills its word.
fn ran_past(rows: &[Row], at: u64) -> Option<Row> {
    let row = last_before(rows, at)?;
    let end = row.at.saturating_add(row.size);
    if end == at || end.div_ceil(WORD).saturating_mul(WORD) == at {
        Some(row)
    } else {
        None
    }
}

/// The last order before a syllable.
fn last_before(rows: &[Row], at: u64) -> Option<Row> {
    let mut last = None;
    for row in rows {
        if row.size > 0 && row.at < at {
            last = Some(*row);
        }
    }
    last
}

fn past(case: Case<'_, '_>, word: u64, row: Row) -> Result<Cause, AllocError> {
    let mut cause = case.failure("ran past", 1)?;
    let name = without_comments(case.alloc, case.layout.written(&row), " ")?;
    let name = name.as_str();
    cause.number("word", word)?;
    cause.text("name", name)?;
    write!(
        cause.sentence,
        "it ran past {name}, the last statement there; is a jump missing, or ZERO; OUT; at the end?"
    )?;
    Ok(cause)
}

/// A word of the store that has no order.
fn elsewhere(case: Case<'_, '_>, word: u64) -> Result<Cause, AllocError> {
    match met_at(&case.layout.rows, word) {
        Met::Constant(row) => constant(case, word, row),
        other => named(case, word, other),
    }
}

fn constant(case: Case<'_, '_>, word: u64, row: Row) -> Result<Cause, AllocError> {
    let mut cause = case.failure("constant", 1)?;
    let name = without_comments(case.alloc, case.layout.written(&row), " ")?;
    let name = name.as_str();
    cause.number("word", word)?;
    cause.text("name", name)?;
    write!(cause.sentence, "{name} is a constant, not an order")?;
    Ok(cause)
}

fn named(case: Case<'_, '_>, word: u64, met: Met) -> Result<Cause, AllocError> {
    let mut cause = case.failure("no order", 1)?;
    let name = name_of(case.alloc, word, met)?;
    let name = name.as_str();
    cause.number("word", word)?;
    cause.text("name", name)?;
    write!(cause.sentence, "word {word} is {name}, not an order")?;
    Ok(cause)
}

/// The name of a word.
fn name_of(alloc: Global, word: u64, met: Met) -> Result<String, AllocError> {
    let mut out = String::new(alloc);
    match met {
        Met::V { n, p: 0 } => write!(out, "V{n}")?,
        Met::V { n, p } => write!(out, "V{n}P{p}")?,
        Met::Y { n, group: 0 } => write!(out, "Y{n}")?,
        Met::Y { n, group } => write_group(&mut out, n, group)?,
        _ => write!(out, "E{word}")?,
    }
    Ok(out)
}

fn write_group(out: &mut String, n: u64, group: u8) -> Result<(), AllocError> {
    out.push('Y')?;
    out.push(char::from(b'@'.saturating_add(group)))?;
    write!(out, "{n}")
}

/// What a deck has in a word. A constant stands in a V-store.
fn met_at(rows: &[Row], word: u64) -> Met {
    let mut met = met_in_groups(rows, word);
    for row in rows {
        let first = row.at / WORD;
        match row.kind {
            StatementKind::Constant if first == word => return Met::Constant(*row),
            StatementKind::Opening { part, count }
                if first <= word && word.saturating_sub(first) < count => {
                met = Met::V {
                    n: word.saturating_sub(first),
                    p: part,
                };
            }
            _ => {}
        }
    }
    met
}

/// A Y-store: they stand after the last order, in the order of their letters.
fn met_in_groups(rows: &[Row], word: u64) -> Met {
    let mut first = end_of(rows);
    for group in 0..GROUPS {
        let count = count_in(rows, group);
        if first <= word && word.saturating_sub(first) < count {
            return Met::Y {
                n: word.saturating_sub(first),
                group,
            };
        }
        first = first.saturating_add(count);
    }
    Met::Nothing
}
