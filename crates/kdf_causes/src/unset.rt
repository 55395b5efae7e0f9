//! The Q-stores that a deck uses and no statement of it sets.

use crate::case::Case;
use crate::cause::Cause;
use kdf_job::TEXT_LIMIT;
use kdf_json::Spot;
use kdf_syllable::{Amount, Order};
use kdf_usercode::{Deck, DeckError, What, read_deck};
use std::alloc::AllocError;
use std::fmt::Write;

/// Which Q-stores a deck sets, and by which of its statements it uses each first.
#[derive(Clone, Copy)]
struct Uses {
    set: [bool; 16],
    first: [Option<usize>; 16],
}

/// Adds the Q-stores that a deck uses and no statement sets.
pub fn push_unset(causes: &mut Vec<Cause>, case: Case<'_, '_>) -> Result<(), AllocError> {
    let text = case.layout.text;
    if text.len() > TEXT_LIMIT {
        return Ok(());
    }
    match read_deck(case.alloc, text) {
        Ok(deck) => push_all(causes, case, uses_of(&deck)),
        Err(DeckError::Memory) => Err(AllocError),
        Err(DeckError::Fault(_, _)) => Ok(()),
    }
}

fn push_all(causes: &mut Vec<Cause>, case: Case<'_, '_>, uses: Uses) -> Result<(), AllocError> {
    for q in 1..16u8 {
        if let (false, Some(i)) = (uses.set[usize::from(q)], uses.first[usize::from(q)]) {
            push_one(causes, case, q, i)?;
        }
    }
    Ok(())
}

/// Adds a Q-store that the statement of a number uses.
fn push_one(
    causes: &mut Vec<Cause>,
    case: Case<'_, '_>,
    q: u8,
    i: usize,
) -> Result<(), AllocError> {
    match case.layout.rows.get(i) {
        Some(row) => {
            causes.push(unset(case, q, row.spot)?)?;
            Ok(())
        }
        None => Ok(()),
    }
}

fn unset(case: Case<'_, '_>, q: u8, spot: Spot) -> Result<Cause, AllocError> {
    let mut cause = Cause::new(case.alloc, "unset")?;
    let Spot { line, column } = spot;
    cause.number("q", q.into())?;
    cause.number("line", line.into())?;
    cause.number("column", column.into())?;
    write!(
        cause.sentence,
        "no statement sets Q{q}, which is used at {line}:{column}: it is 0/0/0"
    )?;
    Ok(cause)
}

fn uses_of(deck: &Deck) -> Uses {
    let mut uses = Uses {
        set: [false; 16],
        first: [None; 16],
    };
    for (i, statement) in deck.statements.iter().enumerate() {
        uses = uses.with(i, statement.what);
    }
    uses
}

impl Uses {
    /// With a statement of this number.
    fn with(self, i: usize, what: What) -> Uses {
        match what {
            What::Plain { order } => self.with_order(i, order),
            What::Fetch { q, .. } | What::Keep { q, .. } | What::Short { q, .. } => self.using(
                i, q,
            ),
            What::Go { c, .. } if c < 32 => self.using(i, c % 16),
            _ => self,
        }
    }

    fn with_order(self, i: usize, order: Order) -> Uses {
        match order {
            Order::Single {
                code: 0x54..=0x5e,
                q,
            } => self.setting(q),
            Order::Copies { q, k, .. } => self.using(i, q).setting(k),
            Order::Indirect { k, q, .. } => self.using(i, k).using(i, q),
            Order::Single { q, .. } | Order::Device { q, .. } | Order::Query { q, .. } =>
                self.using(i, q),
            Order::Shift {
                by: Amount::Count { q },
                ..
            } => self.using(i, q),
            _ => self,
        }
    }

    /// With a Q-store that is set.
    fn setting(self, q: u8) -> Uses {
        let mut set = self.set;
        if q < 16 {
            set[usize::from(q)] = true;
        }
        Uses { set, ..self }
    }

    /// With a Q-store that the statement of a number uses.
    fn using(self, i: usize, q: u8) -> Uses {
        let mut first = self.first;
        if q < 16 && first[usize::from(q)].is_none() {
            first[usize::from(q)] = Some(i);
        }
        Uses { first, ..self }
    }
}
