//! The statements of a deck in the text and in the store.

use kdf_job::TEXT_LIMIT;
use kdf_json::{Spot, before, from, spot_after};
use kdf_syllable::{Order, size};
use kdf_usercode::{DeckError, Statement, What, read_deck};
use std::alloc::{AllocError, Global};

/// How many syllables the jump in word 0 has.
const SIZE_OF_JUMP: u64 = 3;

/// A statement: its offset in the deck, its line and column in the job, the number of the syllable at which it stands, how many syllables it has,
/// the Q-store of an order on a device, its kind, and how many syllables before it fill a word.
#[derive(Clone, Copy)]
pub struct Row {
    pub place: u32,
    pub spot: Spot,
    pub at: u64,
    pub size: u64,
    pub q: Option<u8>,
    pub kind: StatementKind,
    pub filled: u64,
}

/// The kind of a statement.
#[derive(Clone, Copy)]
pub enum StatementKind {
    /// It declares so many stores of a group, which is 0 for Y and 1 to 26 for YA to YZ.
    Declaration { group: u8, count: u64 },
    /// It opens a part, with so many V-stores. The main part is 0.
    Opening { part: u16, count: u64 },
    /// What stands in a V-store at the start.
    Constant,
    Reference,
    /// `*`: it fills a word.
    Star,
    Order,
    Finish,
}

/// How far the statements of a deck have come: the next syllable, and the first of the V-stores of the part.
#[derive(Clone, Copy)]
struct Reached {
    at: u64,
    stores: u64,
}

/// A deck that was read: its text, its statements, and those of them that are orders.
#[derive(Drop)]
pub struct Layout<'a> {
    pub text: &'a [u8],
    pub rows: Vec<Row>,
    orders: Vec<Row>,
}

/// The layout of a deck whose first line has this number in the job; of a deck with a fault it has no statement.
pub fn lay_out(alloc: Global, text: &[u8], line: u32) -> Result<Layout<'_>, AllocError> {
    let mut laid = Layout {
        text,
        rows: Vec::new(alloc),
        orders: Vec::new(alloc),
    };
    if text.len() <= TEXT_LIMIT {
        match read_deck(alloc, text) {
            Ok(deck) => laid.push_all(&deck.statements, line)?,
            Err(DeckError::Memory) => return Err(AllocError),
            Err(DeckError::Fault(_, _)) => {}
        }
    }
    Ok(laid)
}

/// A statement after what was reached. What fills a word stands at the next one, and a constant in its store.
fn row_at(reached: Reached, spot: Spot, statement: &Statement) -> Row {
    let at = match statement.what {
        What::Star | What::Program { .. } | What::Part { .. } | What::Finish => {
            reached.at.div_ceil(6).saturating_mul(6)
        }
        What::Constant { n, .. } => reached
            .stores
            .saturating_add(u64::from(n).saturating_mul(6)),
        _ => reached.at,
    };
    Row {
        place: statement.place,
        spot,
        at,
        size: size_of(&statement.what),
        q: device_store(&statement.what),
        kind: kind_of(&statement.what),
        filled: at.saturating_sub(reached.at),
    }
}

/// What is reached after a statement. The V-stores of a part come before its orders.
fn reached_after(reached: Reached, row: Row) -> Reached {
    match row.kind {
        StatementKind::Opening { count, .. } => Reached {
            at: row.at.saturating_add(count.saturating_mul(6)),
            stores: row.at,
        },
        StatementKind::Constant => reached,
        _ => Reached {
            at: row.at.saturating_add(row.size),
            ..reached
        },
    }
}

/// The kind of a statement that says this.
fn kind_of(what: &What) -> StatementKind {
    match *what {
        What::Declare { group, n } => StatementKind::Declaration {
            group,
            count: stores(Some(n)),
        },
        What::Program { v } => StatementKind::Opening {
            part: 0,
            count: stores(v),
        },
        What::Part { p, v } => StatementKind::Opening {
            part: p,
            count: stores(v),
        },
        What::Constant { .. } => StatementKind::Constant,
        What::Reference { .. } => StatementKind::Reference,
        What::Star => StatementKind::Star,
        What::Finish => StatementKind::Finish,
        _ => StatementKind::Order,
    }
}

/// How many syllables the order of a statement has. What is no order has none.
fn size_of(what: &What) -> u64 {
    match what {
        What::Plain { order } => u64::from(size(order)),
        What::Short { .. } => 2,
        What::Fetch { .. } | What::Keep { .. } | What::SetAddress { .. } | What::Go { .. } => 3,
        _ => 0,
    }
}

/// How many V-stores a part has whose last is this one.
fn stores(last: Option<u16>) -> u64 {
    match last {
        None => 0,
        Some(n) => u64::from(n) + 1,
    }
}

/// The Q-store that an order on a device names.
fn device_store(what: &What) -> Option<u8> {
    match *what {
        What::Plain {
            order: Order::Device { q, .. } | Order::Query { q, .. },
        } => Some(q),
        _ => None,
    }
}

impl Layout<'_> {
    /// Takes the statements in the order of the deck. Before the first there is the jump of word 0.
    fn push_all(&mut self, statements: &[Statement], line: u32) -> Result<(), AllocError> {
        let mut reached = Reached {
            at: SIZE_OF_JUMP,
            stores: 0,
        };
        let mut place = 0;
        let mut spot = Spot::of_line(line);
        for statement in statements {
            let further = statement.place.saturating_sub(place);
            spot = spot_after(before(from(self.text, place), further), spot);
            place = statement.place;
            let row = row_at(reached, spot, statement);
            self.push(row)?;
            reached = reached_after(reached, row);
        }
        Ok(())
    }

    fn push(&mut self, row: Row) -> Result<(), AllocError> {
        if row.size > 0 {
            self.orders.push(row)?;
        }
        self.rows.push(row)?;
        Ok(())
    }

    /// The order that stands at a syllable.
    pub fn order_at(&self, at: u16) -> Option<Row> {
        let at = u64::from(at);
        let row = self.first_from(at)?;
        if row.at == at { Some(row) } else { None }
    }

    /// The first order from a syllable on: each halving leaves half of those that may be it.
    fn first_from(&self, at: u64) -> Option<Row> {
        let mut low = 0;
        let mut high = self.orders.len();
        for _halving in 0..64 {
            if low >= high {
                break;
            }
            let middle = low + (high - low) / 2;
            if self.is_before(middle, at) {
                low = middle + 1;
            } else {
                high = middle;
            }
        }
        self.orders.get(low).copied()
    }

    /// Whether the order of this number stands before a syllable.
    fn is_before(&self, i: usize, at: u64) -> bool {
        match self.orders.get(i) {
            Some(row) => row.at < at,
            None => false,
        }
    }

    /// A statement as it stands in the deck, without the `;` that ends it. What follows `*` is another statement.
    pub fn written(&self, row: &Row) -> &[u8] {
        let rest = from(self.text, row.place);
        match row.kind {
            StatementKind::Star => before(rest, 1),
            _ => statement_of(rest),
        }
    }
}

/// What stands before the first `;` that isn't in a comment.
pub fn statement_of(text: &[u8]) -> &[u8] {
    let mut is_comment = false;
    for (i, byte) in text.iter().enumerate() {
        match *byte {
            b'(' => is_comment = true,
            b')' => is_comment = false,
            b';' if !is_comment => return &text[..i],
            _ => {}
        }
    }
    text
}
