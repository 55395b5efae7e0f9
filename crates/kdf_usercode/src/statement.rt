//! What a deck says.

use kdf_syllable::Order;
use kdf_word::Word;

/// A deck that was read.
#[derive(Drop)]
pub struct Deck {
    /// Its statements, in the order in which they stand.
    pub statements: Vec<Statement>,
    /// How many bytes the deck has.
    pub length: u32,
}

/// A statement and the offset in the deck, from 0, of its first byte.
#[derive(Clone, Copy)]
pub struct Statement {
    pub place: u32,
    pub what: What,
}

/// What a statement says.
#[derive(Clone, Copy)]
pub enum What {
    /// The stores 0 to n of a group, which is 0 for Y and 1 to 26 for YA to YZ. n is at most 32767.
    Declare { group: u8, n: u16 },
    /// `PROGRAM`, with the last V-store of the main part, at most 32767.
    Program { v: Option<u16> },
    /// The begin of part p, 1 to 999, with its last V-store, at most 32767.
    Part { p: u16, v: Option<u16> },
    /// What stands in V-store n of this part at the start.
    Constant { n: u16, value: Value },
    /// The reference r, 1 to 9999.
    Reference { r: u16 },
    /// `*`: the next order begins a word.
    Star,
    /// An order that names no store and no reference.
    Plain { order: Order },
    /// A store is fetched. q is below 16, and u is the suffix Q.
    Fetch { place: Named, q: u8, u: bool },
    /// A store is kept, likewise.
    Keep { place: Named, q: u8, u: bool },
    /// A jump with the code c, at most 31 hexadecimal.
    Go { c: u8, target: Target },
    /// The short loop to the reference r, 1 to 9999, which counts by the Q-store q.
    Short { r: u16, q: u8 },
    /// The address of a store, which isn't an E, is set.
    SetAddress { place: Named },
    /// The end of the deck.
    Finish,
}

/// A store by its name. n is at most 32767.
#[derive(Clone, Copy)]
pub enum Named {
    /// Of a group, which is 0 for Y and 1 to 26 for YA to YZ.
    Y { group: u8, n: u16 },
    /// Of part p, at most 999, or of this part. The main part is 0.
    V { n: u16, p: Option<u16> },
    /// The address n.
    E { n: u16 },
}

/// Where a jump goes: at least one of the reference r, 1 to 9999, and the part p, at most 999. Without p it is this
/// part, and without r the part's first order.
#[derive(Clone, Copy)]
pub struct Target {
    pub r: Option<u16>,
    pub p: Option<u16>,
}

/// The value of a constant.
#[derive(Clone, Copy)]
pub enum Value {
    Number { word: Word },
    /// The three parts of a Q-store.
    Triple { c: Item, i: Item, m: Item },
}

/// A part of a constant for a Q-store.
#[derive(Clone, Copy)]
pub enum Item {
    Bits { bits: u16 },
    /// The address of a store, which isn't an E.
    Address { place: Named },
}
