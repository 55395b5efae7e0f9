//! An entry of a journal with what is known of its moment.

use kdf_journal::Entry;

/// The groups of a program's store that the end of a transfer brought back.
#[derive(Clone, Copy)]
pub struct Unlocked {
    /// The program.
    pub p: u8,
    /// The first group and the last.
    pub first: u16,
    pub last: u16,
}

/// How many devices of the pool have no holder.
#[derive(Clone, Copy)]
pub struct Free {
    pub punches: u8,
    pub printers: u8,
}

/// An entry, the number of calls before it, what it unlocked, if it is the end of a transfer with an area, and what the pool has after it.
#[derive(Clone, Copy)]
pub struct Moment {
    pub call: u32,
    pub entry: Entry,
    pub unlocked: Option<Unlocked>,
    pub free: Free,
}
