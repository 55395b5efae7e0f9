//! What a program waits for.
use crate::Kind;

/// What an order may have to wait for, and what holds a program up.
#[derive(Clone, Copy, PartialEq, Eq)]
pub enum Need {
    /// A group of 32 words of the program's store, by its number.
    Group(u16),
    /// A device, by its number.
    Device(u8),
    /// A device of this kind in the pool that no program has.
    Pool(Kind),
}
