//! The orders of arithmetic.

/// An order of arithmetic.
#[derive(Clone, Copy, PartialEq, Eq)]
pub enum ArithOrder {
    /// One of a single syllable: a code from 02 to 12, from 14 to 1C, 1F or 20 hexadecimal.
    Plain { code: u8 },
    /// A shift, a code from 6A to 6E hexadecimal, by `n` places to the left, or by -`n` to the
    /// right.
    Shift { code: u8, n: i16 },
}
