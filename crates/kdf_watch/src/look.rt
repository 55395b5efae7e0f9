//! What a watch looks at.

/// A moment at which a program has just obeyed an order.
#[derive(Clone, Copy, Debug, PartialEq, Eq)]
pub struct Look {
    /// The program, below 4.
    pub p: u8,
    /// How many orders it has obeyed, at most 20,000,000.
    pub ran: u32,
    /// The number of its next order's first syllable, below 49,152.
    pub at: u16,
    /// The time that was set last, of 47 bits.
    pub clock: u64,
}
