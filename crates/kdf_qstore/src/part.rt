//! The parts of a Q-store.

/// A part of a Q-store.
#[derive(Clone, Copy, PartialEq, Eq)]
pub enum Part {
    /// The counter.
    C,
    /// The increment.
    I,
    /// The modifier.
    M,
}
