//! The failure of an order of arithmetic.

/// The nest has fewer words than the order needs, or would have more than sixteen after it.
#[derive(Clone, Copy, PartialEq, Eq)]
pub struct Nouv;
