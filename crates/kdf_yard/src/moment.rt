//! The moment of an order.
use kdf_word::Word;

/// What an order may be told that no program has: the time, and what was heard of the installation's service. That is 0
/// where the order asks nothing.
#[derive(Drop)]
pub struct Moment {
    /// The time that was set last.
    pub time: u64,
    /// What the service answered to the word of which the order asks it.
    pub heard: Word,
}
