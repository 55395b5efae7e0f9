//! Orders of the machine, how each is spelt in one to three syllables, and how six syllables are
//! packed into a word.
#![tactic(auto)]

mod amount;
pub mod laws;
mod order;
mod packing;
mod spelling;
mod syllables;

pub use amount::Amount;
pub use order::Order;
pub use packing::{pack, syllable};
pub use spelling::{encode, size, size_of_first};
pub use syllables::Syllables;
