//! Which order a program's syllables spell: the inverse of the spelling of every order.
//!
//! `decode` looks at the first syllable, which tells the class of the order. A caller that does so itself calls the
//! function of the class.
#![tactic(auto)]

mod decoding;
mod jumps;
pub mod laws;
mod one_syllable;
mod stores;
mod two_syllables;

pub use decoding::{BadCode, decode};
pub use jumps::decode_jump;
pub use one_syllable::decode_one;
pub use stores::decode_store;
pub use two_syllables::decode_two;
