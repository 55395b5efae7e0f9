//! The account of a run: each entry of its journal with the calls before it and with what it set free, what became of each call for a program, and
//! both as JSON.
#![tactic(auto)]

mod account;
mod calls;
mod lane;
mod moment;
mod moments;
mod pool;
mod tallies;
mod tally;

pub use account::Account;
pub use calls::write_calls;
pub use moment::{Free, Moment, Unlocked};
pub use moments::write_moments;
pub use pool::{free_of, with_one};
pub use tallies::tally_of;
pub use tally::Tally;
