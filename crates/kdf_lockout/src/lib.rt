//! The store: groups of 32 words, each of which is here, or out under the one lease that owns it. A word of a group that is out can be
//! reached through its lease alone.
#![tactic(auto)]

mod group;
mod lease;
mod store;

pub use group::Group;
pub use lease::Lease;
pub use store::{Locked, Store};
