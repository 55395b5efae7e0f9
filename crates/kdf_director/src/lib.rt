//! Director: programs that share a store and devices, with transfers in flight, what is seen of each of them meanwhile,
//! their journals, and the laws of both.
#![tactic(auto)]

mod advance;
mod entries;
pub mod examples;
mod halt;
pub mod laws;
mod machine;
mod orders;
mod schedule;
pub mod worked;

pub use halt::Halt;
pub use machine::{EVENT_LIMIT, Machine, Progress};
pub use schedule::{follow, follow_on};
