//! Characters: the 64 codes of the machine, and the host's byte for each.
#![tactic(auto)]

mod code;
pub mod laws;

pub use code::{to_code, to_host};
