//! Relocation: each slot has a window of the store, and a program's addresses count from its begin. The limit of a window is tested
//! before its base is added.
#![tactic(auto)]

mod window;

pub use window::{Outside, Window, windows};
