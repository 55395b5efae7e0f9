//! The machine as a library: calls over slices of the caller's memory, for programs in other languages and for a web page.
#![tactic(auto)]

mod answer;
mod calls;
mod facts;
mod sink;
mod wide;
mod words;

pub use calls::{kdf9_facts, kdf9_run, kdf9_version};
pub use wide::{
    Wide, kdf9_product, kdf9_shift_left, kdf9_shift_right_arithmetic, kdf9_shift_right_logical,
};
