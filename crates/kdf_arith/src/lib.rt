//! The orders of arithmetic: those that move and combine words of the nest, and the five shifts.
#![tactic(auto)]

mod bits;
mod digits;
mod division;
pub mod examples;
mod flags;
mod nouv;
mod obey;
mod operands;
mod order;
mod scales;
mod shifts;
mod values;
mod words;

pub use flags::Flags;
pub use nouv::Nouv;
pub use obey::{obey_arith, obey_plain, obey_shift};
pub use order::ArithOrder;
