//! Faults with places, for a reader that answers the first one.
//!
//! A reader lists what it finds, each fault at its place, in whatever order it comes to it. The first is the one of the
//! least place, and at one place the one of the least number. `Found` is generic over the reader's own faults, so that a
//! fault stays an enum with names from where it is found to where it is answered, and a reader needs no proof that
//! a number belongs to one of its faults; all that is wanted of them is `Numbered`.
#![tactic(auto)]

mod found;
pub mod laws;
mod numbered;

pub use found::{Found, earlier, is_before};
pub use numbered::Numbered;
