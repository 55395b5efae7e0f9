//! The two nests of a program: the nesting store, of words, and the subroutine jump nesting store, of links.
//! Each has sixteen places, and contracts see each as a list with the top first.
#![tactic(auto)]

mod links;
mod nest;

pub use links::Links;
pub use nest::Nest;

/// How many words, and how many links, a nest holds at most.
pub const DEPTH: usize = 16;
