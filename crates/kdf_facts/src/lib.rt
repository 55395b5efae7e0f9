//! What there is to know of a job and of its run, as JSON: a fault with its place, a deck with its statements, and a run with its journal, its
//! transfers and what became of each call.
#![tactic(auto)]

mod alone;
mod check;
mod devices;
mod fault;
mod nowhere;
mod printed;
mod programs;
mod registers;
mod resume;
mod run;
mod running;
mod sentences;
mod slots;
mod snapshot;
mod telling;
mod watch;

pub use telling::facts;
