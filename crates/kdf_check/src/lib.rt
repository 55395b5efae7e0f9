//! A checker of printed journals. It makes the job's journal by another road than Director: each program has its words in a plain
//! list of its own, and each transfer is made at once; a table tells what of it is pending meanwhile. There is no window, no lease
//! and no ring.
#![tactic(auto)]

mod check_port;
mod checker;
mod entering;
pub mod laws;
mod load;
mod next;
mod pool;
mod program;
mod report;
mod schedule;
mod source;
mod table;
mod trying;
mod turns;
mod verdict;

pub use checker::{check, check_with};
pub use verdict::Verdict;
