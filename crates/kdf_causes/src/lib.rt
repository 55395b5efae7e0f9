//! Why a program failed or is live still.
#![tactic(auto)]

mod broken_claim;
mod broken_nest;
mod broken_out;
mod broken_store;
mod case;
mod cause;
mod endings;
mod kinds;
mod live;
mod loops;
mod names;
mod pool;
mod stuck;
mod unset;
mod why;

pub use case::Case;
pub use endings::Ending;
pub use why::write_why;
