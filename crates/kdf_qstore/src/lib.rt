//! Q-stores: sixteen triples of a counter C, an increment I and a modifier M, each an unsigned number of 16 bits.
//! Q0 reads as zero, and a write to it is lost.
#![tactic(auto)]

pub mod laws;
mod part;
mod q_stores;
mod triple;

pub use part::Part;
pub use q_stores::QStores;
pub use triple::Triple;
