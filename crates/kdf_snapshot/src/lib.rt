//! A run that is saved and resumed.
#![tactic(auto)]

mod cursor;
mod differs;
mod fault;
pub mod laws;
mod parts;
mod rebuilt;
mod stores;

pub use differs::first_difference;
pub use fault::{SnapshotFault, SplitError};
pub use parts::{Parts, split};
pub use rebuilt::{RebuildError, rebuild, rebuild_with};
pub use stores::dump;
