//! The places of sixteen devices over the store: where each device is, the transfers that begin, move words and end there, and the leases of their groups. What a program is isn't known here. A place shows itself as a
//! record, and what each call leaves of the places and of the store is that of `specs/Transfers`.
#![tactic(auto)]

mod place;
mod places;
mod starting;
mod text;

pub use place::Place;
pub use places::{make_ready_at, take_back_at, test_in, transfer_in, word_at};
pub use starting::{Start, cancel_all, end_at, move_at, start_at};
pub use text::text_of;
