//! What a journal tells of its run: the transfers, the holds, the questions and the loans, and the last orders of programs that are live at the end.
#![tactic(auto)]

mod flights;
mod holds;
mod pasts;
mod retrace;
mod story;
mod tail;

pub use flights::{Flight, write_flights};
pub use holds::{Ask, HeldBy, Hold, Loan, write_asks, write_holds, write_loans};
pub use pasts::{Past, keep_last, orders_of_live};
pub use retrace::{Before, Retrace};
pub use story::{Backdrop, Story, is_none_free, looks_for};
pub use tail::follow_noting;
