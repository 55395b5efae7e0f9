//! Watches: a run stops where a rule about moments answers true, and can be continued as if it hadn't stopped.
//!
//! A watch is a closure over looks. What is known of it, `IsWatch`, is asked by each call that is lent a watch, because a type can't keep
//! it.
#![tactic(auto)]

mod call;
mod cursor;
mod event;
pub mod laws;
mod look;
mod orders;
mod stop;
mod stops;
mod watch;

use call::{Called, call};
pub use cursor::Cursor;
use event::pass;
pub use look::Look;
use orders::obey_orders;
use stop::go_to;
pub use stop::{Stop, go};
pub use stops::stops_at;
pub use watch::Watch;
