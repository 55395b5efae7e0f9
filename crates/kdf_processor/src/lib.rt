//! One processor: obeying a program's next order over any port, by the order table.
//!
//! `obey` fetches, decodes and checks the order, answers `Held` where a need of it is pending, and
//! otherwise does its row of the table: new registers and at most one acting call on the port.
#![tactic(auto)]

mod access;
mod acting;
mod arithmetic;
mod buffer;
mod change;
mod claims;
mod conditions;
mod copies;
mod counting;
pub mod examples;
mod exit;
mod fetch;
mod jump;
pub mod laws;
mod moves;
mod numbers;
mod obeying;
mod outs;
mod plain;
mod plan;
mod planning;
mod port;
mod push;
mod q_store;
mod queries;
mod quick;
mod registers;
mod reserve;
mod room;
mod shift;
mod single;
mod spooled;
mod step;
mod syllable_number;
mod transfers;
mod waits;

pub use buffer::{Buffer, no_word};
pub use fetch::{Fetched, fetch_order};
pub use kdf_arith::Flags;
pub use kdf_journal::{Failure, Need};
pub use kdf_nest::{Links, Nest};
pub use kdf_qstore::QStores;
pub use kdf_transfer::{Test, Wanted};
pub use numbers::least;
pub use obeying::obey;
pub use planning::{asks_ahead, word_ahead};
pub use port::Port;
pub use registers::{Life, Registers};
pub use reserve::Reserve;
pub use room::{obey_at_once, obey_buffered, obey_in_general, obey_with_room};
pub use spooled::Spooled;
pub use step::Step;
