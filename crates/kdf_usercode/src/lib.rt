//! Reads a deck of Usercode: its statements with their places, or its first fault.
//!
//! A deck goes through these steps. Comments, spaces and line ends are taken out (`unread`), and what
//! stays is cut at each `;` into statements. A statement has a shape, in which each number is one `0`, and
//! its numbers (`shape`). The shape tells the form (`forms`, with `orders`, `stores`, `jumps` and
//! `constants`), the form tells the range of each number (`range`), and form and numbers tell what is said
//! (`statement`). Where a form may stand is said by `phase`.
//!
//! What is wrong is listed as faults with their places, in any order, and the answer is the first of them.
//! `read_deck` looks for a byte that no deck may have, and then goes over what stays once. It keeps the first
//! fault so far, and the statements while there is none. `read_thinned` does the same, but leaves out the `*`
//! that do nothing (`stars`).
#![tactic(auto)]

mod bytes;
mod characters;
mod constants;
pub mod examples;
mod fault;
mod forms;
mod jumps;
pub mod laws;
mod octal;
mod order_names;
mod orders;
mod parse;
mod phase;
mod range;
mod reader;
mod reading;
mod shape;
mod stars;
mod statement;
mod stores;
mod unread;

pub use fault::{DeckError, DeckFault};
pub use reader::{read_deck, read_thinned};
pub use statement::{Deck, Item, Named, Statement, Target, Value, What};
