//! The outside of the machine: where a program's bytes come from, and where they go.
//!
//! A [`Source`] gives bytes and a [`Sink`] takes them, as many at a call as they please, and each may
//! fail. Contracts see the bytes left and written, where they are told, and a count of faults that
//! never falls, and a call fails only where the count rose. [`read_all`] reads to the end of the
//! input, and [`write_all`] writes to the end of a text. [`MemorySource`] and [`MemorySink`] stand on
//! memory, tell their bytes and fail as they are asked to; [`ReadFrom`] and [`WriteTo`] stand on the
//! readers and writers of the standard library.
#![tactic(auto)]

mod calls;
mod failed;
mod faults;
mod memory_sink;
mod memory_source;
mod read_end;
mod read_from;
mod reading;
mod sink;
mod source;
mod write_to;
mod writing;

pub use failed::Failed;
pub use memory_sink::MemorySink;
pub use memory_source::MemorySource;
pub use read_end::ReadEnd;
pub use read_from::ReadFrom;
pub use reading::read_all;
pub use sink::Sink;
pub use source::Source;
pub use write_to::WriteTo;
pub use writing::write_all;
