//! Tests of the other crates. There is nothing else here: a crate with tests is proved once more with them, and this one has no other
//! text. What the program shows when it is run stands in `tests/cases` and `examples`, and what the definitions come to by computation
//! in the files `examples.rt` of the crates; here is what only memory, a failing source or sink, or a call that the program doesn't
//! make can show.
#![tactic(auto)]

#[cfg(test)]
mod alone;
#[cfg(test)]
mod director;
#[cfg(test)]
mod fault;
#[cfg(test)]
mod io;
#[cfg(test)]
mod jobs;
#[cfg(test)]
mod made;
#[cfg(test)]
mod media;
#[cfg(test)]
mod pool;
#[cfg(test)]
mod processor;
#[cfg(test)]
mod qstore;
#[cfg(test)]
mod relocate;
#[cfg(test)]
mod top;
#[cfg(test)]
mod unserved;
#[cfg(test)]
mod watch;
