//! A job and its schedule.

/// The most characters of a block of magnetic tape that a job brings.
pub const TAPE_BLOCK: usize = 32_768;

/// The most lines of a schedule that tell an event.
pub const EVENTS: u32 = 500_000;
