//! What a program may find out about a device.

/// What a test of a device tells.
#[derive(Clone, Copy, PartialEq, Eq)]
pub enum Test {
    /// Its flag.
    Flag,
    /// Whether it stands at its start.
    Start,
    /// Its mark, the last-block mark of a tape.
    Mark,
}
