/// The answer of a source or a sink that failed; its count of faults says so too.
#[derive(Clone, Copy, PartialEq, Eq)]
pub struct Failed;
