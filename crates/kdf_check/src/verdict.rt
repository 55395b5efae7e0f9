//! What a printed journal is worth.

/// Whether the lines of a printed journal are the journal of a job.
#[derive(Clone, Copy, Debug, PartialEq, Eq)]
pub enum Verdict {
    /// They are.
    Yes,
    /// No journal of the job begins as this many of its first lines, at least 1, tell, and one as fewer; or it is one more than the
    /// number of lines, where only some are missing. It is 0 where the text is no report.
    No(u32),
}
