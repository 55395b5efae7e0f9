//! How a call of `run_with` ended.
ghost use Rattle.std.specs.Prelude.{◌≡◌};

use kdf_job::JobFault;
use kdf_snapshot::SnapshotFault;
use kdf_usercode::DeckFault;

/// What `run_with` answers.
#[derive(Clone, Copy, PartialEq, Eq)]
pub enum Status {
    /// The whole text of the command was written.
    Done,
    /// The words are no command.
    Usage,
    /// The job's first faulty line, counted from 1.
    Job {
        fault: JobFault,
        line: u32,
    },
    /// The first slot whose deck has a fault, the deck's first fault, and its place: an offset in the deck's text, from 0.
    Deck {
        slot: u8,
        fault: DeckFault,
        place: u32,
    },
    /// There are more bytes than the command may read.
    Large,
    /// Reading failed.
    ReadFault,
    /// Writing failed.
    WriteFault,
    /// There was no memory.
    Memory,
    /// The first fault of a snapshot, and its line, counted from 1.
    Snapshot {
        fault: SnapshotFault,
        line: u32,
    },
}

impl Status {
    ghost use Rattle.kdf_top.specs.Codes.{code_of};

    /// The number with which the program ends: 0 to 8, in the order of the variants.
    pub fn code(&self) -> u8
        ensures { result ≡ code_of self.now }
    {
        match self {
            Status::Done => 0,
            Status::Usage => 1,
            Status::Job { .. } => 2,
            Status::Deck { .. } => 3,
            Status::Large => 4,
            Status::ReadFault => 5,
            Status::WriteFault => 6,
            Status::Memory => 7,
            Status::Snapshot { .. } => 8,
        }
    }
}
