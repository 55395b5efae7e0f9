//! What can be wrong with a snapshot.
ghost use Rattle.std.specs.Prelude.{◌≡◌};
ghost use Rattle.kdf_snapshot.specs.Faults.{snapshot_fault_name};
ghost use Rattle.kdf_snapshot.specs.declared.fault.SplitError.TheVariants.{Memory};

use kdf_fault::Numbered;
use std::alloc::{AllocError, AllocFailed};

/// What is wrong with a snapshot. Of several faults, the one that is answered stands first here.
#[derive(Clone, Copy, Debug, PartialEq, Eq)]
pub enum SnapshotFault {
    /// The line after the job isn't `JOURNAL`.
    NoJournal,
    /// A line after `JOURNAL` and before `SEAL` isn't a printed entry. The end counts as such a line.
    BadEntry,
    /// No line after `SEAL` is `ENDSNAPSHOT`. The line is one after the last.
    NoEnd,
    /// The entries aren't the journal of the job. The line is that of the first that differs, where `SEAL` counts as their end.
    JournalDiffers,
    /// What is sealed isn't what the journal of the job tells. The line is the first that differs.
    SealDiffers,
}

impl SnapshotFault {
    /// The name of the fault, as it is printed.
    pub fn name(&self) -> &'static str
        ensures { result.now ≡ snapshot_fault_name self.now }
    {
        match self {
            SnapshotFault::NoJournal => "NoJournal",
            SnapshotFault::BadEntry => "BadEntry",
            SnapshotFault::NoEnd => "NoEnd",
            SnapshotFault::JournalDiffers => "JournalDiffers",
            SnapshotFault::SealDiffers => "SealDiffers",
        }
    }
}

impl Numbered for SnapshotFault {
    ghost use Rattle.kdf_snapshot.specs.Faults.{number_of};
    ghost use Rattle.kdf_snapshot.specs.Apart.{apart};

    ghost number = { number_of };

    fn number(self) -> u8 {
        match self {
            SnapshotFault::NoJournal => 1,
            SnapshotFault::BadEntry => 2,
            SnapshotFault::NoEnd => 3,
            SnapshotFault::JournalDiffers => 4,
            SnapshotFault::SealDiffers => 5,
        }
    }

    ghost apart = { apart };
}

/// Why a snapshot has no parts.
#[derive(Drop)]
pub enum SplitError {
    /// The first fault, and the number of its line.
    Fault(SnapshotFault, u32),
    /// There was no memory for the entries.
    Memory,
}

impl From<AllocError> for SplitError {
    ghost from_gives = { λ _ e. e ≡ Memory };

    fn from(_error: AllocError) -> SplitError {
        SplitError::Memory
    }
}

impl<T: Drop> From<AllocFailed<T>> for SplitError {
    ghost from_gives = { λ _ e. e ≡ Memory };

    fn from(_error: AllocFailed<T>) -> SplitError {
        SplitError::Memory
    }
}
