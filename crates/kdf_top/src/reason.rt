//! Why a command makes nothing of its text.
ghost use Rattle.std.specs.Prelude.{◌≡◌};
ghost use Rattle.kdf_top.specs.Reasons.{of_decks, of_job, of_split};
ghost use Rattle.kdf_top.specs.declared.reason.MakeError.TheVariants.{Memory};

use crate::Status;
use crate::decks::DecksError;
use kdf_job::JobError;
use kdf_snapshot::SplitError;
use std::alloc::AllocError;

/// Why a command makes nothing of its text.
#[derive(Clone, Copy)]
pub enum MakeError {
    /// This is answered, and told in a line.
    Refused(Status),
    /// There was no memory.
    Memory,
}

impl From<AllocError> for MakeError {
    ghost from_gives = { λ _ e. e ≡ Memory };

    fn from(_error: AllocError) -> MakeError {
        MakeError::Memory
    }
}

impl From<JobError> for MakeError {
    ghost from_gives = { λ error e. e ≡ of_job error };

    fn from(error: JobError) -> MakeError {
        match error {
            JobError::Fault(fault, line) => MakeError::Refused(Status::Job { fault, line }),
            JobError::Memory => MakeError::Memory,
        }
    }
}

impl From<DecksError> for MakeError {
    ghost from_gives = { λ error e. e ≡ of_decks error };

    fn from(error: DecksError) -> MakeError {
        match error {
            DecksError::Fault(slot, fault, place) => {
                MakeError::Refused(Status::Deck { slot, fault, place })
            }
            DecksError::Memory => MakeError::Memory,
        }
    }
}

impl From<SplitError> for MakeError {
    ghost from_gives = { λ error e. e ≡ of_split error };

    fn from(error: SplitError) -> MakeError {
        match error {
            SplitError::Fault(fault, line) => MakeError::Refused(Status::Snapshot { fault, line }),
            SplitError::Memory => MakeError::Memory,
        }
    }
}
