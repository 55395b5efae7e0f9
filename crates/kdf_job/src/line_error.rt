//! Why a line isn't taken.
ghost use Rattle.std.specs.Prelude.{◌≡◌};
ghost use Rattle.kdf_job.specs.declared.line_error.LineError.TheVariants.{Memory};
ghost use Rattle.kdf_job.specs.Taking.{at_number};

use crate::{JobError, JobFault};
use std::alloc::{AllocError, AllocFailed};

/// Why a line isn't taken.
#[derive(Drop)]
pub enum LineError {
    /// What is wrong with it.
    Fault(JobFault),
    /// There was no memory for what it tells.
    Memory,
}

impl LineError {
    /// Why there is no job, where this is why the line of this number isn't taken.
    pub fn at(self, number: u32) -> JobError
        ensures { result ≡ at_number number self }
    {
        match self {
            LineError::Fault(fault) => JobError::Fault(fault, number),
            LineError::Memory => JobError::Memory,
        }
    }
}

impl From<AllocError> for LineError {
    ghost from_gives = { λ _ e. e ≡ Memory };

    fn from(_error: AllocError) -> LineError {
        LineError::Memory
    }
}

impl<T: Drop> From<AllocFailed<T>> for LineError {
    ghost from_gives = { λ _ e. e ≡ Memory };

    fn from(_error: AllocFailed<T>) -> LineError {
        LineError::Memory
    }
}
