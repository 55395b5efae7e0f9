//! What is wrong with a job.
ghost use Rattle.std.specs.Prelude.{◌≡◌};
ghost use Rattle.kdf_job.specs.Faults.{job_fault_name};
ghost use Rattle.kdf_job.specs.declared.fault.JobError.TheVariants.{Memory};

use std::alloc::{AllocError, AllocFailed};
use thiserror::Error;

/// What is wrong with a line of a job. Of several, a line has the one that stands first here.
#[derive(Clone, Copy, Debug, PartialEq, Eq)]
pub enum JobFault {
    /// The first line isn't the one with which a job begins.
    Header,
    /// The line has no form that may stand in its place.
    BadLine,
    /// A word in a number's place isn't a number, or is outside its range.
    BadNumber,
    /// The number of a slot isn't above that of the slot before.
    SlotOrder,
    /// The size of a store isn't a multiple of 32.
    SizeNotGroups,
    /// The stores have more words together than all programs may have.
    StoreFull,
    /// A device of this number stood before.
    DeviceTwice,
    /// A label isn't 1 to 8 letters and digits.
    BadLabel,
    /// The slot has a tape of this label already.
    LabelTwice,
    /// The line is no medium of its device.
    BadMedium,
    /// The addresses that are to be shown fall, or aren't below the size of the store.
    ShowRange,
    /// The time is set back.
    ClockFalls,
    /// The schedule has more than 20,000,000 orders.
    TooManyOrders,
    /// The schedule has more than 500,000 lines.
    TooManyEvents,
    /// A device of the pool is no punch or printer.
    PoolKind,
}

impl JobFault {
    /// The name of the fault, as it is printed.
    pub fn name(&self) -> &'static str
        ensures { result.now ≡ job_fault_name self.now }
    {
        match self {
            JobFault::Header => "Header",
            JobFault::BadLine => "BadLine",
            JobFault::BadNumber => "BadNumber",
            JobFault::SlotOrder => "SlotOrder",
            JobFault::SizeNotGroups => "SizeNotGroups",
            JobFault::StoreFull => "StoreFull",
            JobFault::DeviceTwice => "DeviceTwice",
            JobFault::BadLabel => "BadLabel",
            JobFault::LabelTwice => "LabelTwice",
            JobFault::BadMedium => "BadMedium",
            JobFault::ShowRange => "ShowRange",
            JobFault::ClockFalls => "ClockFalls",
            JobFault::TooManyOrders => "TooManyOrders",
            JobFault::TooManyEvents => "TooManyEvents",
            JobFault::PoolKind => "PoolKind",
        }
    }
}

/// Why there is no job.
#[derive(Debug, Error, Drop)]
pub enum JobError {
    /// The first faulty line, counted from 1, and what is wrong with it.
    #[error("the job is faulty at a line")]
    Fault(JobFault, u32),
    /// There was no memory for the job.
    #[error("out of memory")]
    Memory,
}

impl From<AllocError> for JobError {
    ghost from_gives = { λ _ e. e ≡ Memory };

    fn from(_error: AllocError) -> JobError {
        JobError::Memory
    }
}

impl<T: Drop> From<AllocFailed<T>> for JobError {
    ghost from_gives = { λ _ e. e ≡ Memory };

    fn from(_error: AllocFailed<T>) -> JobError {
        JobError::Memory
    }
}
