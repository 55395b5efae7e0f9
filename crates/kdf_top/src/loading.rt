//! The job of a command, with the images of its decks.
ghost use Rattle.std.specs.Prelude.{◌≡◌, ◌≤◌, None, IfErr, IfOk, OnOk, length};
ghost use Rattle.kdf_job.specs.Reading.{job_fault};
ghost use Rattle.kdf_job.specs.Reading as reading;
ghost use Rattle.kdf_job.specs.declared.job.TheConstants.{TEXT_LIMIT};
ghost use Rattle.kdf_top.specs.Answered.{IsReason};
ghost use Rattle.kdf_top.specs.Answers.{status_of_job};
ghost use Rattle.kdf_top.specs.Loaded.{IsLoaded};

use crate::decks::assemble_decks;
use crate::reason::MakeError;
use kdf_job::{Job, read_job};
use kdf_place::Image;
use std::alloc::Global;

/// The job of these bytes, with the images of its decks.
pub fn load(alloc: Global, job_bytes: &[u8]) -> Result<(Job, Vec<Image>), MakeError>
    requires { length job_bytes.now ≤ TEXT_LIMIT }
    ensures faultless { OnOk result (job_fault job_bytes.now ≡ None) }
    ensures loaded { IfOk result (λ x. IsLoaded (reading.job job_bytes.now) x.0 x.1.items) }
    ensures reason { IfErr result (IsReason (λ s. s ≡ status_of_job job_bytes.now)) }
{
    let job = read_job(alloc, job_bytes)?;
    let images = assemble_decks(alloc, &job.slots)?;
    Ok((job, images))
}
