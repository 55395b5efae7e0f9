//! The listing of a deck.
ghost use Rattle.std.specs.Prelude.{◌≡◌, ◌≤◌, None, length, IfErr, IfOk, OnOk};
ghost use Rattle.kdf_job.specs.Reading.{job_fault};
ghost use Rattle.kdf_job.specs.Reading as reading;
ghost use Rattle.kdf_job.specs.Shows.{shown_job};
ghost use Rattle.kdf_job.specs.WellFormed.{IsJob};
ghost use Rattle.kdf_job.specs.declared.job.TheConstants.{TEXT_LIMIT};
ghost use Rattle.kdf_top.specs.Answered.{IsReason};
ghost use Rattle.kdf_top.specs.Answers.{status_of_job};
ghost use Rattle.kdf_top.specs.Deck.{deck_fault};
ghost use Rattle.kdf_top.specs.Due.{listing_of};
ghost use Rattle.kdf_top.specs.Loaded.{HasImages};

use crate::loading::load;
use crate::reason::MakeError;
use crate::slot::find_slot;
use kdf_job::Job;
use kdf_place::{Image, listing, listing_absent};
use std::alloc::{AllocError, Global};

/// Reads a job, assembles its decks, and makes the listing of that of slot `p`.
pub fn list(alloc: Global, job_bytes: &[u8], p: u8) -> Result<Vec<u8>, MakeError>
    requires { length job_bytes.now ≤ TEXT_LIMIT }
    ensures faultless { OnOk result (job_fault job_bytes.now ≡ None) }
    ensures assembles { OnOk result (deck_fault (reading.job job_bytes.now).slots ≡ None) }
    ensures text { IfOk result (λ text. text.items ≡ listing_of p (reading.job job_bytes.now)) }
    ensures reason { IfErr result (IsReason (λ s. s ≡ status_of_job job_bytes.now)) }
{
    let (job, images) = load(alloc, job_bytes)?;
    Ok(list_slot(alloc, &job, &images, p)?)
}

/// The listing of the deck of slot `p`, or the text of a slot that the job doesn't have.
fn list_slot(alloc: Global, job: &Job, images: &[Image], p: u8) -> Result<Vec<u8>, AllocError>
    requires job { IsJob (shown_job job.now) }
    requires images { HasImages (shown_job job.now).slots images.now }
    ensures { IfOk result (λ text. text.items ≡ listing_of p (shown_job job.now)) }
{
    match find_slot(&job.slots, images, p) {
        Some((_, image)) => listing(alloc, image, p),
        None => listing_absent(alloc, p),
    }
}
