//! Jobs that are read, with the images of their decks.
ghost use Rattle.std.specs.Prelude.{◌≤◌, map, length, sum_by, IfOk};
ghost use Rattle.kdf_place.specs.declared.image.Image.{Image};
ghost use Rattle.kdf_theory.specs.Follows.{entries_in};
ghost use Rattle.kdf_theory.specs.Loading.{HaveImages};
ghost use Rattle.kdf_job.specs.Shows.{shown_job, shown_slot};
ghost use Rattle.kdf_job.specs.WellFormed.{IsJob};
ghost use Rattle.kdf_watch.specs.Cursors.{KeepsLimits};

use kdf_job::{Job, read_job};
use kdf_place::Image;
use kdf_schedule::Event;
use kdf_top::assemble_decks;
use std::alloc::{AllocError, Global};
use std::process::Abort;

/// The job of a text without a fault.
pub fn job_of(rt: &impl Abort, alloc: Global, text: &str) -> Result<Job, AllocError>
    ensures { IfOk result (λ job. IsJob (shown_job job)) }
{
    assert!(rt; text.len() < 100_000);
    match read_job(alloc, text.as_bytes()) {
        Ok(job) => Ok(job),
        Err(_) => Err(AllocError),
    }
}

/// The images of the decks of a job, none of which has a fault.
#[tactic(auto, using(kdf_top::proofs::LoadedDecks::all_decks, kdf_top::proofs::LoadedDecks::fitting_images))]
pub fn images_of(alloc: Global, job: &Job) -> Result<Vec<Image>, AllocError>
    requires { IsJob (shown_job job.now) }
    ensures { IfOk result (λ images. HaveImages (map shown_slot job.now.slots.items)
        (map (λ (x : Image). x.words.items) images.items)) }
{
    match assemble_decks(alloc, &job.slots) {
        Ok(images) => Ok(images),
        Err(_) => Err(AllocError),
    }
}

/// The events of a job.
pub fn events_of(job: &Job) -> &[Event]
    requires { IsJob (shown_job job.now) }
    ensures limits { KeepsLimits result.now }
    ensures entries { sum_by entries_in result.now ≤ length job.now.events.items }
{
    &job.events
}
