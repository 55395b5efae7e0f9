//! What programs are loaded from.

use kdf_job::Job;
use kdf_place::Image;

/// A job, and the images of its slots.
#[derive(Clone, Copy)]
pub struct Source<'a> {
    pub job: &'a Job,
    pub images: &'a [Image],
}
