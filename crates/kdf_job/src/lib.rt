//! The text of a job: its slots with their decks, devices and what is shown of them, and the schedule.
#![tactic(auto)]

mod device_draft;
mod draft;
pub mod examples;
mod fault;
mod forms;
mod front;
mod job;
pub mod laws;
mod line_error;
mod line_place;
mod made;
mod media;
mod medium;
mod more;
mod reader;
mod schedule;
mod schedule_lines;
mod slot_draft;
mod taking;

pub use fault::{JobError, JobFault};
pub use front::{line_count, read_job_front};
pub use job::{Job, SlotJob, TEXT_LIMIT, device_numbered, kind_lent};
use line_error::LineError;
use line_place::LinePlace;
pub use made::generated;
pub use more::read_more;
pub use reader::read_job;
