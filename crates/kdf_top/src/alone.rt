//! A program by itself.
ghost use Rattle.std.specs.Prelude.{◌≡◌, ◌≤◌, [], None, length, map, IfErr, IfOk, Ok, OnOk};
ghost use Rattle.kdf_schedule.specs.Calls.{order_count, orders_in};
ghost use Rattle.kdf_place.specs.Assembled.{image_words};
ghost use Rattle.kdf_job.specs.Limits.{most_orders};
ghost use Rattle.kdf_job.specs.Reading.{job_fault};
ghost use Rattle.kdf_job.specs.Reading as reading;
ghost use Rattle.kdf_job.specs.Shows.{shown_job, shown_slot};
ghost use Rattle.kdf_job.specs.Slots.{slot_of};
ghost use Rattle.kdf_job.specs.WellFormed.{IsJob, IsSlot};
ghost use Rattle.kdf_job.specs.declared.job.TheConstants.{TEXT_LIMIT};
ghost use Rattle.kdf_processor.specs.Lone.{lone};
ghost use Rattle.kdf_processor.specs.State.{begin};
ghost use Rattle.kdf_alone.specs.Program.{IsApart};
ghost use Rattle.kdf_report.specs.Text.{alone_text};
ghost use Rattle.kdf_top.specs.Answered.{IsReason};
ghost use Rattle.kdf_top.specs.Answers.{status_of_job};
ghost use Rattle.kdf_top.specs.Deck.{deck_fault};
ghost use Rattle.kdf_top.specs.Due.{alone_of, alone_state};
ghost use Rattle.kdf_top.specs.Loaded.{HasImages};

use crate::loading::load;
use crate::reason::MakeError;
use crate::slot::find_slot;
use kdf_alone::Alone;
use kdf_job::{Job, SlotJob};
use kdf_place::Image;
use kdf_report::{alone_absent, alone_text};
use kdf_schedule::Event;
use std::alloc::{AllocError, Global};

/// Reads a job, runs the program of slot `p` by itself, and makes its text.
pub fn alone(alloc: Global, job_bytes: &[u8], p: u8) -> Result<Vec<u8>, MakeError>
    requires { length job_bytes.now ≤ TEXT_LIMIT }
    ensures faultless { OnOk result (job_fault job_bytes.now ≡ None) }
    ensures assembles { OnOk result (deck_fault (reading.job job_bytes.now).slots ≡ None) }
    ensures text { IfOk result (λ text. text.items ≡ alone_of p (reading.job job_bytes.now)) }
    ensures reason { IfErr result (IsReason (λ s. s ≡ status_of_job job_bytes.now)) }
{
    let (job, images) = load(alloc, job_bytes)?;
    Ok(run_alone(alloc, &job, &images, p)?)
}

/// Runs the program of slot `p` by itself, with every ask answered 0, for as many orders as the schedule has, and makes its text; or
/// the text of a slot that the job doesn't have.
fn run_alone(alloc: Global, job: &Job, images: &[Image], p: u8) -> Result<Vec<u8>, AllocError>
    requires job { IsJob (shown_job job.now) }
    requires images { HasImages (shown_job job.now).slots images.now }
    ensures { IfOk result (λ text. text.items ≡ alone_of p (shown_job job.now)) }
{
    match find_slot(&job.slots, images, p) {
        Some((slot, image)) => run_slot(alloc, slot, image, &job.events),
        None => alone_absent(alloc, p),
    }
}

/// Runs the program of a slot by itself.
fn run_slot(
    alloc: Global,
    slot: &SlotJob,
    image: &Image,
    events: &[Event],
) -> Result<Vec<u8>, AllocError>
    requires slot { IsSlot (shown_slot slot.now) }
    requires apart { IsApart (shown_slot slot.now) }
    requires image { image.now.words.items ≡ image_words slot.now.size slot.now.deck.items }
    requires fits { length image.now.words.items ≤ slot.now.size }
    requires few { order_count events.now ≤ most_orders }
    ensures { IfOk result (λ text. text.items
        ≡ alone_text (shown_slot slot.now) (alone_state events.now (shown_slot slot.now))) }
{
    let orders = orders_in(events);
    let mut program = Alone::load(alloc, slot, image)?;
    obey(alloc, slot, &mut program, orders)
}

/// Obeys so many orders of the program of a slot, which was just loaded, and makes its text.
fn obey(
    alloc: Global,
    slot: &SlotJob,
    program: &mut Alone,
    orders: u32,
) -> Result<Vec<u8>, AllocError>
    requires slot { IsSlot (shown_slot slot.now) }
    requires loaded { program.old
        ≡ begin (slot_of (shown_slot slot.now) (image_words slot.now.size slot.now.deck.items)) }
    requires few { orders ≤ most_orders }
    ensures { IfOk result (λ text. text.items ≡ alone_text (shown_slot slot.now) (lone program.old [] orders)) }
{
    program.orders(&[], orders)?;
    alone_text(alloc, slot, program)
}

/// How many orders a schedule has.
fn orders_in(events: &[Event]) -> u32
    requires { order_count events.now ≤ most_orders }
    ensures { result ≡ order_count events.now }
{
    let mut orders = 0;
    for event in events {
        orders += orders_of(event);
    }
    orders
}

/// How many orders an event has.
fn orders_of(event: &Event) -> u32
    ensures { result ≡ orders_in event.now }
{
    match *event {
        Event::Orders(n) => n,
        _ => 0,
    }
}
