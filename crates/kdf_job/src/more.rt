//! Reading further lines of a schedule, which stand after the events of a job.
ghost use Rattle.std.specs.Prelude.{◌≡◌, ◌<◌, ◌≤◌, ◌++◌, ◌&&◌, nat_eq, None, IfErr, IfOk, OnErr, OnOk, length};
ghost use Rattle.kdf_text.specs.Ahead.{ahead};
ghost use Rattle.kdf_job.specs.Front.{is_behind_end};
ghost use Rattle.kdf_job.specs.More.{events_in, joined, more_events, more_fault, scheduled};
ghost use Rattle.kdf_job.specs.Passes.{next_fault, Reads};
ghost use Rattle.kdf_job.specs.Reading.{Says, fault_from};
ghost use Rattle.kdf_job.specs.Shows.{shown_job};
ghost use Rattle.kdf_job.specs.WellFormed.{IsJob, IsSchedule};
ghost use Rattle.kdf_job.specs.declared.job.TheConstants.{TEXT_LIMIT};
ghost use Rattle.kdf_job.specs.declared.line_place.LinePlace.TheVariants.{InSchedule};

use crate::front::goes_on;
use crate::schedule::Schedule;
use crate::{Job, JobError, JobFault, LinePlace};
use kdf_schedule::Event;
use kdf_text::Lines;
use std::alloc::Global;

/// Reads further lines of a schedule, which end with `ENDJOB`, into the events of a job, after those that are there.
/// They are at most 268,435,456 bytes, and are counted from `first_line`, which is at most 268,435,457. At an error the
/// job is as it was.
///
/// # Errors
///
/// `Fault` with the first faulty line, exactly where there is one: each is read as a line of a schedule, after the job's
/// own events. A line after `ENDJOB`, and the end of the text without it, are `BadLine`. `Memory` where there is none.
#[tactic(auto, unfolding(crate::specs::More::more_fault, crate::specs::More::more_events))]
pub fn read_more(
    alloc: Global,
    job: &mut Job,
    bytes: &[u8],
    first_line: u32,
) -> Result<(), JobError>
    requires few { length bytes.now ≤ TEXT_LIMIT }
    requires first { first_line ≤ 268435457 }
    requires sound { IsJob (shown_job job.old) }
    ensures ok { OnOk result (more_fault first_line (shown_job job.old).events bytes.now ≡ None) }
    ensures fault { IfErr result (λ e.
        Says e (more_fault first_line (shown_job job.old).events bytes.now)) }
    ensures joined { OnOk result (shown_job job.new
        ≡ joined (shown_job job.old) (more_events bytes.now)) }
    ensures well_formed { IsJob (shown_job job.new) }
    ensures unchanged { OnErr result (job.new ≡ job.old) }
{
    let lines = Lines {
        rest: bytes,
        number: first_line,
    };
    job.events = read_after(alloc, &job.events, lines)?;
    Ok(())
}

/// Reads lines up to the end of a schedule that has these events already. The answer is all its events.
fn read_after(alloc: Global, events: &[Event], lines: Lines) -> Result<Vec<Event>, JobError>
    requires sound { IsSchedule events.now }
    ensures ok { OnOk result (fault_from lines.entry.number
        (scheduled InSchedule events.now) (ahead lines.entry) ≡ None) }
    ensures fault { IfErr result (λ e. Says e (fault_from lines.entry.number
        (scheduled InSchedule events.now) (ahead lines.entry))) }
    ensures events { IfOk result (λ all. all.items ≡ events.now ++ events_in (ahead lines.entry)) }
    ensures sound { IfOk result (λ all. IsSchedule all.items) }
{
    let mut schedule = Schedule::of(alloc, events)?;
    read_to_end(lines, &mut schedule)?;
    Ok(schedule.events)
}

/// Reads lines up to the end of a schedule, after which no line may stand.
fn read_to_end(mut lines: Lines, schedule: &mut Schedule) -> Result<(), JobError>
    requires sound { IsSchedule schedule.old.events.items }
    ensures ok { OnOk result (fault_from lines.entry.number
        (scheduled InSchedule schedule.old.events.items) (ahead lines.entry) ≡ None) }
    ensures fault { IfErr result (λ e. Says e (fault_from lines.entry.number
        (scheduled InSchedule schedule.old.events.items) (ahead lines.entry))) }
    ensures events { OnOk result (schedule.new.events.items
        ≡ schedule.old.events.items ++ events_in (ahead lines.entry)) }
    ensures sound { OnOk result (IsSchedule schedule.new.events.items) }
{
    let mut place = LinePlace::InSchedule;
    while goes_on(lines, place) {
        place = read_schedule_line(&mut lines, schedule)?;
    }
    if is_over(lines, place) {
        Ok(())
    } else {
        Err(JobError::Fault(JobFault::BadLine, lines.number))
    }
}

/// The schedule is ended, if the next line stands at this place, and no line is ahead.
fn is_over(lines: Lines, place: LinePlace) -> bool
    ensures { result ≡ (nat_eq (length lines.entry.rest.now) 0 && is_behind_end place) }
{
    lines.rest.is_empty() && place.is_behind_end()
}

/// Reads the next line of a schedule. The answer is where the line after it stands.
fn read_schedule_line(lines: &mut Lines, schedule: &mut Schedule) -> Result<LinePlace, JobError>
    requires some { 0 < length lines.old.rest.now }
    requires sound { IsSchedule schedule.old.events.items }
    ensures reads { IfOk result (λ place. Reads lines.old (scheduled InSchedule schedule.old.events.items)
        lines.new (scheduled place schedule.new.events.items)) }
    ensures stop { IfErr result (λ e. Says e
        (next_fault lines.old (scheduled InSchedule schedule.old.events.items))) }
    ensures sound { OnOk result (IsSchedule schedule.new.events.items) }
    ensures shorter { length lines.new.rest.now < length lines.old.rest.now }
{
    let line = lines.take_line();
    match schedule.take_line(line.text) {
        Ok(place) => Ok(place),
        Err(error) => Err(error.at(line.number)),
    }
}
