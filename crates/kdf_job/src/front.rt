//! Reading the job at the front of a text: its lines up to the one that ends its schedule.
ghost use Rattle.std.specs.Prelude.{◌≡◌, ◌≤◌, ◌&&◌, None, IfErr, IfOk, OnOk, length, nat_lt, not};
ghost use Rattle.kdf_text.specs.Lines.{lines};
ghost use Rattle.kdf_job.specs.Front.{front_fault, front_job, front_length, is_behind_end};
ghost use Rattle.kdf_job.specs.Reading.{Says};
ghost use Rattle.kdf_job.specs.Shows.{shown_job};
ghost use Rattle.kdf_job.specs.WellFormed.{IsJob};
ghost use Rattle.kdf_job.specs.declared.job.TheConstants.{TEXT_LIMIT};

use crate::draft::Draft;
use crate::reader::{finish, read_line};
use crate::{Job, JobError, LinePlace};
use kdf_text::Lines;
use std::alloc::Global;

/// Reads the job at the front of a text of at most 268,435,456 bytes. It comes with the offset after the line `ENDJOB`
/// that ends its schedule; what stands there isn't looked at.
///
/// # Errors
///
/// `Fault` with the first faulty line, exactly where the job at the front has one; `Memory` where there is none. A text
/// that is over before the job's end has its fault there, as for `read_job`.
pub fn read_job_front(alloc: Global, bytes: &[u8]) -> Result<(Job, usize), JobError>
    requires { length bytes.now ≤ TEXT_LIMIT }
    ensures ok { OnOk result (front_fault bytes.now ≡ None) }
    ensures fault { IfErr result (λ e. Says e (front_fault bytes.now)) }
    ensures shown { IfOk result (λ x. shown_job x.0 ≡ front_job bytes.now) }
    ensures offset { IfOk result (λ x. x.1 ≡ front_length bytes.now) }
    ensures within { IfOk result (λ x. x.1 ≤ length bytes.now) }
    ensures well_formed { IfOk result (λ x. IsJob (shown_job x.0)) }
{
    let mut lines = Lines::new(bytes);
    let mut draft = Draft::new(alloc);
    let mut length = 0;
    while goes_on(lines, draft.place) {
        length += read_line(alloc, &mut lines, &mut draft)?;
    }
    let job = finish(alloc, draft, lines.number)?;
    Ok((job, length.min(bytes.len())))
}

/// A line of the job is ahead, if the next line stands at this place.
pub fn goes_on(lines: Lines, place: LinePlace) -> bool
    ensures { result ≡ (nat_lt 0 (length lines.entry.rest.now) && not (is_behind_end place)) }
{
    !lines.rest.is_empty() && !place.is_behind_end()
}

/// How many lines a text of at most 268,435,456 bytes has. The line after a job at the front of a text has the number
/// one past the lines up to the offset that `read_job_front` gives.
pub fn line_count(text: &[u8]) -> u32
    requires { length text.now ≤ TEXT_LIMIT }
    ensures { result ≡ length (lines text.now) }
{
    let mut lines = Lines::new(text);
    while !lines.rest.is_empty() {
        lines.take_line();
    }
    lines.number - 1
}
