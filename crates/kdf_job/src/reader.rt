//! Reading a job: once over its lines, in their order.
ghost use Rattle.std.specs.Prelude.{◌≡◌, ◌+◌, ◌<◌, ◌≤◌, None, IfErr, IfOk, OnOk, length};
ghost use Rattle.kdf_text.specs.Ahead.{ahead};
ghost use Rattle.kdf_text.specs.Lines.{line};
ghost use Rattle.kdf_job.specs.Draft.{job_of};
ghost use Rattle.kdf_job.specs.Lengths.{weight};
ghost use Rattle.kdf_job.specs.Reading.{Says, at_line, end_fault, job, job_fault};
ghost use Rattle.kdf_job.specs.Passes.{Passes, next_fault};
ghost use Rattle.kdf_job.specs.Shows.{shown_draft, shown_job};
ghost use Rattle.kdf_job.specs.Taking.{IsSound};
ghost use Rattle.kdf_job.specs.WellFormed.{IsJob};
ghost use Rattle.kdf_job.specs.declared.job.TheConstants.{TEXT_LIMIT};
ghost use Rattle.kdf_job.specs.declared.line_place.LinePlace.TheVariants.{BehindEnd};

use crate::draft::Draft;
use crate::{Job, JobError, JobFault, LinePlace};
use kdf_text::Lines;
use std::alloc::Global;

/// Reads a job, of at most 268,435,456 bytes, which is well formed where it is read.
///
/// # Errors
///
/// `Fault` with the first faulty line, exactly where the job has one; `Memory` where there is none.
pub fn read_job(alloc: Global, bytes: &[u8]) -> Result<Job, JobError>
    requires { length bytes.now ≤ TEXT_LIMIT }
    ensures ok { OnOk result (job_fault bytes.now ≡ None) }
    ensures fault { IfErr result (λ e. Says e (job_fault bytes.now)) }
    ensures shown { IfOk result (λ j. shown_job j ≡ job bytes.now) }
    ensures well_formed { IfOk result (λ j. IsJob (shown_job j)) }
{
    let mut lines = Lines::new(bytes);
    let mut draft = Draft::new(alloc);
    while !lines.rest.is_empty() {
        read_line(alloc, &mut lines, &mut draft)?;
    }
    finish(alloc, draft, lines.number)
}

/// Reads the next line. The answer is how many bytes it has, with the one that ends it, which the last line may lack.
pub fn read_line(alloc: Global, lines: &mut Lines, draft: &mut Draft) -> Result<usize, JobError>
    requires sound { IsSound draft.old }
    requires some { 0 < length lines.old.rest.now }
    requires fits { weight (shown_draft draft.old) + length lines.old.rest.now ≤ TEXT_LIMIT }
    ensures pass { OnOk result (Passes lines.old draft.old lines.new draft.new) }
    ensures stop { IfErr result (λ e. Says e (next_fault lines.old (shown_draft draft.old))) }
    ensures shorter { length lines.new.rest.now < length lines.old.rest.now }
    ensures bytes { IfOk result (λ n. n ≡ length (line (ahead lines.old) 1) + 1) }
    ensures most { IfOk result (λ n. n ≤ length lines.old.rest.now + 1) }
    ensures within { IfOk result (λ n. 0 < length lines.new.rest.now
        → n + length lines.new.rest.now ≤ length lines.old.rest.now) }
{
    let line = lines.take_line();
    match draft.take_line(alloc, line.text) {
        Ok(()) => Ok(line.text.len() + 1),
        Err(error) => Err(error.at(line.number)),
    }
}

/// The job at the end of the text, which counts as a line of this number.
pub fn finish(alloc: Global, draft: Draft, number: u32) -> Result<Job, JobError>
    requires { IsSound draft }
    ensures ok { OnOk result (at_line number (end_fault draft.place) ≡ None) }
    ensures fault { IfErr result (λ e. Says e (at_line number (end_fault draft.place))) }
    ensures shown { IfOk result (λ j. shown_job j ≡ job_of (shown_draft draft)) }
    ensures well_formed { IfOk result (λ j. IsJob (shown_job j)) }
{
    check_end(draft.place, number)?;
    Ok(draft.finish(alloc)?)
}

/// The text may end where a line of this number would stand at this place.
fn check_end(place: LinePlace, number: u32) -> Result<(), JobError>
    ensures ok { OnOk result (at_line number (end_fault place) ≡ None) }
    ensures fault { IfErr result (λ e. Says e (at_line number (end_fault place))) }
    ensures place { OnOk result (place ≡ BehindEnd) }
{
    match place {
        LinePlace::BehindEnd => Ok(()),
        LinePlace::First => Err(JobError::Fault(JobFault::Header, number)),
        _ => Err(JobError::Fault(JobFault::BadLine, number)),
    }
}
