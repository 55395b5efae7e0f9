//! The verdict on a printed report.
ghost use Rattle.std.specs.Prelude.{◌≡◌, ◌<◌, ◌≤◌, length, map, IfOk, IfSome};
ghost use Rattle.kdf_job.specs.Shows.{shown_job, shown_slot};
ghost use Rattle.kdf_job.specs.WellFormed.{IsJob};
ghost use Rattle.kdf_place.specs.declared.image.Image.{Image};
ghost use Rattle.kdf_service.specs.Rules.{IsService};
ghost use Rattle.kdf_theory.specs.Loading.{HaveImages, slots_of};
ghost use Rattle.kdf_theory.specs.Served.{unasked};
ghost use Rattle.kdf_theory.specs.Slots.{NoneServed};
ghost use Rattle.kdf_check.specs.Report.{verdict_at, IsCheck};

use crate::Verdict;
use crate::load::load;
use crate::report::first_difference;
use crate::schedule::follow;
use crate::source::Source;
use crate::table::Table;
use kdf_job::Job;
use kdf_journal::Journal;
use kdf_place::Image;
use kdf_service::Service;
use kdf_text::Lines;
use std::alloc::{AllocError, Global};

/// Whether a report, whose bytes these are, at most 268,435,456, prints the journal of a job without a fault, of whose slots each has
/// its image, where the service answers its programs.
///
/// # Errors
///
/// - `AllocError` comes where there was no memory.
pub fn check_with<F: Fn(u64) -> u64>(
    alloc: Global,
    job: &Job,
    images: &[Image],
    lines: &[u8],
    service: &Service<F>,
) -> Result<Verdict, AllocError>
    requires job { IsJob (shown_job job.now) }
    requires images { HaveImages (map shown_slot job.now.slots.items)
        (map (λ (x : Image). x.words.items) images.now) }
    requires few { length lines.now ≤ 268435456 }
    requires service { IsService (F.pre service.now) (F.post service.now) }
    ensures { IfOk result (IsCheck (F.post service.now) (slots_of (map shown_slot job.now.slots.items)
        (map (λ (x : Image). x.words.items) images.now)) job.now.events.items lines.now) }
{
    let mut lines = Lines::new(lines);
    if lines.take_line().text != b"KDF9 REPORT 1".as_slice() {
        return Ok(Verdict::No(0));
    }
    let source = Source { job, images };
    let mut programs = load(alloc, &source.job.slots, source.images)?;
    let mut table = Table::new();
    let mut journal = Journal::new(alloc);
    follow(source, &mut programs, &mut table, &mut journal, service)?;
    Ok(verdict_of(first_difference(lines, journal.entries())))
}

/// The verdict that `check_with` has, on a job of which no slot is served.
pub fn check(
    alloc: Global,
    job: &Job,
    images: &[Image],
    lines: &[u8],
) -> Result<Verdict, AllocError>
    requires job { IsJob (shown_job job.now) }
    requires images { HaveImages (map shown_slot job.now.slots.items)
        (map (λ (x : Image). x.words.items) images.now) }
    requires few { length lines.now ≤ 268435456 }
    requires unserved { NoneServed (slots_of (map shown_slot job.now.slots.items)
        (map (λ (x : Image). x.words.items) images.now)) }
    ensures { IfOk result (IsCheck unasked (slots_of (map shown_slot job.now.slots.items)
        (map (λ (x : Image). x.words.items) images.now)) job.now.events.items lines.now) }
{
    check_with(alloc, job, images, lines, &Service::new(|word| word))
}

/// The verdict on lines that differ from the journal at this place, or nowhere.
fn verdict_of(place: Option<u32>) -> Verdict
    requires { IfSome place (λ n. n < u32.MAX) }
    ensures { result ≡ verdict_at place }
{
    match place {
        Some(place) => Verdict::No(place + 1),
        None => Verdict::Yes,
    }
}
