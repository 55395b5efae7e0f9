//! The verdict on a printed report.
ghost use Rattle.std.specs.Prelude.{◌≤◌, IfOk, length};
ghost use Rattle.kdf_job.specs.Shows.{shown_job};
ghost use Rattle.kdf_job.specs.WellFormed.{IsJob};
ghost use Rattle.kdf_job.specs.declared.job.TheConstants.{TEXT_LIMIT};
ghost use Rattle.kdf_service.specs.Rules.{IsService};
ghost use Rattle.kdf_top.specs.Loaded.{HasImages};

use kdf_check::{Verdict, check_with};
use kdf_job::{Job, line_count};
use kdf_place::Image;
use kdf_service::Service;
use std::alloc::{AllocError, Global};
use std::fmt::Write;

/// The facts of the verdict on the report that begins at an offset of a text, behind its job.
pub fn check_facts<F: Fn(u64) -> u64>(
    alloc: Global,
    text: &[u8],
    end: usize,
    job: &Job,
    images: &[Image],
    service: &Service<F>,
) -> Result<String, AllocError>
    requires service { IsService (F.pre service.now) (F.post service.now) }
    requires few { length text.now ≤ TEXT_LIMIT }
    requires end { end ≤ length text.now }
    requires job { IsJob (shown_job job.now) }
    requires images { HasImages (shown_job job.now).slots images.now }
{
    let verdict = verdict_on(alloc, job, images, &text[end..], service)?;
    let lines = line_count(&text[..end]);
    verdict_text(alloc, verdict, lines)
}

fn verdict_on<F: Fn(u64) -> u64>(
    alloc: Global,
    job: &Job,
    images: &[Image],
    report: &[u8],
    service: &Service<F>,
) -> Result<Verdict, AllocError>
    requires service { IsService (F.pre service.now) (F.post service.now) }
    requires few { length report.now ≤ TEXT_LIMIT }
    requires job { IsJob (shown_job job.now) }
    requires images { HasImages (shown_job job.now).slots images.now }
{
    check_with(alloc, job, images, report, service)
}

/// The text of a verdict on a report after a job of so many lines: the first wrong entry, counted from 1, or 0 for the line before them, and its line.
fn verdict_text(alloc: Global, verdict: Verdict, lines: u32) -> Result<String, AllocError> {
    let mut out = String::new(alloc);
    out.push_str("{\"format\":\"kdf9-facts 1\",\"kind\":\"check\",\"answer\":")?;
    match verdict {
        Verdict::Yes => out.push_str("\"YES\",\"entry\":null,\"line\":null}\n")?,
        Verdict::No(entry) => {
            let line = lines.saturating_add(entry).saturating_add(1);
            write!(out, "\"NO\",\"entry\":{entry},\"line\":{line}}}\n")?;
        }
    }
    Ok(out)
}
