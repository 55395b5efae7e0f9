//! The verdict on a printed report.
ghost use Rattle.std.specs.Prelude.{◌≡◌, ◌≤◌, [], ◌∷◌, None, IfErr, IfOk, OnOk, length};
ghost use Rattle.kdf_job.specs.Front.{front_fault, front_job};
ghost use Rattle.kdf_job.specs.Shows.{shown_job};
ghost use Rattle.kdf_job.specs.WellFormed.{IsJob};
ghost use Rattle.kdf_job.specs.declared.job.TheConstants.{TEXT_LIMIT};
ghost use Rattle.kdf_check.specs.Report.{IsCheck};
ghost use Rattle.kdf_check.specs.declared.verdict.Verdict.{Verdict};
ghost use Rattle.kdf_service.specs.Rules.{IsService};
ghost use Rattle.kdf_text.specs.Text.{Adds, text};
ghost use Rattle.kdf_top.specs.Answered.{IsReason};
ghost use Rattle.kdf_top.specs.Answers.{status_of};
ghost use Rattle.kdf_top.specs.Deck.{deck_fault};
ghost use Rattle.kdf_top.specs.Due.{IsVerdictOf, check_line, verdict_line, verdict_lines};
ghost use Rattle.kdf_top.specs.Loaded.{HasImages, slots_of};
ghost use Rattle.kdf_command.specs.declared.command.Command.TheVariants as command;
ghost use Rattle.kdf_top.specs.declared.reason.MakeError.TheVariants.{Memory};

use crate::decks::assemble_decks;
use crate::reason::MakeError;
use crate::resuming::rest;
use kdf_check::{Verdict, check_with};
use kdf_job::{Job, read_job_front};
use kdf_place::Image;
use kdf_service::Service;
use kdf_text::write_end;
use std::alloc::{AllocError, Global};
use std::fmt::Write;

/// Reads a job and the report after it, and makes the text of the verdict on the report.
pub fn check<F: Fn(u64) -> u64>(
    alloc: Global,
    text: &[u8],
    service: &Service<F>,
) -> Result<Vec<u8>, MakeError>
    requires service { IsService (F.pre service.now) (F.post service.now) }
    requires within { length text.now ≤ TEXT_LIMIT }
    ensures faultless { OnOk result (front_fault text.now ≡ None) }
    ensures assembles { OnOk result (deck_fault (front_job text.now).slots ≡ None) }
    ensures text { IfOk result (λ due. IsVerdictOf (F.post service.now) text.now due.items) }
    ensures reason { IfErr result (IsReason (λ s. s ≡ status_of command.Check text.now)) }
{
    let (job, end) = read_job_front(alloc, text)?;
    let images = assemble_decks(alloc, &job.slots)?;
    verdict_on(alloc, &job, &images, rest(text, end), service)
}

/// The text of the verdict on a report of a job.
fn verdict_on<F: Fn(u64) -> u64>(
    alloc: Global,
    job: &Job,
    images: &[Image],
    report: &[u8],
    service: &Service<F>,
) -> Result<Vec<u8>, MakeError>
    requires service { IsService (F.pre service.now) (F.post service.now) }
    requires job { IsJob (shown_job job.now) }
    requires images { HasImages (shown_job job.now).slots images.now }
    requires within { length report.now ≤ TEXT_LIMIT }
    ensures text { IfOk result (λ due. (v : Verdict)
        × IsCheck (F.post service.now) (slots_of (shown_job job.now)) (shown_job job.now).events report.now v
        × (due.items ≡ text (verdict_lines v))) }
    ensures memory { IfErr result (λ e. e ≡ Memory) }
{
    let verdict = check_with(alloc, job, images, report, service)?;
    Ok(verdict_text(alloc, verdict)?)
}

/// The text of a verdict.
fn verdict_text(alloc: Global, verdict: Verdict) -> Result<Vec<u8>, AllocError>
    ensures { IfOk result (λ bytes. bytes.items ≡ text (verdict_lines verdict)) }
{
    let mut out = String::new(alloc);
    write_head(&mut out)?;
    write_verdict(&mut out, verdict)?;
    write_end(&mut out)?;
    Ok(out.into_bytes())
}

#[tactic(auto, unfolding(kdf_text::specs::Text::text))]
fn write_head(out: &mut String) -> Result<(), AllocError>
    ensures { OnOk result (Adds out.old out.new (check_line ∷ [])) }
{
    writeln!(out, "KDF9 CHECK")
}

#[tactic(auto, unfolding(kdf_text::specs::Text::text))]
fn write_verdict(out: &mut String, verdict: Verdict) -> Result<(), AllocError>
    ensures { OnOk result (Adds out.old out.new (verdict_line verdict ∷ [])) }
{
    match verdict {
        Verdict::Yes => writeln!(out, "YES"),
        Verdict::No(k) => writeln!(out, "NO {k}"),
    }
}
