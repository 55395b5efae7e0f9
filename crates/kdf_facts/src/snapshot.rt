//! A snapshot: what is saved of a run.
ghost use Rattle.std.specs.Prelude.{◌<◌, ◌≤◌, All, length, map};
ghost use Rattle.kdf_job.specs.Shows.{shown_job, shown_slot};
ghost use Rattle.kdf_job.specs.WellFormed.{IsJob};
ghost use Rattle.kdf_job.specs.declared.job.TheConstants.{TEXT_LIMIT};
ghost use Rattle.kdf_report.specs.MadeFrom.{HasProgram};
ghost use Rattle.kdf_service.specs.Rules.{IsService};
ghost use Rattle.kdf_top.specs.Loaded.{HasImages};

use crate::printed::Printed;
use crate::run::{Loaded, told_by};
use crate::running::run_job;
use kdf_director::Machine;
use kdf_job::{Job, TEXT_LIMIT, line_count};
use kdf_json::{after, write_comma, write_text};
use kdf_service::Service;
use kdf_snapshot::dump;
use kdf_text::{Lines, cut_word, number_in};
use kdf_trace::Past;
use std::alloc::{AllocError, Global};
use std::fmt::Write;

/// The highest number of a slot and the highest address.
const LAST_SLOT: u64 = 3;

const LAST_ADDRESS: u64 = 8191;

/// The facts of the snapshot of a job: how many lines stand before the line `JOURNAL`, the words of the stores that aren't zero, and the facts of the run.
pub fn snapshot_facts<F: Fn(u64) -> u64>(
    alloc: Global,
    loaded: Loaded<'_>,
    service: &Service<F>,
) -> Result<String, AllocError>
    requires service { IsService (F.pre service.now) (F.post service.now) }
    requires few { length loaded.bytes.now ≤ TEXT_LIMIT }
    requires job { IsJob (shown_job loaded.job.now) }
    requires images { HasImages (shown_job loaded.job.now).slots loaded.images.now }
{
    let mut pasts = Vec::new(alloc);
    let machine = run_job(alloc, loaded.job, loaded.images, service, &mut pasts)?;
    let told = told_after(alloc, loaded, &machine, pasts, service);
    machine.close();
    told
}

/// The facts of the snapshot of a machine after its run, which has the program of each slot.
fn told_after<F: Fn(u64) -> u64>(
    alloc: Global,
    loaded: Loaded<'_>,
    machine: &Machine,
    pasts: Vec<Past>,
    service: &Service<F>,
) -> Result<String, AllocError>
    requires service { IsService (F.pre service.now) (F.post service.now) }
    requires few { length loaded.bytes.now ≤ TEXT_LIMIT }
    requires job { IsJob (shown_job loaded.job.now) }
    requires images { HasImages (shown_job loaded.job.now).slots loaded.images.now }
    requires programs { All (HasProgram machine.now) (map shown_slot loaded.job.now.slots.items) }
{
    let run = told_by(alloc, loaded, Printed::Report, machine, pasts, service)?;
    let words = words_of(alloc, loaded.job, machine)?;
    snapshot_text(alloc, loaded, &words, &run)
}

/// The lines of the words of a machine, which has the program of each slot.
fn words_of(alloc: Global, job: &Job, machine: &Machine) -> Result<Vec<u8>, AllocError>
    requires { All (HasProgram machine.now) (map shown_slot job.now.slots.items) }
{
    dump(alloc, job, machine)
}

/// The text of the facts of a snapshot with these lines of words, and with the facts of the run.
fn snapshot_text(
    alloc: Global,
    loaded: Loaded<'_>,
    words: &[u8],
    run: &String,
) -> Result<String, AllocError>
    requires { length loaded.bytes.now ≤ TEXT_LIMIT }
{
    let lines = line_count(loaded.bytes);
    let mut out = String::new(alloc);
    write!(
        out,
        "{{\"format\":\"kdf9-facts 1\",\"kind\":\"snapshot\",\"lines\":{lines},\"words\":["
    )?;
    if words.len() <= TEXT_LIMIT {
        write_words(&mut out, words)?;
    }
    out.push_str("],\n\"run\":")?;
    out.push_str(run.as_str())?;
    out.push_str("}\n")?;
    Ok(out)
}

/// Writes what each line tells: the slot, the address and the word.
fn write_words(out: &mut String, bytes: &[u8]) -> Result<(), AllocError>
    requires { length bytes.now < 4294967295 }
{
    let mut lines = Lines::new(bytes);
    let mut written = 0;
    for _line in 0..bytes.len() {
        if lines.rest.is_empty() {
            return Ok(());
        }
        let line = lines.take_line();
        write_word(out, written, line.text)?;
        written = 1;
    }
    Ok(())
}

/// Writes what a line tells, after so many others.
fn write_word(out: &mut String, written: usize, line: &[u8]) -> Result<(), AllocError> {
    let Some(rest) = after(line, b"STORE ") else {
        return Ok(());
    };
    let Some((slot, rest)) = cut_word(rest) else {
        return Ok(());
    };
    let Some((address, word)) = cut_word(rest) else {
        return Ok(());
    };
    let slot = number_in(0, LAST_SLOT, slot).unwrap_or(0);
    let address = number_in(0, LAST_ADDRESS, address).unwrap_or(0);
    write_comma(out, written)?;
    write!(out, "[{slot},{address},")?;
    write_text(out, word)?;
    out.push_str("]")
}
