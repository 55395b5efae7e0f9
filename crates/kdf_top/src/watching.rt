//! A job under Director that is watched: when a program comes to a place.
ghost use Rattle.std.specs.Prelude.{◌≡◌, ◌*◌, ◌<◌, ◌++◌, [], ◌∷◌, All, IfOk, OnOk, map};
ghost use Rattle.kdf_text.specs.Text.{Adds};
ghost use Rattle.kdf_job.specs.Shows.{shown_job, shown_slot};
ghost use Rattle.kdf_job.specs.WellFormed.{IsJob};
ghost use Rattle.kdf_theory.specs.Served.{IsJournalFor};
ghost use Rattle.kdf_theory.specs.MachineView.{ShowsSeen, state_at};
ghost use Rattle.kdf_report.specs.MadeFrom.{HasProgram};
ghost use Rattle.kdf_report.specs.Text.{report_text};
ghost use Rattle.kdf_service.specs.Rules.{IsService};
ghost use Rattle.kdf_watch.specs.Stops.{stops_of};
ghost use Rattle.kdf_top.specs.Due.{stop_line, stops_text, watch_line};
ghost use Rattle.kdf_top.specs.Loaded.{HasImages, slots_of};

use kdf_director::Machine;
use kdf_job::Job;
use kdf_limits::PROGRAM_WORDS;
use kdf_place::Image;
use kdf_report::report;
use kdf_service::Service;
use kdf_watch::stops_at;
use std::alloc::{AllocError, Global};
use std::fmt::Write;

/// A word has six syllables.
const SYLLABLES: u16 = 6;

/// Loads a job and makes the calls of its schedule, and tells after which of its own orders, counted from 1, the program of a slot was to
/// go on at syllable 0 of the word at an address; the service answers the programs.
pub fn watch_job<F: Fn(u64) -> u64>(
    alloc: Global,
    job: &Job,
    images: &[Image],
    slot: u8,
    address: u16,
    service: &Service<F>,
) -> Result<(Machine, Vec<u32>), AllocError>
    requires service { IsService (F.pre service.now) (F.post service.now) }
    requires job { IsJob (shown_job job.now) }
    requires images { HasImages (shown_job job.now).slots images.now }
    requires address { address < PROGRAM_WORDS }
    ensures slots { IfOk result (λ x. x.0.slots ≡ slots_of (shown_job job.now)) }
    ensures journal { IfOk result (λ x. IsJournalFor (F.post service.now) x.0.slots (shown_job job.now).events
        x.0.journal) }
    ensures seen { IfOk result (λ x. ShowsSeen x.0) }
    ensures stops { IfOk result (λ x. x.1.items ≡ stops_of x.0.slots x.0.journal slot (6 * address)) }
{
    let mut machine = Machine::load(alloc, job, images)?;
    let at = SYLLABLES * address;
    match stops_at(alloc, &mut machine, &job.events, service, slot, at) {
        Ok(stops) => Ok((machine, stops)),
        Err(error) => {
            machine.close();
            Err(error)
        }
    }
}

/// The text of these stops of the program of a slot at an address, with the report of a job and of a machine that was loaded from it. The
/// machine has the program of each slot.
pub fn watched_text(
    alloc: Global,
    slot: u8,
    address: u16,
    stops: &[u32],
    job: &Job,
    machine: &Machine,
) -> Result<Vec<u8>, AllocError>
    requires { All (HasProgram machine.now) (map shown_slot job.now.slots.items) }
    ensures { IfOk result (λ bytes. bytes.items
        ≡ stops_text slot address stops.now ++ report_text (shown_job job.now) machine.now.journal
        (state_at machine.now)) }
{
    let mut out = stops_text(alloc, slot, address, stops)?;
    out.extend_from_slice(&report(alloc, job, machine)?)?;
    Ok(out)
}

/// The first line of a watch, and a line for each stop.
fn stops_text(alloc: Global, slot: u8, address: u16, stops: &[u32]) -> Result<Vec<u8>, AllocError>
    ensures { IfOk result (λ bytes. bytes.items ≡ stops_text slot address stops.now) }
{
    let mut out = String::new(alloc);
    write_watch(&mut out, slot, address)?;
    write_stops(&mut out, stops)?;
    Ok(out.into_bytes())
}

#[tactic(auto, unfolding(kdf_text::specs::Text::text))]
fn write_watch(out: &mut String, slot: u8, address: u16) -> Result<(), AllocError>
    ensures { OnOk result (Adds out.old out.new (watch_line slot address ∷ [])) }
{
    writeln!(out, "KDF9 WATCH {slot} {address}")
}

#[tactic(auto, unfolding(kdf_text::specs::Text::text))]
fn write_stops(out: &mut String, stops: &[u32]) -> Result<(), AllocError>
    ensures { OnOk result (Adds out.old out.new (map stop_line stops.now)) }
{
    for n in stops {
        writeln!(out, "STOP {n}")?;
    }
    Ok(())
}
