//! The facts of a run.
ghost use Rattle.std.specs.Prelude.{◌≡◌, ◌≤◌, ◌<◌, ◌^◌, ◌++◌, All, IfOk, OnOk, length, map, string_bytes};
ghost use Rattle.kdf_account.specs.Moments.{entries_of};
ghost use Rattle.kdf_facts.specs.Run.{IsRunTold, TellsRun, between, opening, run_front};
ghost use Rattle.kdf_job.specs.Shows.{shown_job, shown_slot};
ghost use Rattle.kdf_job.specs.WellFormed.{IsJob};
ghost use Rattle.kdf_job.specs.declared.job.TheConstants.{TEXT_LIMIT};
ghost use Rattle.kdf_job.specs.Job.{ShownSlot};
ghost use Rattle.kdf_journal.specs.Counts.{calls};
ghost use Rattle.kdf_report.specs.MadeFrom.{HasProgram};
ghost use Rattle.kdf_service.specs.Rules.{IsService};
ghost use Rattle.kdf_top.specs.Loaded.{HasImages};

use crate::devices::write_devices;
use crate::printed::{Printed, write_printed};
use crate::programs::write_programs;
use crate::running::{load_machine, run_job};
use crate::slots::{next_turn, write_slots};
use kdf_account::{Account, Moment, free_of, write_calls, write_moments};
use kdf_causes::Ending;
use kdf_director::Machine;
use kdf_job::{Job, SlotJob};
use kdf_journal::Journal;
use kdf_json::{deck_line, write_number};
use kdf_listing::{Deck, lay_out};
use kdf_place::Image;
use kdf_service::Service;
use kdf_trace::{
    Backdrop, Past, Retrace, Story, keep_last, looks_for, orders_of_live, write_asks,
    write_flights, write_holds, write_loans,
};
use std::alloc::{AllocError, Global};
use std::fmt::Write;

/// What a run is made of: the bytes of its job, the job, and the images of its decks.
#[derive(Clone, Copy)]
pub struct Loaded<'a> {
    pub bytes: &'a [u8],
    pub job: &'a Job,
    pub images: &'a [Image],
}

/// The facts of the run of a job, with what the program prints of it.
pub fn run_facts<F: Fn(u64) -> u64>(
    alloc: Global,
    loaded: Loaded<'_>,
    printed: Printed,
    service: &Service<F>,
) -> Result<String, AllocError>
    requires service { IsService (F.pre service.now) (F.post service.now) }
    requires few { length loaded.bytes.now ≤ TEXT_LIMIT }
    requires job { IsJob (shown_job loaded.job.now) }
    requires images { HasImages (shown_job loaded.job.now).slots loaded.images.now }
    ensures { IfOk result (λ text. IsRunTold (F.post service.now) (shown_job loaded.entry.job.now) (string_bytes text)) }
{
    let mut pasts = Vec::new(alloc);
    let machine = run_job(alloc, loaded.job, loaded.images, service, &mut pasts)?;
    let told = told_by(alloc, loaded, printed, &machine, pasts, service);
    machine.close();
    told
}

/// The facts that a machine tells after its run, of which these last orders were noted. It has the program of each slot.
pub fn told_by<F: Fn(u64) -> u64>(
    alloc: Global,
    loaded: Loaded<'_>,
    printed: Printed,
    machine: &Machine,
    pasts: Vec<Past>,
    service: &Service<F>,
) -> Result<String, AllocError>
    requires service { IsService (F.pre service.now) (F.post service.now) }
    requires few { length loaded.bytes.now ≤ TEXT_LIMIT }
    requires job { IsJob (shown_job loaded.job.now) }
    requires images { HasImages (shown_job loaded.job.now).slots loaded.images.now }
    requires programs { All (HasProgram machine.now) (map shown_slot loaded.job.now.slots.items) }
    ensures { IfOk result (λ text. TellsRun (shown_job loaded.entry.job.now) machine.now.journal (string_bytes text)) }
{
    let decks = decks_of(alloc, loaded.bytes, &loaded.job.slots)?;
    let (pasts, live) = keep_last(alloc, pasts, orders_of_live(machine))?;
    let world = Backdrop {
        decks: &decks,
        pool: &loaded.job.pool,
        live,
    };
    let _all = machine.journal().calls();
    let (story, account) = story_of(alloc, loaded, machine.journal(), world, pasts, service)?;
    let mut rest = rest_text(alloc, loaded, machine, &story, &decks)?;
    write_printed(alloc, &mut rest, loaded, printed, machine)?;
    run_text(alloc, loaded.job, account.moments(), &rest)
}

/// The text of a run: its moments, what became of the calls for each program, and the rest.
fn run_text(
    alloc: Global,
    job: &Job,
    moments: &[Moment],
    rest: &String,
) -> Result<String, AllocError>
    requires { calls (entries_of moments.now) < 2 ^ 32 }
    ensures { IfOk result (λ text. string_bytes text
        ≡ run_front (shown_job job.now) moments.now ++ string_bytes rest.now) }
{
    let mut out = String::new(alloc);
    let slots = numbers_of(alloc, &job.slots)?;
    write_opening(&mut out)?;
    write_moments(&mut out, moments)?;
    write_between(&mut out)?;
    write_calls(&mut out, &slots, free_of(&job.pool), moments)?;
    out.push_str(rest.as_str())?;
    Ok(out)
}

/// Writes what stands before the moments of a run.
fn write_opening(out: &mut String) -> Result<(), AllocError>
    ensures { OnOk result (string_bytes out.new ≡ string_bytes out.old ++ opening) }
{
    write!(
        out,
        "{{\"format\":\"kdf9-facts 1\",\"kind\":\"run\",\"entries\":[\n"
    )
}

/// Writes what stands between the moments and the calls.
fn write_between(out: &mut String) -> Result<(), AllocError>
    ensures { OnOk result (string_bytes out.new ≡ string_bytes out.old ++ between) }
{
    write!(out, "],\n\"calls\":[")
}

/// The numbers of the slots of a job.
fn numbers_of(alloc: Global, slots: &[SlotJob]) -> Result<Vec<u8>, AllocError>
    ensures { IfOk result (λ numbers. numbers.items ≡ map (λ (s : ShownSlot). s.p) (map shown_slot slots.now)) }
{
    let mut numbers = Vec::new(alloc);
    for slot in slots {
        numbers.push(slot.p)?;
    }
    Ok(numbers)
}

/// The decks of a job.
fn decks_of<'a>(
    alloc: Global,
    bytes: &[u8],
    slots: &'a [SlotJob],
) -> Result<Vec<Deck<'a>>, AllocError>
    requires few { length bytes.now ≤ TEXT_LIMIT }
{
    let mut decks = Vec::new(alloc);
    for slot in slots {
        decks.push(Deck {
            p: slot.p,
            layout: lay_out(alloc, &slot.deck, deck_line(bytes, slot.p))?,
        })?;
    }
    Ok(decks)
}

/// Goes through a journal with a machine of its own.
fn story_of<F: Fn(u64) -> u64>(
    alloc: Global,
    loaded: Loaded<'_>,
    journal: &Journal,
    world: Backdrop<'_, '_>,
    pasts: Vec<Past>,
    service: &Service<F>,
) -> Result<(Story, Account), AllocError>
    requires service { IsService (F.pre service.now) (F.post service.now) }
    requires job { IsJob (shown_job loaded.job.now) }
    requires images { HasImages (shown_job loaded.job.now).slots loaded.images.now }
    ensures { IfOk result (λ x. entries_of x.1 ≡ journal.now.entries) }
{
    let mut retrace = Retrace {
        machine: load_machine(alloc, loaded.job, loaded.images)?,
        due: 0,
        looks: looks_for(journal.entries(), world.live),
    };
    let gone = go_through(alloc, &mut retrace, journal, world, pasts, service);
    retrace.close();
    gone
}

/// Goes through a journal with a machine that was loaded from the same job.
fn go_through<F: Fn(u64) -> u64>(
    alloc: Global,
    retrace: &mut Retrace,
    journal: &Journal,
    world: Backdrop<'_, '_>,
    pasts: Vec<Past>,
    service: &Service<F>,
) -> Result<(Story, Account), AllocError>
    requires service { IsService (F.pre service.now) (F.post service.now) }
    ensures { IfOk result (λ x. entries_of x.1 ≡ journal.now.entries) }
{
    let mut story = Story::new(alloc, world.pool, pasts);
    let mut account = Account::new(alloc);
    let _all = journal.calls();
    for entry in journal.entries() {
        let unlocked = story.take(account.calls(), *entry, retrace, world, service)?;
        account.push(*entry, unlocked, story.free)?;
    }
    Ok((story, account))
}

/// What is told of a run after its moments and calls.
fn rest_text(
    alloc: Global,
    loaded: Loaded<'_>,
    machine: &Machine,
    story: &Story,
    decks: &[Deck<'_>],
) -> Result<String, AllocError>
    requires { length loaded.bytes.now ≤ TEXT_LIMIT }
{
    let job = loaded.job;
    let mut out = String::new(alloc);
    write_end(&mut out, machine.journal())?;
    out.push_str("\"programs\":[")?;
    let ending = Ending {
        story,
        pool: &job.pool,
    };
    write_programs(alloc, &mut out, decks, machine, ending, loaded)?;
    out.push_str("],\n\"next\":")?;
    write_number(&mut out, next_turn(machine, ending))?;
    out.push_str(",\n\"slots\":[")?;
    write_slots(&mut out, loaded.bytes, &job.slots)?;
    out.push_str("],\n\"devices\":[")?;
    write_devices(&mut out, job, &story.flights, machine.journal().calls())?;
    write_story(&mut out, story, decks)?;
    Ok(out)
}

/// Writes how a run ended: how many calls there were, the time, and the slots, the highest priority first.
fn write_end(out: &mut String, journal: &Journal) -> Result<(), AllocError> {
    let all = journal.calls();
    let time = journal.clock();
    let [first, second, third, fourth] = journal.priorities();
    write!(out, "],\n\"made\":{all},\"time\":{time},")?;
    write!(out, "\"priorities\":[{first},{second},{third},{fourth}],\n")
}

/// Writes the transfers, holds, questions and loans of a run, and how many calls were idle or overlapped a transfer.
fn write_story(out: &mut String, story: &Story, decks: &[Deck<'_>]) -> Result<(), AllocError> {
    out.push_str("],\n\"transfers\":[")?;
    write_flights(out, &story.flights, decks)?;
    out.push_str("],\n\"holds\":[")?;
    write_holds(out, &story.holds)?;
    out.push_str("],\n\"asks\":[")?;
    write_asks(out, &story.asks, decks)?;
    out.push_str("],\n\"loans\":[")?;
    write_loans(out, &story.loans)?;
    let idle = story.idle;
    let meanwhile = story.meanwhile;
    write!(out, "],\n\"idle\":{idle},\"meanwhile\":{meanwhile},\n")
}
