//! Programs that share punches and printers, under twenty schedules: the section of each that is over is the one that it has alone,
//! with the answers that the journal tells.
ghost use Rattle.std.specs.Prelude.{◌≡◌, ◌<◌, ◌≤◌, [], IfOk, length, map};
ghost use Rattle.kdf_place.specs.declared.image.Image.{Image};
ghost use Rattle.kdf_theory.specs.Loading.{HaveImages, slots_of};
ghost use Rattle.kdf_job.specs.Shows.{shown_job, shown_slot};
ghost use Rattle.kdf_job.specs.WellFormed.{IsJob, IsSlot};
ghost use Rattle.kdf_alone.specs.Program.{IsApart};
ghost use Rattle.kdf_report.specs.MadeFrom.{IsProgramOf};

mod jobs;

use crate::jobs::{events_of, images_of, job_of};
use jobs::{JOBS, Shared};
use kdf_alone::Alone;
use kdf_director::{Machine, follow};
use kdf_job::{Job, SlotJob};
use kdf_place::Image;
use kdf_processor::Life;
use kdf_report::{alone_text, sections};
use kdf_service::Service;
use std::alloc::{AllocError, Global};
use std::fmt::Write;
use std::process::Abort;
use std::test::Fail;

/// How many orders a round of a schedule has.
const ORDERS: [u32; 8] = [1, 2, 3, 5, 7, 11, 20, 60];

/// How many rounds a schedule has.
const ROUNDS: u32 = 300;

/// An exchange and the orders of round `i` of schedule `k`.
fn write_orders(out: &mut String, k: u32, i: u32) -> Result<(), AllocError> {
    let orders = ORDERS[(k % 8) as usize];
    let (p, q) = (i % 4, (i / 4 % 4 + k % 4) % 4);
    writeln!(out, "SWAP {p} {q}\nORDERS {orders}")
}

/// The clock of round `i`, in each third schedule.
fn write_clock(out: &mut String, k: u32, i: u32) -> Result<(), AllocError> {
    if k % 3 == 1 {
        writeln!(out, "CLOCK {i}")?;
    }
    Ok(())
}

/// A word of a device that moves or not, and its end in round `i` or in a later one.
fn write_device(out: &mut String, k: u32, i: u32, d: u8) -> Result<(), AllocError> {
    if k % 4 == 2 {
        writeln!(out, "MOVE {d} 1")?;
    }
    if i % (k % 5 + 1) == u32::from(d) % (k % 5 + 1) {
        writeln!(out, "END {d}")?;
    }
    Ok(())
}

/// Round `i` of schedule `k`: an exchange, orders, and then what each device does.
fn write_round(out: &mut String, k: u32, i: u32, devices: &[u8]) -> Result<(), AllocError> {
    write_orders(out, k, i)?;
    write_clock(out, k, i)?;
    for d in devices {
        write_device(out, k, i, *d)?;
    }
    Ok(())
}

/// The job under schedule `k`.
fn job_text(alloc: Global, shared: &Shared, k: u32) -> Result<String, AllocError> {
    let mut out = String::from_str(alloc, shared.front)?;
    out.push_str("SCHEDULE\n")?;
    for i in 0..ROUNDS {
        write_round(&mut out, k, i, shared.devices)?;
    }
    out.push_str("ENDJOB\n")?;
    Ok(out)
}

/// A slot of a job.
#[tactic(auto, using(crate::proofs::Tried::slot_at, crate::proofs::Tried::apart_at))]
fn slot_at(job: &Job, place: usize) -> &SlotJob
    requires job { IsJob (shown_job job.now) }
    requires inside { place < length job.now.slots.items }
    ensures slot { IsSlot (shown_slot result.now) }
    ensures apart { IsApart (shown_slot result.now) }
{
    &job.slots[place]
}

/// The program of a slot, run alone with these answers for so many orders.
fn alone_after(
    alloc: Global,
    slot: &SlotJob,
    image: &Image,
    answers: &[u64],
    orders: u32,
) -> Result<Alone, AllocError>
    requires slot { IsSlot (shown_slot slot.now) }
    requires apart { IsApart (shown_slot slot.now) }
    requires fits { length image.now.words.items ≤ slot.now.size }
    ensures { IfOk result (λ program. IsProgramOf (shown_slot slot.now) program) }
{
    let mut program = Alone::load(alloc, slot, image)?;
    program.orders(answers, orders)?;
    Ok(program)
}

/// The program of a slot, run alone as a machine ran it.
fn lone(
    rt: &impl Abort,
    alloc: Global,
    machine: &Machine,
    slot: &SlotJob,
    image: &Image,
) -> Result<Alone, AllocError>
    requires slot { IsSlot (shown_slot slot.now) }
    requires apart { IsApart (shown_slot slot.now) }
    ensures { IfOk result (λ program. IsProgramOf (shown_slot slot.now) program) }
{
    assert!(rt; image.words.len() <= usize::from(slot.size));
    let answers = machine.journal().answers(alloc, slot.p)?;
    let orders = machine.journal().ran(slot.p);
    alone_after(alloc, slot, image, &answers, orders)
}

/// The section of a program that was run alone is among these.
fn has_section(rt: &impl Abort, sections: &[u8], alone: &[u8], p: u8) {
    assert!(rt; alone.len() > 24);
    let section = &alone[13..alone.len() - 10];
    assert!(rt;
        sections.windows(section.len()).any(|part| part == section),
        "slot {p}"
    );
}

/// The program of a slot is over, and has the section that it has alone among these.
fn compare(
    rt: &impl Abort,
    alloc: Global,
    machine: &Machine,
    slot: &SlotJob,
    image: &Image,
    sections: &[u8],
) -> Result<(), AllocError>
    requires slot { IsSlot (shown_slot slot.now) }
    requires apart { IsApart (shown_slot slot.now) }
{
    let program = lone(rt, alloc, machine, slot, image)?;
    assert!(rt; program.registers().state != Life::Live, "slot {}", slot.p);
    let alone = alone_text(alloc, slot, &program)?;
    has_section(rt, sections, &alone, slot.p);
    Ok(())
}

/// The sections of a machine after the schedule of its job.
fn reported(
    alloc: Global,
    machine: &mut Machine,
    job: &Job,
    images: &[Image],
) -> Result<Vec<u8>, AllocError>
    requires job { IsJob (shown_job job.now) }
    requires images { HaveImages (map shown_slot job.now.slots.items)
        (map (λ (x : Image). x.words.items) images.now) }
    requires slots { machine.old.slots ≡ slots_of (map shown_slot job.now.slots.items)
        (map (λ (x : Image). x.words.items) images.now) }
    requires fresh { machine.old.journal ≡ [] }
    requires room { length job.now.events.items ≤ machine.old.room }
{
    follow(machine, events_of(job), &Service::new(|word: u64| word))?;
    let _journal = machine.journal();
    sections(alloc, job, machine)
}

/// Compares each program of the machine with the same one alone.
fn compare_all(
    rt: &impl Abort,
    alloc: Global,
    machine: &mut Machine,
    job: &Job,
    images: &[Image],
) -> Result<(), AllocError>
    requires job { IsJob (shown_job job.now) }
    requires images { HaveImages (map shown_slot job.now.slots.items)
        (map (λ (x : Image). x.words.items) images.now) }
    requires slots { machine.old.slots ≡ slots_of (map shown_slot job.now.slots.items)
        (map (λ (x : Image). x.words.items) images.now) }
    requires fresh { machine.old.journal ≡ [] }
    requires room { length job.now.events.items ≤ machine.old.room }
{
    let text = reported(alloc, machine, job, images)?;
    assert!(rt; images.len() == job.slots.len());
    for i in 0..job.slots.len() {
        compare(rt, alloc, machine, slot_at(job, i), &images[i], &text)?;
    }
    Ok(())
}

/// Compares the programs of a job.
fn check_job(rt: &impl Abort, alloc: Global, job: &Job) -> Result<(), AllocError>
    requires { IsJob (shown_job job.now) }
{
    let images = images_of(alloc, job)?;
    let mut machine = Machine::load(alloc, job, &images)?;
    let compared = compare_all(rt, alloc, &mut machine, job, &images);
    machine.close();
    compared
}

/// Compares the programs of a job under schedule `k`.
fn check(rt: &impl Abort, alloc: Global, shared: &Shared, k: u32) -> Result<(), AllocError> {
    let text = job_text(alloc, shared, k)?;
    let job = job_of(rt, alloc, text.as_str())?;
    check_job(rt, alloc, &job)
}

/// Compares the programs of a job under twenty schedules.
fn check_each(rt: &impl Abort, alloc: Global, shared: &Shared) {
    let name = shared.name;
    for k in 0..20u32 {
        assert!(rt; check(rt, alloc, shared, k).is_ok(), "{name}, schedule {k}");
    }
}

#[test]
fn programs_of_a_pool_end_as_alone(rt: HostRuntime) -> Result<(), Fail> {
    for shared in &JOBS {
        check_each(&rt, rt.alloc(), shared);
    }
    Ok(())
}
