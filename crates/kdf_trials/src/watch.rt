//! Runs that watches stop and that are continued: each comes to the report of the run that nobody watched.
ghost use Rattle.std.specs.Prelude.{◌≡◌, ◌%◌, ◌≤◌, ◌==◌, ◌&&◌, ◌||◌, [], length, map, nat_le, sum_by};
ghost use Rattle.kdf_theory.specs.Follows.{entries_in};
ghost use Rattle.kdf_watch.specs.Cursors.{KeepsLimits};
ghost use Rattle.kdf_place.specs.declared.image.Image.{Image};
ghost use Rattle.kdf_service.specs.Rules.{IsService};
ghost use Rattle.kdf_theory.specs.Loading.{HaveImages, slots_of};
ghost use Rattle.kdf_job.specs.Shows.{shown_job, shown_slot};
ghost use Rattle.kdf_job.specs.WellFormed.{IsJob};
ghost use Rattle.kdf_watch.specs.Rules.{IsWatch};

mod jobs;

use crate::jobs::{events_of, images_of, job_of};
use jobs::JOBS;
use kdf_director::{Machine, follow};
use kdf_job::Job;
use kdf_place::Image;
use kdf_report::report;
use kdf_schedule::Event;
use kdf_service::Service;
use kdf_watch::{Cursor, Look, Stop, Watch, go};
use std::alloc::{AllocError, Global};
use std::process::Abort;
use std::test::Fail;

/// How many numbers a half of a word tells apart.
const HALF: u64 = 1 << 24;

/// No run here has so many stops.
const MOST_STOPS: u32 = 1_000;

/// A watch stops after each order, or else after each third order of a program alone, where the next order is at a syllable
/// from the first number on, up to the second.
type Rule = (bool, u16, u16);

/// Never, after each order, after each third, and at one place.
const RULES: [Rule; 4] = [
    (true, 1, 0),
    (true, 0, u16::MAX),
    (false, 0, u16::MAX),
    (true, 6, 6),
];

/// The report of a machine, whose journal is in it.
fn reported(
    alloc: Global,
    job: &Job,
    images: &[Image],
    machine: &Machine,
) -> Result<Vec<u8>, AllocError>
    requires job { IsJob (shown_job job.now) }
    requires images { HaveImages (map shown_slot job.now.slots.items)
        (map (λ (x : Image). x.words.items) images.now) }
    requires slots { machine.now.slots ≡ slots_of (map shown_slot job.now.slots.items)
        (map (λ (x : Image). x.words.items) images.now) }
{
    let _images = images;
    let _journal = machine.journal();
    report(alloc, job, machine)
}

/// A run that a watch stops again and again, and that is continued each time.
fn follow_watched<F: Fn(u64) -> u64, G: Fn(Look) -> bool>(
    machine: &mut Machine,
    events: &[Event],
    service: &Service<F>,
    watch: &Watch<G>,
) -> Result<(), AllocError>
    requires service { IsService (F.pre service.now) (F.post service.now) }
    requires watch { IsWatch (G.pre watch.now) (G.post watch.now) }
    requires limits { KeepsLimits events.now }
    requires fresh { machine.old.journal ≡ [] }
    requires room { sum_by entries_in events.now ≤ machine.old.room }
    ensures { machine.new.slots ≡ machine.old.slots }
{
    let mut cursor = Cursor { event: 0, calls: 0 };
    for _i in 0..MOST_STOPS {
        match go(machine, events, &mut cursor, service, watch)? {
            Stop::Watched(_) => {}
            Stop::Finished => return Ok(()),
        }
    }
    Err(AllocError)
}

/// The report of a run that a watch stops.
fn watched<F: Fn(u64) -> u64, G: Fn(Look) -> bool>(
    alloc: Global,
    job: &Job,
    images: &[Image],
    service: &Service<F>,
    watch: &Watch<G>,
) -> Result<Vec<u8>, AllocError>
    requires job { IsJob (shown_job job.now) }
    requires images { HaveImages (map shown_slot job.now.slots.items)
        (map (λ (x : Image). x.words.items) images.now) }
    requires service { IsService (F.pre service.now) (F.post service.now) }
    requires watch { IsWatch (G.pre watch.now) (G.post watch.now) }
{
    let mut machine = Machine::load(alloc, job, images)?;
    let text = match follow_watched(&mut machine, events_of(job), service, watch) {
        Ok(()) => reported(alloc, job, images, &machine),
        Err(error) => Err(error),
    };
    machine.close();
    text
}

/// The report of a run that a watch stops by this rule.
fn stopped<F: Fn(u64) -> u64>(
    alloc: Global,
    job: &Job,
    images: &[Image],
    service: &Service<F>,
    rule: Rule,
) -> Result<Vec<u8>, AllocError>
    requires job { IsJob (shown_job job.now) }
    requires images { HaveImages (map shown_slot job.now.slots.items)
        (map (λ (x : Image). x.words.items) images.now) }
    requires service { IsService (F.pre service.now) (F.post service.now) }
{
    let (each, first, last) = rule;
    let watch = Watch::new(
        move |look: Look| -> bool
            ensures { result ≡ ((each || look.ran % 3 == 0) && nat_le first look.at && nat_le look.at last) }
        { (each || look.ran % 3 == 0) && first <= look.at && look.at <= last },
    );
    watched(alloc, job, images, service, &watch)
}

/// A run has this report under a watch of each rule.
fn expect_each<F: Fn(u64) -> u64>(
    rt: &impl Abort,
    alloc: Global,
    job: &Job,
    images: &[Image],
    service: &Service<F>,
    due: &[u8],
) -> Result<(), AllocError>
    requires job { IsJob (shown_job job.now) }
    requires images { HaveImages (map shown_slot job.now.slots.items)
        (map (λ (x : Image). x.words.items) images.now) }
    requires service { IsService (F.pre service.now) (F.post service.now) }
{
    for rule in RULES {
        let text = stopped(alloc, job, images, service, rule)?;
        assert_eq!(rt; text.as_slice(), due);
    }
    Ok(())
}

/// The report of a job's run that nobody watches.
fn unwatched<F: Fn(u64) -> u64>(
    alloc: Global,
    job: &Job,
    images: &[Image],
    service: &Service<F>,
) -> Result<Vec<u8>, AllocError>
    requires job { IsJob (shown_job job.now) }
    requires images { HaveImages (map shown_slot job.now.slots.items)
        (map (λ (x : Image). x.words.items) images.now) }
    requires service { IsService (F.pre service.now) (F.post service.now) }
{
    let mut machine = Machine::load(alloc, job, images)?;
    let text = match follow(&mut machine, events_of(job), service) {
        Ok(()) => reported(alloc, job, images, &machine),
        Err(error) => Err(error),
    };
    machine.close();
    text
}

/// The report of a job's run, and its runs under watches.
fn check_job(rt: &impl Abort, alloc: Global, job: &Job) -> Result<(), AllocError>
    requires { IsJob (shown_job job.now) }
{
    let images = images_of(alloc, job)?;
    let service = Service::new(|word: u64| word % HALF * HALF + word / HALF);
    let due = unwatched(alloc, job, &images, &service)?;
    expect_each(rt, alloc, job, &images, &service, &due)
}

fn check(rt: &impl Abort, alloc: Global, text: &str) -> Result<(), AllocError> {
    let job = job_of(rt, alloc, text)?;
    check_job(rt, alloc, &job)
}

#[test]
fn a_watched_run_comes_to_the_same(rt: HostRuntime) -> Result<(), Fail> {
    for (name, text) in JOBS {
        assert!(rt; check(&rt, rt.alloc(), text).is_ok(), "{name}");
    }
    Ok(())
}
