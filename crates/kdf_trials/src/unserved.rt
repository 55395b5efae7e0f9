//! What needs no service: a call of a machine, a run that is made again, and the check of a report.
ghost use Rattle.std.specs.Prelude.{◌≡◌, All, IfOk, false, map, true};
ghost use Rattle.kdf_place.specs.declared.image.Image.{Image};
ghost use Rattle.kdf_theory.specs.Loading.{HaveImages, slots_of};
ghost use Rattle.kdf_theory.specs.Slots.{NoneServed};
ghost use Rattle.kdf_job.specs.Job.{ShownSlot};
ghost use Rattle.kdf_job.specs.Shows.{shown_job, shown_slot};
ghost use Rattle.kdf_job.specs.WellFormed.{IsJob};

use crate::jobs::{images_of, job_of};
use kdf_check::{Verdict, check};
use kdf_director::{Machine, Progress};
use kdf_job::{Job, SlotJob};
use kdf_journal::{CALL_LIMIT, Entry};
use kdf_place::Image;
use kdf_snapshot::{RebuildError, rebuild};
use std::alloc::{AllocError, Global};
use std::process::Abort;
use std::test::Fail;

/// Four orders of a program.
const JOB: &str = "KDF9 JOB 1\n\
    SLOT 0\n\
    STORE 32\n\
    DECK\n\
    PROGRAM; 1; J1; FINISH;\n\
    ENDDECK\n\
    SCHEDULE\n\
    ORDERS 4\n\
    ENDJOB\n";

/// Its report, as far as it is checked.
const REPORT: &[u8] = b"KDF9 REPORT 1\nRAN 0 4\nSLOT 0\n";

/// The job, of which no slot is served.
#[tactic(auto, using(crate::proofs::Tried::shown_unserved))]
fn unserved(rt: &impl Abort, alloc: Global) -> Result<Job, AllocError>
    ensures job { IfOk result (λ job. IsJob (shown_job job)) }
    ensures unserved { IfOk result (λ job.
        All (λ (slot : ShownSlot). slot.served ≡ false) (map shown_slot job.slots.items)) }
{
    let job = job_of(rt, alloc, JOB)?;
    assert!(rt; are_unserved(&job.slots));
    Ok(job)
}

/// Whether no slot is served.
fn are_unserved(slots: &[SlotJob]) -> bool
    ensures { result ≡ true → All (λ slot. slot.served ≡ false) slots.now }
{
    slots.iter().all(|slot| !slot.served)
}

/// The first call of a machine.
fn first_call(rt: &impl Abort, machine: &mut Machine) -> Result<(), AllocError>
    requires { NoneServed machine.old.slots }
{
    assert!(rt; machine.journal().calls() < CALL_LIMIT);
    let progress = machine.order()?;
    assert!(rt; progress == Progress::Ran(0));
    Ok(())
}

/// The machine of a job makes a call.
#[tactic(auto, using(crate::proofs::Tried::none_served))]
fn goes(rt: &impl Abort, alloc: Global, job: &Job, images: &[Image]) -> Result<(), AllocError>
    requires job { IsJob (shown_job job.now) }
    requires unserved { All (λ (slot : ShownSlot). slot.served ≡ false) (map shown_slot job.now.slots.items) }
    requires images { HaveImages (map shown_slot job.now.slots.items)
        (map (λ (x : Image). x.words.items) images.now) }
{
    let mut machine = Machine::load(alloc, job, images)?;
    let gone = first_call(rt, &mut machine);
    machine.close();
    gone
}

/// What comes of making the run of a job again whose only entry is to be this.
fn made_again(
    rt: &impl Abort,
    alloc: Global,
    job: &Job,
    images: &[Image],
    entry: Entry,
) -> Result<(), RebuildError>
    requires job { IsJob (shown_job job.now) }
    requires unserved { All (λ (slot : ShownSlot). slot.served ≡ false) (map shown_slot job.now.slots.items) }
    requires images { HaveImages (map shown_slot job.now.slots.items)
        (map (λ (x : Image). x.words.items) images.now) }
{
    assert!(rt; job.events.len() == 1);
    rebuild(alloc, job, 1, images, &[entry])?.close();
    Ok(())
}

/// The run is made again with the entry of its journal, and differs from another.
fn is_made_again(rt: &impl Abort, alloc: Global, job: &Job, images: &[Image])
    requires job { IsJob (shown_job job.now) }
    requires unserved { All (λ (slot : ShownSlot). slot.served ≡ false) (map shown_slot job.now.slots.items) }
    requires images { HaveImages (map shown_slot job.now.slots.items)
        (map (λ (x : Image). x.words.items) images.now) }
{
    let again = made_again(rt, alloc, job, images, Entry::Ran { p: 0, n: 4 });
    assert!(rt; again == Ok(()));
    let other = made_again(rt, alloc, job, images, Entry::Ran { p: 0, n: 3 });
    assert!(rt; other == Err(RebuildError::Differs(0)));
}

/// The report is that of the job.
#[tactic(auto, using(crate::proofs::Tried::none_served))]
fn is_checked(rt: &impl Abort, alloc: Global, job: &Job, images: &[Image]) -> Result<(), AllocError>
    requires job { IsJob (shown_job job.now) }
    requires unserved { All (λ (slot : ShownSlot). slot.served ≡ false) (map shown_slot job.now.slots.items) }
    requires images { HaveImages (map shown_slot job.now.slots.items)
        (map (λ (x : Image). x.words.items) images.now) }
{
    assert!(rt; REPORT.len() < 100);
    let verdict = check(alloc, job, images, REPORT)?;
    assert!(rt; verdict == Verdict::Yes);
    Ok(())
}

#[test]
fn jobs_without_a_service(rt: HostRuntime) -> Result<(), Fail> {
    let job = unserved(&rt, rt.alloc())?;
    let images = images_of(rt.alloc(), &job)?;
    goes(&rt, rt.alloc(), &job, &images)?;
    is_made_again(&rt, rt.alloc(), &job, &images);
    is_checked(&rt, rt.alloc(), &job, &images)?;
    Ok(())
}
