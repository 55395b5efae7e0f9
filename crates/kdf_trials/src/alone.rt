//! A program that runs alone with answers: all orders at once, and order by order.
ghost use Rattle.std.specs.Prelude.{◌≡◌, ◌<◌, length, true};
ghost use Rattle.kdf_alone.specs.Program.{IsApart};
ghost use Rattle.kdf_job.specs.Shows.{shown_job, shown_slot};
ghost use Rattle.kdf_job.specs.WellFormed.{IsJob};
ghost use Rattle.kdf_processor.specs.Lone.{is_live};

use crate::jobs::{images_of, job_of};
use kdf_alone::Alone;
use kdf_job::{Job, SlotJob};
use kdf_place::Image;
use kdf_processor::Life;
use std::alloc::{AllocError, Global};
use std::process::Abort;
use std::test::Fail;

/// Its program asks whether an area is locked out, what time it is, and the installation's service about 7. It ends with its order 11.
const JOB: &str = "KDF9 JOB 1\n\
    SLOT 0\n\
    STORE 32\n\
    DECK\n\
    PROGRAM V0; V0=Q0/0/5; V0; =Q1; TLOQ1; SET 9; OUT; SET 7; SETB100; OUT; ZERO; OUT; FINISH;\n\
    ENDDECK\n\
    SERVICE\n\
    SCHEDULE\n\
    ENDJOB\n";

/// What it is answered. Any answer but 0 says that the area is locked out; a time and a word have 48 bits.
const ANSWERS: [u64; 3] = [7, u64::MAX, 1 << 48 | 5];

/// The slot of a job.
#[tactic(auto, using(crate::proofs::Tried::apart_at))]
fn slot_of(job: &Job) -> &SlotJob
    requires job { IsJob (shown_job job.now) }
    requires inside { 0 < length job.now.slots.items }
    ensures { IsApart (shown_slot result.now) }
{
    &job.slots[0]
}

/// The program of a slot, before its first order.
fn load(rt: &impl Abort, alloc: Global, slot: &SlotJob, image: &Image) -> Result<Alone, AllocError>
    requires { IsApart (shown_slot slot.now) }
{
    assert!(rt; image.words.len() <= usize::from(slot.size));
    Alone::load(alloc, slot, image)
}

/// The program of the job, before its first order.
fn loaded(rt: &impl Abort, alloc: Global) -> Result<Alone, AllocError> {
    let job = job_of(rt, alloc, JOB)?;
    let images = images_of(alloc, &job)?;
    assert!(rt; job.slots.len() == 1 && images.len() == 1);
    load(rt, alloc, slot_of(&job), &images[0])
}

/// A program is live, and has obeyed few orders.
fn is_ready(rt: &impl Abort, program: &Alone)
    ensures live { is_live program.now.registers.state ≡ true }
    ensures few { program.now.registers.ran < 1000 }
{
    assert!(rt; program.registers().state == Life::Live);
    assert!(rt; program.registers().ran < 1000);
}

/// The program has ended with the answers of the service and of the clock on its nest.
fn has_ended(rt: &impl Abort, program: &Alone) {
    let registers = program.registers();
    assert!(rt; registers.state == Life::Ended && registers.ran == 11);
    assert!(rt; registers.flags.tr && registers.nest.depth() == 2);
    assert!(rt; registers.nest.peek(0).bits() == 5);
    assert!(rt; registers.nest.peek(1).bits() == (1 << 48) - 1);
}

#[test]
fn all_orders_at_once(rt: HostRuntime) -> Result<(), Fail> {
    let mut program = loaded(&rt, rt.alloc())?;
    assert!(rt; program.registers().ran == 0);
    program.orders(&ANSWERS, 100)?;
    has_ended(&rt, &program);
    Ok(())
}

#[test]
fn order_by_order(rt: HostRuntime) -> Result<(), Fail> {
    let mut program = loaded(&rt, rt.alloc())?;
    for _ in 0..11 {
        is_ready(&rt, &program);
        program.order(&ANSWERS)?;
    }
    has_ended(&rt, &program);
    Ok(())
}
