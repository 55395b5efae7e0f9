//! A job that is loaded and run under Director.
ghost use Rattle.std.specs.Prelude.{◌≡◌, [], IfOk, length};
ghost use Rattle.kdf_job.specs.Shows.{shown_job};
ghost use Rattle.kdf_job.specs.WellFormed.{IsJob};
ghost use Rattle.kdf_theory.specs.Served.{IsJournalFor};
ghost use Rattle.kdf_theory.specs.MachineView.{ShowsSeen};
ghost use Rattle.kdf_service.specs.Rules.{IsService};
ghost use Rattle.kdf_top.specs.Loaded.{HasImages, slots_of};

use kdf_director::Machine;
use kdf_job::Job;
use kdf_place::Image;
use kdf_service::Service;
use kdf_trace::{Past, follow_noting};
use kdf_watch::stops_at;
use std::alloc::{AllocError, Global};

/// The machine of a job before its first order, which has room for the events of its schedule.
pub fn load_machine(alloc: Global, job: &Job, images: &[Image]) -> Result<Machine, AllocError>
    requires job { IsJob (shown_job job.now) }
    requires images { HasImages (shown_job job.now).slots images.now }
    ensures slots { IfOk result (λ m. m.slots ≡ slots_of (shown_job job.now)) }
    ensures journal { IfOk result (λ m. m.journal ≡ []) }
    ensures room { IfOk result (λ m. m.room ≡ length job.now.events.items) }
{
    Machine::load(alloc, job, images)
}

/// Loads a job and makes the calls of its schedule; the service answers its programs. Last orders of them are noted.
pub fn run_job<F: Fn(u64) -> u64>(
    alloc: Global,
    job: &Job,
    images: &[Image],
    service: &Service<F>,
    pasts: &mut Vec<Past>,
) -> Result<Machine, AllocError>
    requires service { IsService (F.pre service.now) (F.post service.now) }
    requires job { IsJob (shown_job job.now) }
    requires images { HasImages (shown_job job.now).slots images.now }
    ensures slots { IfOk result (λ m. m.slots ≡ slots_of (shown_job job.now)) }
    ensures journal { IfOk result (λ m. IsJournalFor (F.post service.now) m.slots (shown_job job.now).events
        m.journal) }
    ensures seen { IfOk result ShowsSeen }
{
    let mut machine = load_machine(alloc, job, images)?;
    match follow_noting(alloc, &mut machine, &job.events, service, pasts) {
        Ok(()) => Ok(machine),
        Err(error) => {
            machine.close();
            Err(error)
        }
    }
}

/// Loads a job and makes the calls of its schedule, and tells after which of its own orders, counted from 1, the program of a slot was to go on at the
/// syllable of this number; the service answers the programs.
pub fn stops_of<F: Fn(u64) -> u64>(
    alloc: Global,
    job: &Job,
    images: &[Image],
    p: u8,
    at: u16,
    service: &Service<F>,
) -> Result<Vec<u32>, AllocError>
    requires service { IsService (F.pre service.now) (F.post service.now) }
    requires job { IsJob (shown_job job.now) }
    requires images { HasImages (shown_job job.now).slots images.now }
{
    let mut machine = load_machine(alloc, job, images)?;
    let stops = stops_at(alloc, &mut machine, &job.events, service, p, at);
    machine.close();
    stops
}
