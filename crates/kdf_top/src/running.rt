//! A job under Director.
ghost use Rattle.std.specs.Prelude.{◌≡◌, IfOk};
ghost use Rattle.kdf_job.specs.Shows.{shown_job};
ghost use Rattle.kdf_job.specs.WellFormed.{IsJob};
ghost use Rattle.kdf_theory.specs.Served.{IsJournalFor};
ghost use Rattle.kdf_theory.specs.MachineView.{ShowsSeen};
ghost use Rattle.kdf_service.specs.Rules.{IsService};
ghost use Rattle.kdf_top.specs.Loaded.{HasImages, slots_of};

use kdf_director::{Machine, follow};
use kdf_job::Job;
use kdf_place::Image;
use kdf_service::Service;
use std::alloc::{AllocError, Global};

/// Loads a job and makes the calls of its schedule; the service answers its programs.
pub fn run_job<F: Fn(u64) -> u64>(
    alloc: Global,
    job: &Job,
    images: &[Image],
    service: &Service<F>,
) -> Result<Machine, AllocError>
    requires service { IsService (F.pre service.now) (F.post service.now) }
    requires job { IsJob (shown_job job.now) }
    requires images { HasImages (shown_job job.now).slots images.now }
    ensures slots { IfOk result (λ m. m.slots ≡ slots_of (shown_job job.now)) }
    ensures journal { IfOk result (λ m. IsJournalFor (F.post service.now) m.slots (shown_job job.now).events
        m.journal) }
    ensures seen { IfOk result ShowsSeen }
{
    let mut machine = Machine::load(alloc, job, images)?;
    match follow(&mut machine, &job.events, service) {
        Ok(()) => Ok(machine),
        Err(error) => {
            machine.close();
            Err(error)
        }
    }
}
