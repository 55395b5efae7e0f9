//! A run that is made again, up to where it was saved.
ghost use Rattle.std.specs.Prelude.{◌≡◌, ◌≢◌, ◌^◌, ◌<◌, ◌≤◌, All, drop, false, length, map, sum_by, take, IfErr, IfOk};
ghost use Rattle.kdf_service.specs.Rules.{IsService};
ghost use Rattle.kdf_job.specs.Job.{ShownSlot};
ghost use Rattle.kdf_job.specs.Shows.{shown_job, shown_slot};
ghost use Rattle.kdf_job.specs.WellFormed.{IsJob};
ghost use Rattle.kdf_place.specs.declared.image.Image.{Image};
ghost use Rattle.kdf_theory.specs.Follows.{entries_in};
ghost use Rattle.kdf_theory.specs.Loading.{HaveImages, slots_of};
ghost use Rattle.kdf_theory.specs.Served.{unasked, IsJournalFor};
ghost use Rattle.kdf_theory.specs.MachineView.{ShowsSeen};
ghost use Rattle.kdf_snapshot.specs.Rebuilt.{DiffersFrom, IsRefused};

use crate::differs::first_difference;
use kdf_director::{Machine, follow};
use kdf_job::Job;
use kdf_journal::Entry;
use kdf_place::Image;
use kdf_service::Service;
use std::alloc::Global;

/// The journal of a job has no more entries: at most two for each of 20,000,000 orders and for each of 500,000 other events.
const MOST_ENTRIES: usize = 41_000_000;

/// Why there is no machine whose journal is these entries.
#[derive(Clone, Copy, Debug, PartialEq, Eq)]
pub enum RebuildError {
    /// The journal is another from this place on, counted from 0; where it or the entries are at their end there, the other goes on.
    Differs(u32),
    /// There was no memory.
    Memory,
}

/// The machine of a job without a fault, with the images of its decks and with a service, after its first events, if its journal is these
/// entries. It has room for the later events.
///
/// # Errors
///
/// - `Differs` comes exactly where its journal isn't these entries, and tells the first place at which they differ.
/// - `Memory` comes where there is none.
pub fn rebuild_with<F: Fn(u64) -> u64>(
    alloc: Global,
    job: &Job,
    first: usize,
    images: &[Image],
    entries: &[Entry],
    service: &Service<F>,
) -> Result<Machine, RebuildError>
    requires service { IsService (F.pre service.now) (F.post service.now) }
    requires job { IsJob (shown_job job.now) }
    requires images { HaveImages (map shown_slot job.now.slots.items)
        (map (λ (x : Image). x.words.items) images.now) }
    requires within { first ≤ length job.now.events.items }
    ensures slots { IfOk result (λ m. m.slots ≡ slots_of (map shown_slot job.now.slots.items)
        (map (λ (x : Image). x.words.items) images.now)) }
    ensures journal { IfOk result (λ m. IsJournalFor (F.post service.now) m.slots
        (take first job.now.events.items) m.journal) }
    ensures entries { IfOk result (λ m. m.journal ≡ entries.now) }
    ensures seen { IfOk result ShowsSeen }
    ensures room { IfOk result (λ m. sum_by entries_in (drop first job.now.events.items) ≤ m.room) }
    ensures refused { IfErr result (IsRefused (F.post service.now)
        (slots_of (map shown_slot job.now.slots.items) (map (λ (x : Image). x.words.items) images.now))
        (take first job.now.events.items) entries.now) }
{
    let Ok(mut machine) = Machine::load(alloc, job, images) else {
        return Err(RebuildError::Memory);
    };
    let many = entries.len().min(MOST_ENTRIES) as u32;
    if machine.reserve_entries(many).is_err() {
        machine.close();
        return Err(RebuildError::Memory);
    }
    match follow(&mut machine, &job.events[..first], service) {
        Ok(()) => compared(machine, entries),
        Err(_) => {
            machine.close();
            Err(RebuildError::Memory)
        }
    }
}

/// The machine of a job of which no slot is served, as `rebuild_with` gives it.
///
/// # Errors
///
/// - `Differs` comes exactly where its journal isn't these entries, and tells the first place at which they differ.
/// - `Memory` comes where there is none.
pub fn rebuild(
    alloc: Global,
    job: &Job,
    first: usize,
    images: &[Image],
    entries: &[Entry],
) -> Result<Machine, RebuildError>
    requires job { IsJob (shown_job job.now) }
    requires images { HaveImages (map shown_slot job.now.slots.items)
        (map (λ (x : Image). x.words.items) images.now) }
    requires unserved { All (λ (slot : ShownSlot). slot.served ≡ false) (map shown_slot job.now.slots.items) }
    requires within { first ≤ length job.now.events.items }
    ensures slots { IfOk result (λ m. m.slots ≡ slots_of (map shown_slot job.now.slots.items)
        (map (λ (x : Image). x.words.items) images.now)) }
    ensures journal { IfOk result (λ m. IsJournalFor unasked m.slots
        (take first job.now.events.items) m.journal) }
    ensures entries { IfOk result (λ m. m.journal ≡ entries.now) }
    ensures seen { IfOk result ShowsSeen }
    ensures room { IfOk result (λ m. sum_by entries_in (drop first job.now.events.items) ≤ m.room) }
    ensures refused { IfErr result (IsRefused unasked
        (slots_of (map shown_slot job.now.slots.items) (map (λ (x : Image). x.words.items) images.now))
        (take first job.now.events.items) entries.now) }
{
    let service = Service::new(|word| word);
    rebuild_with(alloc, job, first, images, entries, &service)
}

/// The machine, if its journal is these entries.
fn compared(machine: Machine, entries: &[Entry]) -> Result<Machine, RebuildError>
    requires { length machine.journal < 2 ^ 32 }
    ensures machine { IfOk result (λ m. m ≡ machine) }
    ensures entries { IfOk result (λ m. machine.journal ≡ entries.now) }
    ensures refused { IfErr result (DiffersFrom machine.journal entries.now) }
    ensures told { IfErr result (λ e. e ≢ RebuildError.Memory) }
{
    match first_difference(machine.journal().entries(), entries) {
        None => Ok(machine),
        Some(place) => {
            machine.close();
            Err(RebuildError::Differs(place as u32))
        }
    }
}
