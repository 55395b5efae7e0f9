//! A job, as it was read.
ghost use Rattle.std.specs.Prelude.{◌≡◌, IfOk, map};
ghost use Rattle.std.specs.Option.{option_map};
ghost use Rattle.kdf_transfer.specs.Devices.{fixture_of, progress_of};
ghost use Rattle.kdf_job.specs.Draft.{with_pool};
ghost use Rattle.kdf_job.specs.Job.{JobDevice};
ghost use Rattle.kdf_job.specs.Shows.{shown_device, shown_slot};
ghost use Rattle.kdf_job.specs.Slots.{fixture_on, lent_kind, numbered};

use kdf_journal::Kind;
use kdf_schedule::Event;
use kdf_transfer::Device;
use std::alloc::{AllocError, Global};

/// The most bytes of a text that is read whole: of a job with all that follows it, as `resume` and `check` read it, and of
/// a deck. So offsets and line numbers fit 32 bits.
pub const TEXT_LIMIT: usize = 268_435_456;

/// A job.
#[derive(Drop)]
pub struct Job {
    /// One to four slots, in rising order of their numbers.
    pub slots: Vec<SlotJob>,
    /// The schedule, at most 500,000 events with at most 20,000,000 orders.
    pub events: Vec<Event>,
    /// The punches and printers that are lent out, each with its number, 0 to 15, in the order of their lines.
    pub pool: Vec<(u8, Kind)>,
}

/// What a job says of one slot.
#[derive(Drop)]
pub struct SlotJob {
    /// The slot's number, 0 to 3.
    pub p: u8,
    /// The size of the program's store, in words: 32 to 8,192, a multiple of 32.
    pub size: u16,
    /// The lines of the deck, each with the byte that ends it.
    pub deck: Vec<u8>,
    /// The devices with their numbers, 0 to 15, in the order of their lines. No number stands twice in a job.
    pub devices: Vec<(u8, Device)>,
    /// The first and the last address of each run of words that the report shows.
    pub shows: Vec<(u16, u16)>,
    /// The pool of the job, the same in each slot. No slot has a device of its numbers.
    pub pool: Vec<(u8, Kind)>,
    /// The installation's service answers its program.
    pub served: bool,
}

impl SlotJob {
    /// The device of this number, the first where several have it; None where none has it.
    pub fn device(&self, d: u8) -> Option<&Device>
        ensures fixture { option_map (λ x. fixture_of x.now) result
            ≡ fixture_on (numbered (map shown_device self.now.devices.items) d) }
        ensures progress { option_map (λ x. progress_of x.now) result
            ≡ option_map (λ (x : JobDevice). x.progress) (numbered (map shown_device self.now.devices.items) d) }
    {
        match device_numbered(&self.devices, d) {
            Some(device) => Some(&device.1),
            None => None,
        }
    }

    /// The slot with this pool.
    pub(crate) fn with_pool(
        mut self,
        alloc: Global,
        pool: &[(u8, Kind)],
    ) -> Result<SlotJob, AllocError>
        ensures { IfOk result (λ s. shown_slot s ≡ with_pool pool.now (shown_slot self)) }
    {
        let mut copy = Vec::new(alloc);
        copy.extend_from_slice(pool)?;
        self.pool = copy;
        Ok(self)
    }
}

/// The device of this number with its number, the first where several have it; None where none has it.
pub fn device_numbered(devices: &[(u8, Device)], d: u8) -> Option<&(u8, Device)>
    ensures { option_map (λ x. shown_device x.now) result ≡ numbered (map shown_device devices.now) d }
{
    for device in devices.iter() {
        if device.0 == d {
            return Some(device);
        }
    }
    None
}

/// The kind of the pool's device of this number, the first where several have it; None where none has it.
pub fn kind_lent(pool: &[(u8, Kind)], d: u8) -> Option<Kind>
    ensures { result ≡ lent_kind pool.now d }
{
    for device in pool.iter() {
        if device.0 == d {
            return Some(device.1);
        }
    }
    None
}
