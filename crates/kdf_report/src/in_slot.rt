//! The program of a slot in a machine.
ghost use Rattle.std.specs.Prelude.{◌≡◌, ◌==◌, is_some, true};
ghost use Rattle.std.specs.List.{list_any};
ghost use Rattle.kdf_theory.specs.MachineView.{state_at, state_of};
ghost use Rattle.kdf_job.specs.Shows.{shown_slot};
ghost use Rattle.kdf_report.specs.Devices.{device_numbers};
ghost use Rattle.kdf_report.specs.MadeFrom.{own_numbers};

use crate::Program;
use kdf_director::Machine;
use kdf_job::SlotJob;
use kdf_processor::{Registers, Spooled};
use kdf_transfer::Device;
use kdf_word::Word;

/// A slot of a job, and a machine that has its program, with exactly the slot's device numbers.
#[derive(Drop)]
pub struct InSlot<'a> {
    pub machine: &'a Machine,
    pub slot: &'a SlotJob,
    ghost there: { is_some (state_of machine.now slot.now.p) ≡ true },
    ghost numbers: { own_numbers (state_at machine.now slot.now.p) ≡ device_numbers (shown_slot slot.now) },
}

impl Program for InSlot<'_> {
    ghost state = { λ x. state_at x.machine.now x.slot.now.p };

    fn registers(&self) -> &Registers {
        self.machine.seen(self.slot.p).unwrap()
    }

    fn word(&self, address: u16) -> Word {
        self.machine.word(self.slot.p, address)
    }

    fn device(&self, d: u8) -> Option<&Device> {
        if has_device(self.slot, d) {
            self.machine.device(d)
        } else {
            None
        }
    }

    fn claimed(&self, d: u8) -> bool {
        self.machine.claimed(d)
    }

    fn stints(&self) -> usize {
        self.machine.stints(self.slot.p)
    }

    fn stint(&self, i: usize) -> (u8, bool, &Device) {
        self.machine.stint(self.slot.p, i)
    }

    fn spooled(&self) -> &[Spooled] {
        self.machine.spooled(self.slot.p)
    }
}

/// Whether the slot has a device of this number.
fn has_device(slot: &SlotJob, d: u8) -> bool
    ensures { result ≡ list_any (λ device. device.0 == d) slot.now.devices.items }
{
    slot.devices.iter().any(|(number, _)| *number == d)
}
