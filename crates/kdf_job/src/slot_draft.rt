//! A slot that is being read.
ghost use Rattle.std.specs.Prelude.{◌≡◌, ◌==◌, ◌+◌, ◌^◌, ◌<◌, ◌++◌, [], ◌∷◌, Some, None, IfOk, OnOk, length, map, is_none, if◌then◌else◌};
ghost use Rattle.std.specs.Option.{option_map, option_to_list};
ghost use Rattle.std.specs.List.{list_any};
ghost use Rattle.kdf_job.specs.Adding.{IsChecked};
ghost use Rattle.kdf_job.specs.Draft.{all_devices, labels_with, new_slot, slot_of, tells, with_line_of_medium};
ghost use Rattle.kdf_job.specs.Forms.{ADeckLine, AMedium, AService, AShow};
ghost use Rattle.kdf_job.specs.Lengths.{slot_length};
ghost use Rattle.kdf_job.specs.Media.{new_device};
ghost use Rattle.kdf_job.specs.Shows.{shown_device, shown_device_draft, shown_slot, shown_slot_draft};
ghost use Rattle.kdf_job.specs.declared.fault.JobFault.TheVariants.{BadMedium};

use crate::device_draft::DeviceDraft;
use crate::forms::MediumLine;
use crate::{JobFault, LineError, SlotJob};
use kdf_journal::Kind;
use kdf_text::LINE_END;
use kdf_transfer::Device;
use kdf_word::Word;
use std::alloc::{AllocError, Global};

/// A slot that is being read.
#[derive(Drop)]
pub struct SlotDraft {
    pub p: u8,
    /// The size of its store, in words.
    pub size: u16,
    deck: Vec<u8>,
    /// The devices whose media are read.
    devices: Vec<(u8, Device)>,
    /// The device after them, whose medium may go on.
    device: Option<DeviceDraft>,
    /// The labels of its tapes.
    labels: Vec<Word>,
    shows: Vec<(u16, u16)>,
    /// The installation's service answers its program.
    served: bool,
}

impl SlotDraft {
    /// A slot of which the number and the size are known.
    pub fn new(alloc: Global, p: u8, size: u16) -> SlotDraft
        ensures { shown_slot_draft result ≡ new_slot p size }
    {
        SlotDraft {
            p,
            size,
            deck: Vec::new(alloc),
            devices: Vec::new(alloc),
            device: None,
            labels: Vec::new(alloc),
            shows: Vec::new(alloc),
            served: false,
        }
    }

    /// Adds a line to its deck.
    pub fn add_deck_line(&mut self, text: &[u8]) -> Result<(), AllocError>
        ensures { OnOk result (shown_slot_draft self.new
            ≡ tells (ADeckLine text.now) (shown_slot_draft self.old)) }
    {
        self.deck.extend_from_slice(text)?;
        self.deck.push(LINE_END)?;
        Ok(())
    }

    /// Has the slot served.
    pub fn add_service(&mut self)
        ensures { shown_slot_draft self.new ≡ tells AService (shown_slot_draft self.old) }
    {
        self.served = true;
    }

    /// Adds addresses that are shown.
    pub fn add_show(&mut self, first: u16, last: u16) -> Result<(), AllocError>
        ensures { OnOk result (shown_slot_draft self.new
            ≡ tells (AShow first last) (shown_slot_draft self.old)) }
    {
        self.shows.push((first, last))?;
        Ok(())
    }

    /// A tape of this label is one of its devices.
    pub fn has_label(&self, label: Word) -> bool
        ensures { result ≡ list_any (λ other. label == other) (shown_slot_draft self.now).labels }
    {
        self.labels.iter().any(|other| label.bits() == other.bits())
    }

    /// Adds a device. The label counts for magnetic tape alone.
    pub fn add_device(
        &mut self,
        alloc: Global,
        d: u8,
        kind: Kind,
        label: Word,
    ) -> Result<(), AllocError>
        ensures { OnOk result (shown_slot_draft self.new ≡ record (shown_slot_draft self.old) {
          devices = all_devices (shown_slot_draft self.old);
          device = Some (new_device d kind label);
          labels = labels_with kind label (shown_slot_draft self.old).labels;
        }) }
    {
        self.settle(alloc)?;
        self.add_label(kind, label)?;
        self.device = Some(DeviceDraft::new(alloc, d, kind, label));
        Ok(())
    }

    /// Puts the device whose medium was read after the others.
    fn settle(&mut self, alloc: Global) -> Result<(), AllocError>
        ensures { OnOk result (shown_slot_draft self.new ≡ record (shown_slot_draft self.old) {
          devices = all_devices (shown_slot_draft self.old);
          device = None;
        }) }
    {
        push_last(alloc, &mut self.devices, self.device.take())
    }

    /// Keeps a tape's label.
    fn add_label(&mut self, kind: Kind, label: Word) -> Result<(), AllocError>
        ensures { OnOk result (shown_slot_draft self.new ≡ record (shown_slot_draft self.old) {
          labels = labels_with kind label (shown_slot_draft self.old).labels;
        }) }
    {
        if kind == Kind::Mt {
            self.labels.push(label)?;
        }
        Ok(())
    }

    /// Adds a line to the medium of its last device.
    pub fn add_medium_line(&mut self, alloc: Global, line: MediumLine<'_>) -> Result<(), LineError>
        requires { slot_length (shown_slot_draft self.old) + length line.text.now + 1 < 2 ^ 32 }
        ensures { IsChecked
            (if is_none (with_line_of_medium line.entry.marked line.entry.text.now
            (shown_slot_draft self.old).device) then Some BadMedium else None)
            (tells (AMedium line.entry.marked line.entry.text.now) (shown_slot_draft self.old))
            (shown_slot_draft self.new) result }
    {
        match &mut self.device {
            Some(device) => device.add_line(alloc, line),
            None => Err(LineError::Fault(JobFault::BadMedium)),
        }
    }

    /// The slot, when all its lines are read.
    pub fn finish(mut self, alloc: Global) -> Result<SlotJob, AllocError>
        ensures { IfOk result (λ s. shown_slot s ≡ slot_of (shown_slot_draft self)) }
    {
        let last = self.device;
        push_last(alloc, &mut self.devices, last)?;
        Ok(SlotJob {
            p: self.p,
            size: self.size,
            deck: self.deck,
            devices: self.devices,
            shows: self.shows,
            pool: Vec::new(alloc),
            served: self.served,
        })
    }
}

/// Puts the last device, whose medium was read, after the others.
fn push_last(
    alloc: Global,
    devices: &mut Vec<(u8, Device)>,
    last: Option<DeviceDraft>,
) -> Result<(), AllocError>
    ensures { OnOk result (map shown_device devices.new.items
        ≡ map shown_device devices.old.items ++ option_to_list (option_map shown_device_draft last)) }
{
    if let Some(device) = last {
        devices.push(device.finish(alloc)?)?;
    }
    Ok(())
}
