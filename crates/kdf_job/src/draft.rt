//! What the lines so far tell of a job.
ghost use Rattle.std.specs.Prelude.{◌≡◌, ◌==◌, ◌+◌, ◌≤◌, ◌<◌, ◌^◌, ◌++◌, [], ◌∷◌, None, Some, IfOk, OnOk, length, map};
ghost use Rattle.std.specs.List.{list_any};
ghost use Rattle.std.specs.Option.{option_map, option_to_list};
ghost use Rattle.kdf_job.specs.Adding.{IsChecked};
ghost use Rattle.kdf_job.specs.Draft.{blank, device_fault, device_so_far, job_of, label_fault, labels_so_far, lent_fault, medium_fault, new_slot, numbers_told, pool_fault, show_fault, size_so_far, slot_fault, slot_of, slots_told, store_fault, tape_fault, tells, with_line, with_pool};
ghost use Rattle.kdf_job.specs.Forms.{ADeckLine, ADevice, AMedium, APoolDevice, AService, AShow, AStore, told_at};
ghost use Rattle.kdf_job.specs.Lengths.{kept_length};
ghost use Rattle.kdf_job.specs.Media.{word_of_text};
ghost use Rattle.kdf_job.specs.Shows.{shown_draft, shown_job, shown_slot, shown_slot_draft};
ghost use Rattle.kdf_job.specs.Taking.{IsSound, Takes};
ghost use Rattle.kdf_job.specs.WellFormed.{IsJob};
ghost use Rattle.kdf_job.specs.declared.line_place.LinePlace.TheVariants.{BehindEnd, BehindSlot, BehindStore, InSchedule};

use crate::forms::{DeviceLine, MediumLine};
use crate::media::is_label;
use crate::schedule::Schedule;
use crate::slot_draft::SlotDraft;
use crate::{Job, JobFault, LineError, LinePlace, SlotJob};
use kdf_journal::Kind;
use kdf_limits::{GROUP_WORDS, PROGRAM_WORDS, PROGRAMS_WORDS};
use kdf_schedule::Event;
use kdf_word::Word;
use std::alloc::{AllocError, Global};

/// What the lines so far tell of a job, and where the next line stands.
#[derive(Drop)]
pub struct Draft {
    pub place: LinePlace,
    /// The slots of which all lines are read.
    slots: Vec<SlotJob>,
    /// The slot after them.
    slot: Option<SlotDraft>,
    /// The sum of the sizes of all stores.
    words: u32,
    /// The numbers of all devices, those of the pool too.
    numbers: Vec<u8>,
    /// The devices of the pool.
    pool: Vec<(u8, Kind)>,
    schedule: Schedule,
}

impl Draft {
    /// Nothing is read.
    #[tactic(auto, using(crate::proofs::Begins::blank_sound))]
    pub fn new(alloc: Global) -> Draft
        ensures shown { shown_draft result ≡ blank }
        ensures sound { IsSound result }
    {
        Draft {
            place: LinePlace::First,
            slots: Vec::new(alloc),
            slot: None,
            words: 0,
            numbers: Vec::new(alloc),
            pool: Vec::new(alloc),
            schedule: Schedule::new(alloc),
        }
    }

    /// What is wrong with the number of a slot.
    pub fn slot_fault(&self, p: u8) -> Option<JobFault>
        ensures { result ≡ slot_fault p (shown_draft self.now).slot }
    {
        match &self.slot {
            Some(slot) if slot.p >= p => Some(JobFault::SlotOrder),
            _ => None,
        }
    }

    /// What is wrong with the size of a store.
    pub fn store_fault(&self, size: u16) -> Option<JobFault>
        requires sound { IsSound self.now }
        requires most { size ≤ PROGRAM_WORDS }
        ensures { result ≡ store_fault size (slots_told (shown_draft self.now)) }
    {
        if size % GROUP_WORDS != 0 {
            Some(JobFault::SizeNotGroups)
        } else if self.words + u32::from(size) > PROGRAMS_WORDS {
            Some(JobFault::StoreFull)
        } else {
            None
        }
    }

    /// Begins a slot.
    pub fn add_slot(&mut self, alloc: Global, p: u8, size: u16) -> Result<(), AllocError>
        requires place { self.old.place ≡ BehindSlot p }
        requires fits { self.old.words + size ≤ PROGRAMS_WORDS }
        ensures shown { OnOk result (shown_draft self.new
            ≡ with_line (AStore size) (shown_draft self.old)) }
        ensures words { OnOk result (self.new.words ≡ self.old.words + size) }
        ensures numbers { OnOk result (self.new.numbers.items ≡ self.old.numbers.items) }
    {
        self.finish_slot(alloc)?;
        self.begin_slot(alloc, p, size);
        self.words += u32::from(size);
        Ok(())
    }

    /// Begins a slot, of which the lines that follow tell.
    fn begin_slot(&mut self, alloc: Global, p: u8, size: u16)
        ensures shown { shown_draft self.new ≡ record (shown_draft self.old) {
          place = BehindStore;
          slot = Some (new_slot p size);
        } }
        ensures words { self.new.words ≡ self.old.words }
        ensures numbers { self.new.numbers.items ≡ self.old.numbers.items }
    {
        self.slot = Some(SlotDraft::new(alloc, p, size));
        self.place = LinePlace::BehindStore;
    }

    /// Puts the slot of which all lines are read after the others.
    fn finish_slot(&mut self, alloc: Global) -> Result<(), AllocError>
        ensures shown { OnOk result (shown_draft self.new ≡ record (shown_draft self.old) {
          slots = slots_told (shown_draft self.old);
          slot = None;
        }) }
        ensures place { self.new.place ≡ self.old.place }
        ensures words { self.new.words ≡ self.old.words }
        ensures numbers { self.new.numbers.items ≡ self.old.numbers.items }
    {
        push_last(alloc, &mut self.slots, self.slot.take())
    }

    /// Adds a line of a deck.
    pub fn add_deck_line(&mut self, line: &[u8]) -> Result<(), AllocError>
        ensures shown { OnOk result (shown_draft self.new
            ≡ with_line (ADeckLine line.now) (shown_draft self.old)) }
        ensures words { self.new.words ≡ self.old.words }
        ensures numbers { self.new.numbers.items ≡ self.old.numbers.items }
    {
        self.place = LinePlace::InDeck;
        match &mut self.slot {
            Some(slot) => slot.add_deck_line(line),
            None => Ok(()),
        }
    }

    /// Has the slot served.
    pub fn add_service(&mut self)
        ensures shown { shown_draft self.new ≡ with_line AService (shown_draft self.old) }
        ensures words { self.new.words ≡ self.old.words }
        ensures numbers { self.new.numbers.items ≡ self.old.numbers.items }
    {
        self.place = LinePlace::BehindService;
        if let Some(slot) = &mut self.slot {
            slot.add_service();
        }
    }

    /// What is wrong with a device, of which this is the label.
    pub fn device_fault(&self, device: DeviceLine<'_>, label: Word) -> Option<JobFault>
        requires label { label ≡ word_of_text device.label.now }
        requires sound { IsSound self.now }
        ensures { result ≡ device_fault device.entry.d device.entry.kind device.entry.label.now
            (shown_draft self.now) }
    {
        if self.has_device(device.d) {
            Some(JobFault::DeviceTwice)
        } else {
            self.label_fault(device, label)
        }
    }

    /// A device of this number stood before.
    fn has_device(&self, d: u8) -> bool
        requires { IsSound self.now }
        ensures { result ≡ list_any (λ other. d == other)
            (numbers_told (shown_draft self.now)) }
    {
        self.numbers.iter().any(|number| d == *number)
    }

    /// What is wrong with a device's label.
    fn label_fault(&self, device: DeviceLine<'_>, label: Word) -> Option<JobFault>
        requires { label ≡ word_of_text device.label.now }
        ensures { result ≡ label_fault device.entry.kind device.entry.label.now
            (labels_so_far (shown_draft self.now).slot) }
    {
        match device.kind {
            Kind::Mt => self.tape_fault(device.label, label),
            _ => None,
        }
    }

    /// What is wrong with the label of a tape.
    fn tape_fault(&self, text: &[u8], label: Word) -> Option<JobFault>
        requires { label ≡ word_of_text text.now }
        ensures { result ≡ tape_fault text.now (labels_so_far (shown_draft self.now).slot) }
    {
        if !is_label(text) {
            return Some(JobFault::BadLabel);
        }
        match &self.slot {
            Some(slot) if slot.has_label(label) => Some(JobFault::LabelTwice),
            _ => None,
        }
    }

    /// Adds a device, of which this is the label.
    pub fn add_device(
        &mut self,
        alloc: Global,
        device: DeviceLine<'_>,
        label: Word,
    ) -> Result<(), AllocError>
        requires { label ≡ word_of_text device.label.now }
        ensures shown { OnOk result (shown_draft self.new
            ≡ with_line (ADevice device.entry.d device.entry.kind device.entry.label.now)
            (shown_draft self.old)) }
        ensures words { self.new.words ≡ self.old.words }
        ensures numbers { OnOk result (self.new.numbers.items
            ≡ self.old.numbers.items ++ device.entry.d ∷ []) }
    {
        self.place = LinePlace::BehindDevice;
        self.numbers.push(device.d)?;
        match &mut self.slot {
            Some(slot) => slot.add_device(alloc, device.d, device.kind, label),
            None => Ok(()),
        }
    }

    /// What is wrong with a device of the pool.
    pub fn pool_fault(&self, device: DeviceLine<'_>) -> Option<JobFault>
        requires sound { IsSound self.now }
        ensures { result ≡ pool_fault device.entry.d device.entry.kind device.entry.label.now
            (shown_draft self.now) }
    {
        if self.has_device(device.d) {
            Some(JobFault::DeviceTwice)
        } else {
            lent_fault(device.kind, device.label)
        }
    }

    /// Adds a device of the pool.
    pub fn add_pool_device(&mut self, device: DeviceLine<'_>) -> Result<(), AllocError>
        ensures shown { OnOk result (shown_draft self.new
            ≡ with_line (APoolDevice device.entry.d device.entry.kind device.entry.label.now)
            (shown_draft self.old)) }
        ensures words { self.new.words ≡ self.old.words }
        ensures numbers { OnOk result (self.new.numbers.items
            ≡ self.old.numbers.items ++ device.entry.d ∷ []) }
    {
        self.place = LinePlace::BehindPool;
        self.numbers.push(device.d)?;
        self.pool.push((device.d, device.kind))?;
        Ok(())
    }

    /// Adds a line to the medium of the last device.
    pub fn add_medium_line(&mut self, alloc: Global, line: MediumLine<'_>) -> Result<(), LineError>
        requires { kept_length (shown_draft self.old).slot + length line.text.now + 1 < 2 ^ 32 }
        ensures shown { IsChecked
            (medium_fault line.entry.marked line.entry.text.now (shown_draft self.old).slot)
            (with_line (AMedium line.entry.marked line.entry.text.now) (shown_draft self.old))
            (shown_draft self.new) result }
        ensures words { self.new.words ≡ self.old.words }
        ensures numbers { self.new.numbers.items ≡ self.old.numbers.items }
    {
        self.place = LinePlace::BehindDevice;
        match &mut self.slot {
            Some(slot) => slot.add_medium_line(alloc, line),
            None => Err(LineError::Fault(JobFault::BadMedium)),
        }
    }

    /// What is wrong with addresses that are to be shown.
    pub fn show_fault(&self, first: u16, last: u16) -> Option<JobFault>
        ensures { result ≡ show_fault first last (size_so_far (shown_draft self.now).slot) }
    {
        match &self.slot {
            Some(slot) if first <= last && last < slot.size => None,
            _ => Some(JobFault::ShowRange),
        }
    }

    /// Adds addresses that are shown.
    pub fn add_show(&mut self, first: u16, last: u16) -> Result<(), AllocError>
        ensures shown { OnOk result (shown_draft self.new
            ≡ with_line (AShow first last) (shown_draft self.old)) }
        ensures words { self.new.words ≡ self.old.words }
        ensures numbers { self.new.numbers.items ≡ self.old.numbers.items }
    {
        self.place = LinePlace::BehindShow;
        match &mut self.slot {
            Some(slot) => slot.add_show(first, last),
            None => Ok(()),
        }
    }

    /// Takes a line of the schedule.
    pub fn take_schedule_line(&mut self, line: &[u8]) -> Result<(), LineError>
        requires sound { IsSound self.old }
        requires place { self.old.place ≡ InSchedule }
        ensures { Takes (told_at InSchedule line.now)
            (length line.now + 1) self.old self.new result }
    {
        match self.schedule.take_line(line) {
            Ok(place) => {
                self.place = place;
                Ok(())
            }
            Err(error) => Err(error),
        }
    }

    /// The job, when all its lines are read.
    pub fn finish(mut self, alloc: Global) -> Result<Job, AllocError>
        requires sound { IsSound self }
        requires place { self.place ≡ BehindEnd }
        ensures shown { IfOk result (λ j. shown_job j ≡ job_of (shown_draft self)) }
        ensures well_formed { IfOk result (λ j. IsJob (shown_job j)) }
    {
        let last = self.slot;
        push_last(alloc, &mut self.slots, last)?;
        job_with(alloc, self.slots, self.schedule.events, self.pool)
    }
}

/// What is wrong with lending out a device of this kind and label.
fn lent_fault(kind: Kind, label: &[u8]) -> Option<JobFault>
    ensures { result ≡ lent_fault kind label.now }
{
    match kind {
        Kind::Tp | Kind::Lp => None,
        Kind::Mt if !is_label(label) => Some(JobFault::BadLabel),
        _ => Some(JobFault::PoolKind),
    }
}

/// Puts the last slot, of which all lines are read, after the others.
fn push_last(
    alloc: Global,
    slots: &mut Vec<SlotJob>,
    last: Option<SlotDraft>,
) -> Result<(), AllocError>
    ensures { OnOk result (map shown_slot slots.new.items ≡ map shown_slot slots.old.items
        ++ option_to_list (option_map slot_of (option_map shown_slot_draft last))) }
{
    if let Some(slot) = last {
        slots.push(slot.finish(alloc)?)?;
    }
    Ok(())
}

/// The job of these slots, each of which gets the pool.
fn job_with(
    alloc: Global,
    slots: Vec<SlotJob>,
    events: Vec<Event>,
    pool: Vec<(u8, Kind)>,
) -> Result<Job, AllocError>
    ensures { IfOk result (λ j. shown_job j ≡ record {
      slots = map (with_pool pool.items) (map shown_slot slots.items);
      events = events.items;
      pool = pool.items;
    }) }
{
    Ok(Job {
        slots: share(alloc, slots, &pool)?,
        events,
        pool,
    })
}

/// The slots, each with the pool of their job.
fn share(
    alloc: Global,
    slots: Vec<SlotJob>,
    pool: &[(u8, Kind)],
) -> Result<Vec<SlotJob>, AllocError>
    ensures { IfOk result (λ shared. map shown_slot shared.items
        ≡ map (with_pool pool.now) (map shown_slot slots.items)) }
{
    let mut shared = Vec::new(alloc);
    for slot in slots {
        shared.push(slot.with_pool(alloc, pool)?)?;
    }
    Ok(shared)
}
