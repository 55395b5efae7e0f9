//! Lines, each taken where it stands.
ghost use Rattle.std.specs.Prelude.{◌≡◌, ◌+◌, ◌≤◌, ◌∷◌, [], true, codes, is_some, length, Ok};
ghost use Rattle.kdf_job.specs.Forms.{ADeckLine, ADevice, AMedium, APoolDevice, AService, AShow, ASlot, AStore, alone, device_or_end, first_told, job_ends, medium_line, pool_device_or_end, service_or_device, slot_ends, slot_line, told_at, ASchedule};
ghost use Rattle.kdf_job.specs.Lengths.{weight};
ghost use Rattle.kdf_job.specs.Shows.{shown_draft};
ghost use Rattle.kdf_job.specs.Taking.{IsSound, Taken, Takes};
ghost use Rattle.kdf_job.specs.declared.job.TheConstants.{TEXT_LIMIT};
ghost use Rattle.kdf_job.specs.declared.line_place.LinePlace.TheVariants.{First, BehindHeader, BehindSlot, BehindStore, InDeck, BehindDeck, BehindService, BehindDevice, BehindShow, BehindPool, InSchedule, BehindEnd};

use crate::draft::Draft;
use crate::forms::{
    DeviceLine, MediumLine, addresses, device_line, is, medium_line, slot_number, store_size,
};
use crate::media::word_of_text;
use crate::{JobFault, LineError, LinePlace};
use kdf_limits::PROGRAM_WORDS;
use std::alloc::Global;

impl Draft {
    /// Takes a line, if it is right in its place.
    pub fn take_line(&mut self, alloc: Global, line: &[u8]) -> Result<(), LineError>
        requires sound { IsSound self.old }
        requires fits { weight (shown_draft self.old) + length line.now ≤ TEXT_LIMIT }
        ensures { Takes (told_at self.old.place line.now)
            (length line.now + 1) self.old self.new result }
    {
        match self.place {
            LinePlace::First => self.take_header(line),
            LinePlace::BehindHeader => self.take_first_slot(line),
            LinePlace::BehindSlot(p) => self.take_size(alloc, p, line),
            LinePlace::BehindStore => self.take_deck(line),
            LinePlace::InDeck => self.take_deck_line(line),
            LinePlace::BehindDeck => self.take_service_or_device(alloc, line),
            LinePlace::BehindService => self.take_device_or_end(alloc, line),
            LinePlace::BehindDevice => self.take_medium_or_device(alloc, line),
            LinePlace::BehindShow => self.take_show_or_end(line),
            LinePlace::BehindPool => self.take_in_pool(line),
            LinePlace::InSchedule => self.take_schedule_line(line),
            LinePlace::BehindEnd => Err(LineError::Fault(JobFault::BadLine)),
        }
    }

    /// Takes the first line.
    fn take_header(&mut self, line: &[u8]) -> Result<(), LineError>
        requires sound { IsSound self.old }
        requires place { self.old.place ≡ First }
        ensures { Takes (told_at First line.now) (length line.now + 1) self.old self.new result }
    {
        if is(line, b"KDF9 JOB 1") {
            self.place = LinePlace::BehindHeader;
            Ok(())
        } else {
            Err(LineError::Fault(JobFault::Header))
        }
    }

    /// Takes the number of the first slot.
    fn take_first_slot(&mut self, line: &[u8]) -> Result<(), LineError>
        requires sound { IsSound self.old }
        requires none { (shown_draft self.old).pool ≡ [] }
        ensures { Takes (first_told (slot_line line.now ∷ []))
            (length line.now + 1) self.old self.new result }
    {
        match slot_number(line) {
            Some(Ok(p)) => self.take_slot(p),
            Some(Err(fault)) => Err(LineError::Fault(fault)),
            None => Err(LineError::Fault(JobFault::BadLine)),
        }
    }

    /// Takes the number of a slot.
    fn take_slot(&mut self, p: u8) -> Result<(), LineError>
        requires sound { IsSound self.old }
        requires none { (shown_draft self.old).pool ≡ [] }
        requires few { p ≤ 3 }
        ensures { Takes (Ok (ASlot p)) 1 self.old self.new result }
    {
        if let Some(fault) = self.slot_fault(p) {
            return Err(LineError::Fault(fault));
        }
        self.place = LinePlace::BehindSlot(p);
        Ok(())
    }

    /// Takes the size of a store.
    fn take_size(&mut self, alloc: Global, p: u8, line: &[u8]) -> Result<(), LineError>
        requires sound { IsSound self.old }
        requires place { self.old.place ≡ BehindSlot p }
        ensures { Takes (told_at (BehindSlot p) line.now)
            (length line.now + 1) self.old self.new result }
    {
        match store_size(line) {
            Some(Ok(size)) => self.take_store(alloc, p, size),
            Some(Err(fault)) => Err(LineError::Fault(fault)),
            None => Err(LineError::Fault(JobFault::BadLine)),
        }
    }

    /// Takes the store of this size.
    fn take_store(&mut self, alloc: Global, p: u8, size: u16) -> Result<(), LineError>
        requires sound { IsSound self.old }
        requires place { self.old.place ≡ BehindSlot p }
        requires least { 32 ≤ size }
        requires most { size ≤ PROGRAM_WORDS }
        ensures { Takes (Ok (AStore size)) 1 self.old self.new result }
    {
        if let Some(fault) = self.store_fault(size) {
            return Err(LineError::Fault(fault));
        }
        self.add_slot(alloc, p, size)?;
        Ok(())
    }

    /// Takes the begin of a deck.
    fn take_deck(&mut self, line: &[u8]) -> Result<(), LineError>
        requires sound { IsSound self.old }
        requires place { self.old.place ≡ BehindStore }
        ensures { Takes (told_at BehindStore line.now)
            (length line.now + 1) self.old self.new result }
    {
        if is(line, b"DECK") {
            self.place = LinePlace::InDeck;
            Ok(())
        } else {
            Err(LineError::Fault(JobFault::BadLine))
        }
    }

    /// Takes a line of a deck, or its end.
    fn take_deck_line(&mut self, line: &[u8]) -> Result<(), LineError>
        requires sound { IsSound self.old }
        requires place { self.old.place ≡ InDeck }
        requires fits { weight (shown_draft self.old) + length line.now ≤ TEXT_LIMIT }
        ensures { Takes (told_at InDeck line.now) (length line.now + 1) self.old self.new result }
    {
        if is(line, b"ENDDECK") {
            self.place = LinePlace::BehindDeck;
            return Ok(());
        }
        self.add_deck_line(line)?;
        Ok(())
    }

    /// Takes the line that has the slot served, a device, or what may stand after devices.
    fn take_service_or_device(&mut self, alloc: Global, line: &[u8]) -> Result<(), LineError>
        requires sound { IsSound self.old }
        requires there { is_some (shown_draft self.old).slot ≡ true }
        requires none { (shown_draft self.old).pool ≡ [] }
        ensures { Takes (first_told (service_or_device line.now))
            (length line.now + 1) self.old self.new result }
    {
        if is(line, b"SERVICE") {
            self.take_service();
            Ok(())
        } else {
            self.take_device_or_end(alloc, line)
        }
    }

    /// Takes the line that has the slot served.
    fn take_service(&mut self)
        requires sound { IsSound self.old }
        requires there { is_some (shown_draft self.old).slot ≡ true }
        requires none { (shown_draft self.old).pool ≡ [] }
        ensures { Taken (Ok AService) 1 self.old self.new }
    {
        self.add_service();
    }

    /// Takes a medium line, a device, or what may stand after devices.
    fn take_medium_or_device(&mut self, alloc: Global, line: &[u8]) -> Result<(), LineError>
        requires sound { IsSound self.old }
        requires there { is_some (shown_draft self.old).slot ≡ true }
        requires none { (shown_draft self.old).pool ≡ [] }
        requires fits { weight (shown_draft self.old) + length line.now ≤ TEXT_LIMIT }
        ensures { Takes (first_told (medium_line line.now ∷ device_or_end line.now))
            (length line.now + 1) self.old self.new result }
    {
        match medium_line(line) {
            Some(medium) => self.take_medium(alloc, medium),
            None => self.take_device_or_end(alloc, line),
        }
    }

    /// Takes a medium line.
    fn take_medium(&mut self, alloc: Global, line: MediumLine<'_>) -> Result<(), LineError>
        requires sound { IsSound self.old }
        requires there { is_some (shown_draft self.old).slot ≡ true }
        requires none { (shown_draft self.old).pool ≡ [] }
        requires fits { weight (shown_draft self.old) + length line.text.now ≤ TEXT_LIMIT }
        ensures { Takes (Ok (AMedium line.entry.marked line.entry.text.now))
            (length line.entry.text.now + 2) self.old self.new result }
    {
        self.add_medium_line(alloc, line)
    }

    /// Takes a device, or what may stand after devices.
    fn take_device_or_end(&mut self, alloc: Global, line: &[u8]) -> Result<(), LineError>
        requires sound { IsSound self.old }
        requires there { is_some (shown_draft self.old).slot ≡ true }
        requires none { (shown_draft self.old).pool ≡ [] }
        ensures { Takes (first_told (device_or_end line.now))
            (length line.now + 1) self.old self.new result }
    {
        match device_line(line) {
            Some(Ok(device)) => self.take_device(alloc, device),
            Some(Err(fault)) => Err(LineError::Fault(fault)),
            None => self.take_show_or_end(line),
        }
    }

    /// Takes a device.
    fn take_device(&mut self, alloc: Global, device: DeviceLine<'_>) -> Result<(), LineError>
        requires sound { IsSound self.old }
        requires there { is_some (shown_draft self.old).slot ≡ true }
        requires none { (shown_draft self.old).pool ≡ [] }
        requires few { device.d ≤ 15 }
        ensures { Takes (Ok (ADevice device.entry.d device.entry.kind device.entry.label.now)) 1
            self.old self.new result }
    {
        let label = word_of_text(alloc, device.label)?;
        if let Some(fault) = self.device_fault(device, label) {
            return Err(LineError::Fault(fault));
        }
        self.add_device(alloc, device, label)?;
        Ok(())
    }

    /// Takes addresses that are shown, or what may stand after them.
    fn take_show_or_end(&mut self, line: &[u8]) -> Result<(), LineError>
        requires sound { IsSound self.old }
        requires there { is_some (shown_draft self.old).slot ≡ true }
        requires none { (shown_draft self.old).pool ≡ [] }
        ensures { Takes (first_told (slot_ends line.now))
            (length line.now + 1) self.old self.new result }
    {
        match addresses(line) {
            Some(Ok((first, last))) => self.take_show(first, last),
            Some(Err(fault)) => Err(LineError::Fault(fault)),
            None => self.take_slot_or_end(line),
        }
    }

    /// Takes addresses that are shown.
    fn take_show(&mut self, first: u16, last: u16) -> Result<(), LineError>
        requires sound { IsSound self.old }
        requires there { is_some (shown_draft self.old).slot ≡ true }
        requires none { (shown_draft self.old).pool ≡ [] }
        ensures { Takes (Ok (AShow first last)) 1 self.old self.new result }
    {
        if let Some(fault) = self.show_fault(first, last) {
            return Err(LineError::Fault(fault));
        }
        self.add_show(first, last)?;
        Ok(())
    }

    /// Takes the number of the next slot, or what may stand after the last one.
    fn take_slot_or_end(&mut self, line: &[u8]) -> Result<(), LineError>
        requires sound { IsSound self.old }
        requires there { is_some (shown_draft self.old).slot ≡ true }
        requires none { (shown_draft self.old).pool ≡ [] }
        ensures { Takes (first_told (slot_line line.now ∷ job_ends line.now))
            (length line.now + 1) self.old self.new result }
    {
        match slot_number(line) {
            Some(Ok(p)) => self.take_slot(p),
            Some(Err(fault)) => Err(LineError::Fault(fault)),
            None => self.take_pool_or_schedule(line),
        }
    }

    /// Takes the begin of the pool, or of the schedule.
    fn take_pool_or_schedule(&mut self, line: &[u8]) -> Result<(), LineError>
        requires sound { IsSound self.old }
        requires there { is_some (shown_draft self.old).slot ≡ true }
        ensures { Takes (first_told (job_ends line.now))
            (length line.now + 1) self.old self.new result }
    {
        if is(line, b"POOL") {
            self.place = LinePlace::BehindPool;
            Ok(())
        } else {
            self.take_schedule(line)
        }
    }

    /// Takes a device of the pool, or the begin of the schedule. The pool has no media.
    fn take_in_pool(&mut self, line: &[u8]) -> Result<(), LineError>
        requires sound { IsSound self.old }
        requires place { self.old.place ≡ BehindPool }
        ensures { Takes (told_at BehindPool line.now)
            (length line.now + 1) self.old self.new result }
    {
        match medium_line(line) {
            Some(_) => Err(LineError::Fault(JobFault::BadMedium)),
            None => self.take_pool_device_or_end(line),
        }
    }

    /// Takes a device of the pool, or the begin of the schedule.
    fn take_pool_device_or_end(&mut self, line: &[u8]) -> Result<(), LineError>
        requires sound { IsSound self.old }
        requires there { is_some (shown_draft self.old).slot ≡ true }
        ensures { Takes (first_told (pool_device_or_end line.now))
            (length line.now + 1) self.old self.new result }
    {
        match device_line(line) {
            Some(Ok(device)) => self.take_pool_device(device),
            Some(Err(fault)) => Err(LineError::Fault(fault)),
            None => self.take_schedule(line),
        }
    }

    /// Takes a device of the pool.
    fn take_pool_device(&mut self, device: DeviceLine<'_>) -> Result<(), LineError>
        requires sound { IsSound self.old }
        requires there { is_some (shown_draft self.old).slot ≡ true }
        requires few { device.d ≤ 15 }
        ensures { Takes
            (Ok (APoolDevice device.entry.d device.entry.kind device.entry.label.now)) 1
            self.old self.new result }
    {
        if let Some(fault) = self.pool_fault(device) {
            return Err(LineError::Fault(fault));
        }
        self.add_pool_device(device)?;
        Ok(())
    }

    /// Takes the begin of the schedule.
    fn take_schedule(&mut self, line: &[u8]) -> Result<(), LineError>
        requires sound { IsSound self.old }
        requires there { is_some (shown_draft self.old).slot ≡ true }
        ensures { Takes (first_told (alone (codes "SCHEDULE") ASchedule line.now ∷ []))
            (length line.now + 1) self.old self.new result }
    {
        if is(line, b"SCHEDULE") {
            self.place = LinePlace::InSchedule;
            Ok(())
        } else {
            Err(LineError::Fault(JobFault::BadLine))
        }
    }
}
