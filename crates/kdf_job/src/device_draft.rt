//! A device whose medium is being read.
ghost use Rattle.std.specs.Prelude.{◌≡◌, ◌+◌, ◌^◌, ◌<◌, All, IfOk, length};
ghost use Rattle.kdf_job.specs.Adding.{IsAdded, IsFound};
ghost use Rattle.kdf_job.specs.Media.{added, at_start, fits, new_device, with_medium};
ghost use Rattle.kdf_job.specs.Shows.{blocks_in, fixture_in, shown_device, shown_device_draft};
ghost use Rattle.kdf_transfer.specs.Devices.{fixture_of, progress_of};
ghost use Rattle.kdf_job.specs.Lengths.{medium_length};

use crate::forms::MediumLine;
use crate::media::codes_in;
use crate::medium::{CardStack, Paper, TapeBlocks};
use crate::{JobFault, LineError};
use kdf_journal::Kind;
use kdf_media::{Cards, Printer, Punch, Reader};
use kdf_tape::MagTape;
use kdf_transfer::Device;
use kdf_word::Word;
use std::alloc::{AllocError, Global};

/// A medium, as far as it is read.
#[derive(Drop)]
pub enum Medium {
    Tr(Paper),
    Tp,
    Cr(CardStack),
    Lp,
    Mt(Word, TapeBlocks),
}

/// A device whose medium is being read.
#[derive(Drop)]
pub struct DeviceDraft {
    /// Its number.
    pub d: u8,
    pub medium: Medium,
}

impl DeviceDraft {
    /// A device before its medium. The label counts for magnetic tape alone.
    pub fn new(alloc: Global, d: u8, kind: Kind, label: Word) -> DeviceDraft
        ensures { shown_device_draft result ≡ new_device d kind label }
    {
        let medium = match kind {
            Kind::Tr => Medium::Tr(Paper::new(alloc)),
            Kind::Tp => Medium::Tp,
            Kind::Cr => Medium::Cr(CardStack::new(alloc)),
            Kind::Lp => Medium::Lp,
            Kind::Mt => Medium::Mt(label, TapeBlocks::new(alloc)),
        };
        DeviceDraft { d, medium }
    }

    /// Adds a line to its medium.
    pub fn add_line(&mut self, alloc: Global, line: MediumLine<'_>) -> Result<(), LineError>
        requires { medium_length (shown_device_draft self.old) + length line.text.now + 1
            < 2 ^ 32 }
        ensures { IsFound
            (with_medium line.entry.marked line.entry.text.now (shown_device_draft self.old))
            (shown_device_draft self.new) result }
    {
        match codes_in(alloc, line.text)? {
            Some(codes) => self.add_codes(line.marked, codes),
            None => Err(LineError::Fault(JobFault::BadMedium)),
        }
    }

    /// Adds a line of these characters to its medium.
    fn add_codes(&mut self, marked: bool, codes: Vec<u8>) -> Result<(), LineError>
        requires small { All (λ c. c < 64) codes.items }
        requires few { medium_length (shown_device_draft self.old) + length codes.items + 1
            < 2 ^ 32 }
        ensures { IsAdded
            (fits (shown_device_draft self.old).fixture.kind marked (length codes.items))
            (added (shown_device_draft self.old).fixture.kind marked codes.items
            (shown_device_draft self.old))
            (shown_device_draft self.new) result }
    {
        match &mut self.medium {
            Medium::Tr(paper) => paper.add(marked, &codes),
            Medium::Cr(cards) => cards.add(marked, &codes),
            Medium::Mt(_, blocks) => blocks.add(marked, codes),
            Medium::Tp | Medium::Lp => Err(LineError::Fault(JobFault::BadMedium)),
        }
    }

    /// The device with its number, before anything moves.
    pub fn finish(self, alloc: Global) -> Result<(u8, Device), AllocError>
        ensures { IfOk result (λ x. shown_device x ≡ shown_device_draft self) }
    {
        Ok((self.d, self.medium.finish(alloc)?))
    }
}

impl Medium {
    /// The device of this medium, before anything moves.
    fn finish(self, alloc: Global) -> Result<Device, AllocError>
        ensures fixture { IfOk result (λ device. fixture_of device ≡ fixture_in self) }
        ensures progress { IfOk result (λ device. progress_of device ≡ at_start (blocks_in self)) }
    {
        match self {
            Medium::Tr(paper) => Ok(Device::Tr(Reader::new(paper.codes))),
            Medium::Tp => Ok(Device::Tp(Punch::new(alloc))),
            Medium::Cr(stack) => Ok(Device::Cr(Cards::of_stack(stack.cards))),
            Medium::Lp => Ok(Device::Lp(Printer::new(alloc))),
            Medium::Mt(label, tape) => Ok(Device::Mt(MagTape::shared(alloc, label, tape.blocks)?)),
        }
    }
}
