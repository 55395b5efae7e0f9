//! The place of a device.
ghost use Rattle.std.specs.Prelude.{◌≡◌, ◌+◌, ◌/◌, None, Some, Option, if◌then◌else◌, IfSome, OnOk, true};
ghost use Rattle.std.specs.Option.{option_map};
ghost use Rattle.kdf_transfer.specs.Devices.{is_wanted, test_of};
ghost use Rattle.kdf_transfer.specs.InFlight.{lent_at};
ghost use Rattle.kdf_places.specs.Words.{has_group};

use kdf_journal::Kind;
use kdf_lockout::Lease;
use kdf_transfer::{Device, Ring, Test, Transfer, TransferOrder, Wanted};
use kdf_word::Word;
use std::alloc::{AllocError, Global};
use std::mem;

/// The place of a device.
pub enum Place {
    /// Neither a slot nor the pool has a device of this number.
    Absent,
    /// A device without a transfer, and the ring of its next one, which is empty.
    Idle { device: Device, ring: Ring },
    /// A device with a transfer of slot `p`.
    Busy { p: u8, transfer: Transfer },
}

impl Place {
    ghost use Rattle.std.specs.Option.{option_copied};
    ghost use Rattle.kdf_places.specs.Spots.{IsDeviceOf, Held, can_leave, left_spot, spot_of, spot_kind, is_flying, is_of, lease_held, ring_in, IsReady};
    ghost use Rattle.kdf_places.specs.Transfers.{moved_spot};
    ghost use Rattle.kdf_transfer.specs.Devices.{fixture_of, progress_of};

    /// The kind of the device, if there is one.
    pub fn kind(&self) -> Option<Kind>
        ensures { result ≡ spot_kind (spot_of self.now) }
    {
        match self {
            Place::Absent => None,
            Place::Idle { device, .. } => Some(device.kind()),
            Place::Busy { transfer, .. } => Some(transfer.device().kind()),
        }
    }

    /// Whether the device is what a claim wants.
    pub fn is_wanted(&self, wanted: &Wanted) -> bool
        ensures { result ≡ is_wanted wanted.now (spot_of self.now).fixture }
    {
        match self {
            Place::Absent => false,
            Place::Idle { device, .. } => device.is_wanted(wanted),
            Place::Busy { transfer, .. } => transfer.device().is_wanted(wanted),
        }
    }

    /// What a test of the device tells, or of a new one where there is none.
    pub fn test(&self, what: Test) -> bool
        ensures { result ≡ test_of what (spot_of self.now).progress }
    {
        match self {
            Place::Absent => what == Test::Start,
            Place::Idle { device, .. } => device.test(what),
            Place::Busy { transfer, .. } => transfer.device().test(what),
        }
    }

    /// Whether it has a transfer.
    pub fn is_busy(&self) -> bool
        ensures { result ≡ is_flying (spot_of self.now) }
    {
        match self {
            Place::Absent | Place::Idle { .. } => false,
            Place::Busy { .. } => true,
        }
    }

    /// Whether it has a transfer of slot `p`.
    pub fn is_of(&self, p: u8) -> bool
        ensures { result ≡ is_of p (spot_of self.now).flight }
    {
        match self {
            Place::Absent | Place::Idle { .. } => false,
            Place::Busy { p: owner, .. } => *owner == p,
        }
    }

    /// Takes the device out, if there is one and it has no transfer. A blank one of the same kind takes its place.
    pub fn take_back(&mut self, alloc: Global) -> Option<Device>
        ensures spot { spot_of self.new ≡ left_spot (spot_of self.old) }
        ensures ring { ring_in self.new ≡ ring_in self.old }
        ensures fixture { option_map fixture_of result
            ≡ (if can_leave (spot_of self.old) then (spot_of self.old).fixture else None) }
        ensures progress { IfSome result (λ x. progress_of x ≡ (spot_of self.old).progress) }
    {
        match self {
            Place::Absent | Place::Busy { .. } => None,
            Place::Idle { device, .. } => {
                let blank = Device::blank(alloc, device.kind());
                Some(mem::replace(device, blank))
            }
        }
    }

    /// The device, as its transfer found it where it has one.
    pub fn device(&self) -> Option<&Device>
        ensures { IsDeviceOf (spot_of self.now) (option_copied result) }
    {
        match self {
            Place::Absent => None,
            Place::Idle { device, .. } => Some(device),
            Place::Busy { transfer, .. } => Some(transfer.device()),
        }
    }

    /// Its transfer, if it has one.
    pub fn transfer(&self) -> Option<&Transfer>
        ensures { option_map (λ t. t.now) result
            ≡ option_map (λ (h : Held). h.motion) (spot_of self.now).flight }
    {
        match self {
            Place::Absent | Place::Idle { .. } => None,
            Place::Busy { transfer, .. } => Some(transfer),
        }
    }

    /// The word at a place of the store, where its lease has it.
    pub fn lent(&self, place: usize) -> Option<Word>
        ensures { result ≡ (if has_group (lease_held (spot_of self.now).flight) (place / 32)
            then Some (lent_at (lease_held (spot_of self.now).flight) place) else None) }
    {
        match self {
            Place::Absent | Place::Idle { .. } => None,
            Place::Busy { transfer, .. } => lent_in(transfer.lease(), place),
        }
    }

    /// Takes the memory for the blocks that an order adds to its device, where that has no transfer. One that has
    /// 2^32 - 1 blocks gets no more.
    pub fn make_ready(&mut self, order: TransferOrder) -> Result<(), AllocError>
        ensures spot { spot_of self.new ≡ spot_of self.old }
        ensures ring { ring_in self.new ≡ ring_in self.old }
        ensures ready { OnOk result (IsReady order self.new) }
    {
        match self {
            Place::Absent | Place::Busy { .. } => Ok(()),
            Place::Idle { device, .. } => device.reserve_for(order),
        }
    }

    /// Moves the next `n` words of its transfer, if it has one.
    pub fn move_words(&mut self, n: u16)
        ensures spot { spot_of self.new ≡ moved_spot n (spot_of self.old) }
        ensures ring { ring_in self.new ≡ ring_in self.old }
    {
        match self {
            Place::Absent | Place::Idle { .. } => {}
            Place::Busy { transfer, .. } => transfer.move_words(n),
        }
    }
}

/// The word at a place of the store, where a lease has it.
fn lent_in(lease: Option<&Lease>, place: usize) -> Option<Word>
    ensures { result ≡ (if has_group (option_map (λ l. l.now) lease.entry) (place / 32)
        then Some (lent_at (option_map (λ l. l.now) lease.entry) place) else None) }
{
    match lease {
        Some(lease) => {
            if lease.has(place) {
                Some(lease.read(place))
            } else {
                None
            }
        }
        None => None,
    }
}
