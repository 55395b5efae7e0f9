//! The place of a number, with a device or with none.
ghost use Rattle.std.specs.Prelude.{◌≡◌, ◌+◌, ◌-◌, ◌*◌, ◌≤◌, [], None, length, true, OnOk, IfSome, IfNone};
ghost use Rattle.std.specs.Vec.{vec_capacity};
ghost use Rattle.kdf_transfer.specs.AtOnce.{has_area, is_output, kind_of, IsArea};
ghost use Rattle.kdf_transfer.specs.Devices.{is_kind, is_wanted, kind_in, new_progress, test_of};
ghost use Rattle.kdf_transfer.specs.declared.device.Device.{Device};
ghost use Rattle.kdf_alone.specs.declared.lone_place.LonePlace.TheVariants.{Pooled};
ghost use Rattle.kdf_alone.specs.LonePlaces.{device_of_place, fixture_in, own_fixture_in, pool_kind_in, progress_in, IsMoved, IsReady, IsWhole};

use kdf_journal::Kind;
use kdf_transfer::{Area, Device, Test, TransferOrder, Wanted, at_once};
use kdf_word::Word;
use std::alloc::{AllocError, Global};

/// The place of a number.
#[derive(Drop)]
pub enum LonePlace {
    /// No device has the number.
    Absent,
    /// A device of the program's own.
    Own(Device),
    /// One of the pool: the program's, until it gives that back, or one that has moved nothing.
    Pooled(Device),
}

impl LonePlace {
    /// The place of a device of the pool that has moved nothing.
    pub fn pooled(alloc: Global, kind: Kind) -> LonePlace
        ensures own { own_fixture_in result ≡ None }
        ensures kind { pool_kind_in result ≡ Some kind }
        ensures progress { progress_in result ≡ new_progress }
        ensures whole { IsWhole result }
    {
        LonePlace::Pooled(Device::blank(alloc, kind))
    }

    /// The kind of the device.
    pub fn kind(&self) -> Option<Kind>
        ensures { result ≡ kind_in (fixture_in self.now) }
    {
        match self {
            LonePlace::Own(device) => Some(device.kind()),
            LonePlace::Pooled(device) => Some(device.kind()),
            LonePlace::Absent => None,
        }
    }

    /// Its kind, where it is of the pool.
    pub fn pool_kind(&self) -> Option<Kind>
        ensures { result ≡ pool_kind_in self.now }
    {
        match self {
            LonePlace::Pooled(device) => Some(device.kind()),
            LonePlace::Absent | LonePlace::Own(_) => None,
        }
    }

    /// Whether the device is of the pool, and of this kind.
    pub fn is_pooled(&self, kind: Kind) -> bool
        ensures { result ≡ is_kind kind (pool_kind_in self.now) }
    {
        match self {
            LonePlace::Pooled(device) => device.kind() == kind,
            LonePlace::Absent | LonePlace::Own(_) => false,
        }
    }

    /// Whether the device is the program's own, and what a claim wants.
    pub fn is_wanted(&self, wanted: &Wanted) -> bool
        ensures { result ≡ is_wanted wanted.now (own_fixture_in self.now) }
    {
        match self {
            LonePlace::Own(device) => device.is_wanted(wanted),
            LonePlace::Absent | LonePlace::Pooled(_) => false,
        }
    }

    /// What a test of the device tells, or of a new one where there is none.
    pub fn test(&self, what: Test) -> bool
        ensures { result ≡ test_of what (progress_in self.now) }
    {
        match self {
            LonePlace::Own(device) => device.test(what),
            LonePlace::Pooled(device) => device.test(what),
            LonePlace::Absent => what == Test::Start,
        }
    }

    /// Takes the memory for the blocks that an order adds to the device. One that has 2^32 - 1 blocks gets no more.
    pub fn make_ready(&mut self, order: TransferOrder) -> Result<(), AllocError>
        ensures own { own_fixture_in self.new ≡ own_fixture_in self.old }
        ensures kind { pool_kind_in self.new ≡ pool_kind_in self.old }
        ensures progress { progress_in self.new ≡ progress_in self.old }
        ensures whole { IsWhole self.old → IsWhole self.new }
        ensures ready { OnOk result (IsReady order self.new) }
    {
        match self {
            LonePlace::Own(device) => device.reserve_for(order),
            LonePlace::Pooled(device) => device.reserve_for(order),
            LonePlace::Absent => Ok(()),
        }
    }

    /// Makes a whole transfer between the device and a list of words.
    pub fn transfer(&mut self, order: TransferOrder, area: Area, words: &mut [Word], block: Vec<u8>)
        requires kind { kind_in (fixture_in self.old) ≡ Some (kind_of order) }
        requires ready { IsReady order self.old }
        requires area { has_area order ≡ true → IsArea area.first area.last (length words.old) }
        requires block { block.items ≡ [] }
        requires room { is_output order ≡ true
            → 8 * (area.last + 1 - area.first) ≤ vec_capacity block }
        ensures own { own_fixture_in self.new ≡ own_fixture_in self.old }
        ensures kind { pool_kind_in self.new ≡ pool_kind_in self.old }
        ensures whole { IsWhole self.old → IsWhole self.new }
        ensures moved { (device : Device) → device_of_place self.old ≡ Some device →
            IsMoved order area.first area.last device words.old self.new words.new }
    {
        match self {
            LonePlace::Own(device) => at_once(device, order, area, words, block),
            LonePlace::Pooled(device) => at_once(device, order, area, words, block),
            LonePlace::Absent => unreachable!(),
        }
    }

    /// The device, if that is of the pool: one of its kind that has moved nothing stands in its place then. It takes no memory.
    pub fn hand_over(&mut self, alloc: Global) -> Option<Device>
        ensures own { own_fixture_in self.new ≡ own_fixture_in self.old }
        ensures kind { pool_kind_in self.new ≡ pool_kind_in self.old }
        ensures whole { IsWhole self.old → IsWhole self.new }
        ensures pooled { IfSome result (λ device. (self.old ≡ Pooled device) × (progress_in self.new ≡ new_progress)) }
        ensures none { IfNone result ((pool_kind_in self.old ≡ None) × (self.new ≡ self.old)) }
    {
        match self {
            LonePlace::Pooled(device) => {
                let blank = Device::blank(alloc, device.kind());
                Some(std::mem::replace(device, blank))
            }
            LonePlace::Absent | LonePlace::Own(_) => None,
        }
    }
}
