//! The store and the devices of a slot and of the pool as they are loaded.
ghost use Rattle.std.specs.Prelude.{◌≡◌, ◌≤◌, All, None, length, map, IfOk};
ghost use Rattle.std.specs.Option.{option_map};
ghost use Rattle.kdf_job.specs.Shows.{shown_device, shown_slot};
ghost use Rattle.kdf_job.specs.Slots.{fixture_on, lent_kind, numbered, progress_on, slot_of};
ghost use Rattle.kdf_processor.specs.State.{filled, stocked};
ghost use Rattle.kdf_transfer.specs.ByNumber.{by_number};
ghost use Rattle.kdf_alone.specs.LonePort.{stock_of};
ghost use Rattle.kdf_alone.specs.LonePlaces.{own_fixture_in, pool_kind_in, progress_in, IsWhole};
ghost use Rattle.kdf_alone.specs.Program.{IsApart};
ghost use Rattle.kdf_alone.specs.Stints.{IsUnlent};

use crate::LonePort;
use crate::lone_place::LonePlace;
use kdf_job::{SlotJob, device_numbered, kind_lent};
use kdf_place::Image;
use kdf_transfer::Device;
use kdf_word::Word;
use std::alloc::{AllocError, Global};

/// What a slot has before the first order of its program: the words of the image at the front of its store, its devices and those
/// of the pool, none of them claimed.
pub fn load_bench(alloc: Global, slot: &SlotJob, image: &Image) -> Result<LonePort, AllocError>
    requires fits { length image.now.words.items ≤ slot.now.size }
    requires apart { IsApart (shown_slot slot.now) }
    ensures { IfOk result (λ b. stock_of b ≡ stocked (slot_of (shown_slot slot.now) image.now.words.items)) }
{
    let words = store(alloc, slot.size, &image.words)?;
    let places = places(alloc, slot)?;
    Ok(LonePort::new(alloc, slot.size, words, places, slot.served))
}

/// The words of a store of this size with an image at its front, and zeros after.
pub fn store(alloc: Global, size: u16, image: &[Word]) -> Result<Vec<Word>, AllocError>
    requires { length image.now ≤ size }
    ensures words { IfOk result (λ words. words.items ≡ filled size image.now) }
    ensures whole { IfOk result (λ words. length words.items ≡ size) }
{
    let mut words = Vec::from_slice(alloc, image)?;
    words.resize(usize::from(size), Word::default())?;
    Ok(words)
}

/// Copies of a slot's devices and blank ones of the pool by number, sixteen places.
pub fn places(alloc: Global, slot: &SlotJob) -> Result<Vec<LonePlace>, AllocError>
    requires { IsApart (shown_slot slot.now) }
    ensures fixtures { IfOk result (λ places. map own_fixture_in places.items
        ≡ by_number (λ d. fixture_on (numbered (map shown_device slot.now.devices.items) d))) }
    ensures kinds { IfOk result (λ places. map pool_kind_in places.items
        ≡ by_number (lent_kind slot.now.pool.items)) }
    ensures progresses { IfOk result (λ places. map progress_in places.items
        ≡ by_number (λ d. progress_on (numbered (map shown_device slot.now.devices.items) d))) }
    ensures whole { IfOk result (λ places. All IsWhole places.items) }
    ensures unlent { IfOk result (λ places. All IsUnlent places.items) }
    ensures sixteen { IfOk result (λ places. length places.items ≡ 16) }
{
    let mut places = Vec::new(alloc);
    for d in 0..16u8 {
        places.push(place(alloc, slot, d)?)?;
    }
    Ok(places)
}

/// The place of a number: a blank device of the pool, or else a copy of the slot's device, where there is one.
fn place(alloc: Global, slot: &SlotJob, d: u8) -> Result<LonePlace, AllocError>
    requires { IsApart (shown_slot slot.now) }
    ensures fixture { IfOk result (λ place. own_fixture_in place
        ≡ fixture_on (numbered (map shown_device slot.now.devices.items) d)) }
    ensures kind { IfOk result (λ place. pool_kind_in place ≡ lent_kind slot.now.pool.items d) }
    ensures progress { IfOk result (λ place. progress_in place
        ≡ progress_on (numbered (map shown_device slot.now.devices.items) d)) }
    ensures whole { IfOk result IsWhole }
    ensures unlent { IfOk result IsUnlent }
{
    match kind_lent(&slot.pool, d) {
        Some(kind) => Ok(LonePlace::pooled(alloc, kind)),
        None => copied(alloc, device_numbered(&slot.devices, d)),
    }
}

/// The place of a copy of a device, where there is one.
fn copied(alloc: Global, device: Option<&(u8, Device)>) -> Result<LonePlace, AllocError>
    ensures fixture { IfOk result (λ place. own_fixture_in place
        ≡ fixture_on (option_map (λ x. shown_device x.now) device.entry)) }
    ensures kind { IfOk result (λ place. pool_kind_in place ≡ None) }
    ensures progress { IfOk result (λ place. progress_in place
        ≡ progress_on (option_map (λ x. shown_device x.now) device.entry)) }
    ensures whole { IfOk result IsWhole }
    ensures unlent { IfOk result IsUnlent }
{
    match device {
        Some(device) => Ok(LonePlace::Own(device.1.copy(alloc)?)),
        None => Ok(LonePlace::Absent),
    }
}
