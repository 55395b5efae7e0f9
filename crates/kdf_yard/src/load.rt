//! Loading: all memory is taken first, in values that may be dropped; the places come last, into room that was
//! reserved.
ghost use Rattle.std.specs.Prelude.{◌≡◌, ◌≤◌, length, map, All, AllPairs, IfOk, true, Some, None, [], vec_len};
ghost use Rattle.std.specs.List.{range_with_len};
ghost use Rattle.std.specs.Vec.{vec_capacity};
ghost use Rattle.kdf_job.specs.Shows.{shown_device, shown_slot};
ghost use Rattle.kdf_job.specs.Slots.{lent_kind};
ghost use Rattle.kdf_job.specs.WellFormed.{AreSlots};
ghost use Rattle.kdf_place.specs.declared.image.Image.{Image};
ghost use Rattle.kdf_relocate.specs.Windows.{have_windows, windows_from, IsBefore, IsInStore};
ghost use Rattle.kdf_yard.specs.declared.program.Program.{Program};
ghost use Rattle.kdf_yard.specs.declared.slot.Loaded.{Loaded};
ghost use Rattle.kdf_theory.specs.Loading.{AreLoads, HaveImages, load_of, loads};
ghost use Rattle.kdf_yard.specs.Fields.Begun.{IsLoaded};
ghost use Rattle.kdf_yard.specs.Fields.Filled.{first_seat, idle_place, idle_ring, idle_spot, loaded, own_spot, pool_in, pool_spot, size_at, sizes_of};
ghost use Rattle.kdf_yard.specs.Fields.Parts.{seat_of};
ghost use Rattle.kdf_transfer.specs.ByNumber.{by_number};
ghost use Rattle.kdf_yard.specs.Fields.Running.{seats_in};
ghost use Rattle.kdf_places.specs.Spots.{AreDry, spot_of};

use crate::fill::filled_store;
use crate::{Loaded, Place, Program, Yard};
use kdf_job::{SlotJob, device_numbered, kind_lent};
use kdf_journal::Kind;
use kdf_limits::DIRECTOR_WORDS;
use kdf_lockout::Store;
use kdf_place::Image;
use kdf_processor::Registers;
use kdf_relocate::{Window, windows};
use kdf_transfer::{Device, Ring};
use std::alloc::{AllocError, Global};

/// Loads the slots of a job, each with its image, which fits its store. The image's words are at the front of the
/// slot's window, each program is before its first order, and the places have copies of the devices. At Err nothing is
/// left.
pub fn load_yard(alloc: Global, slots: &[SlotJob], images: &[Image]) -> Result<Yard, AllocError>
    requires slots { AreSlots (map shown_slot slots.now) }
    requires images { HaveImages (map shown_slot slots.now) (map (λ (x : Image). x.words.items) images.now) }
    ensures loaded { IfOk result (IsLoaded
        (loads (map shown_slot slots.now) (map (λ (x : Image). x.words.items) images.now))) }
{
    let loaded = load_slots(alloc, slots, images)?;
    equip(alloc, loaded)
}

/// The yard of slots before their first orders.
fn equip(alloc: Global, slots: Vec<Loaded>) -> Result<Yard, AllocError>
    requires { AreLoads (map loaded slots.items) }
    ensures { IfOk result (IsLoaded (map loaded slots.items)) }
{
    let windows = windows_of(&slots);
    let store = filled_store(alloc, &windows, &slots)?;
    let programs = first_programs(alloc, &slots)?;
    let places = places(alloc, &slots)?;
    Ok(Yard {
        alloc,
        windows,
        slots,
        store,
        programs,
        places,
    })
}

/// The slots with the words of their images and copies of their devices.
fn load_slots(alloc: Global, slots: &[SlotJob], images: &[Image]) -> Result<Vec<Loaded>, AllocError>
    requires { length slots.now ≡ length images.now }
    ensures { IfOk result (λ v. map loaded v.items
        ≡ loads (map shown_slot slots.now) (map (λ (x : Image). x.words.items) images.now)) }
{
    let mut loaded = Vec::new(alloc);
    for i in 0..slots.len() {
        loaded.push(load_slot(alloc, &slots[i], &images[i])?)?;
    }
    Ok(loaded)
}

/// A slot with the words of its image and copies of its devices.
fn load_slot(alloc: Global, slot: &SlotJob, image: &Image) -> Result<Loaded, AllocError>
    ensures { IfOk result (λ l. loaded l ≡ load_of (shown_slot slot.now) image.now.words.items) }
{
    let words = Vec::from_slice(alloc, &image.words)?;
    let pool = Vec::from_slice(alloc, &slot.pool)?;
    let devices = copies(alloc, &slot.devices)?;
    Ok(Loaded {
        p: slot.p,
        size: slot.size,
        words,
        devices,
        pool,
        served: slot.served,
    })
}

/// Copies of numbered devices.
fn copies(alloc: Global, devices: &[(u8, Device)]) -> Result<Vec<(u8, Device)>, AllocError>
    ensures { IfOk result (λ v. map shown_device v.items ≡ map shown_device devices.now) }
{
    let mut copies = Vec::new(alloc);
    for device in devices.iter() {
        copies.push(copy(alloc, device)?)?;
    }
    Ok(copies)
}

/// A copy of a numbered device.
fn copy(alloc: Global, device: &(u8, Device)) -> Result<(u8, Device), AllocError>
    ensures { IfOk result (λ x. shown_device x ≡ shown_device device.now) }
{
    Ok((device.0, device.1.copy(alloc)?))
}

/// The windows of the slots, which fit together.
fn windows_of(slots: &[Loaded]) -> [Window; 4]
    requires { have_windows (sizes_of (map loaded slots.now)) ≡ true }
    ensures value { result ≡ windows_from DIRECTOR_WORDS (sizes_of (map loaded slots.now)) }
    ensures apart { AllPairs IsBefore result }
    ensures inside { All IsInStore result }
{
    match windows(&sizes_of(slots)) {
        Some(windows) => windows,
        None => unreachable!(),
    }
}

/// The sizes of the four slots, 0 for one that is absent.
fn sizes_of(slots: &[Loaded]) -> [u16; 4]
    ensures { result ≡ sizes_of (map loaded slots.now) }
{
    [
        size_at(slots, 0),
        size_at(slots, 1),
        size_at(slots, 2),
        size_at(slots, 3),
    ]
}

/// The size of a slot, 0 if it is absent.
fn size_at(slots: &[Loaded], p: u8) -> u16
    ensures { result ≡ size_at (map loaded slots.now) p }
{
    for slot in slots.iter() {
        if slot.p == p {
            return slot.size;
        }
    }
    0
}

/// The programs of the slots before their first orders.
fn first_programs(alloc: Global, slots: &[Loaded]) -> Result<Vec<Program>, AllocError>
    ensures seats { IfOk result (λ v. seats_in v.items ≡ map (λ (l : Loaded). first_seat (loaded l)) slots.now) }
    ensures no_hold { IfOk result (λ v. map (λ (x : Program). x.hold) v.items ≡ map (λ (l : Loaded). None) slots.now) }
{
    let mut programs = Vec::new(alloc);
    for slot in slots.iter() {
        programs.push(first_program(alloc, slot))?;
    }
    Ok(programs)
}

/// The program of a slot before its first order.
#[tactic(auto, unfolding(kdf_processor::specs::State::unclaimed))]
fn first_program(alloc: Global, slot: &Loaded) -> Program
    ensures seat { seat_of result ≡ first_seat (loaded slot.now) }
    ensures no_hold { result.hold ≡ None }
{
    Program {
        p: slot.p,
        registers: Registers::new(),
        claimed: [false; 16],
        spooled: Vec::new(alloc),
        stints: Vec::new(alloc),
        hold: None,
    }
}

/// The places of all devices and of the pool's, without a transfer.
fn places(alloc: Global, slots: &[Loaded]) -> Result<Vec<Place>, AllocError>
    ensures spots { IfOk result (λ v. map spot_of v.items ≡ by_number (idle_spot (map loaded slots.now))) }
    ensures dry { IfOk result (λ v. AreDry v.items) }
{
    let idle = idle_all(alloc, slots)?;
    let mut places = Vec::with_capacity(alloc, 16)?;
    put_all(&mut places, idle);
    Ok(places)
}

/// What stands in a place that has no transfer: a device and its ring.
type Standing = (Device, Ring);

/// What stands in the place of a number: a copy of the first slot's device of that number, or else a blank one of the
/// pool.
fn idle_of(alloc: Global, slots: &[Loaded], d: u8) -> Result<Option<Standing>, AllocError>
    ensures spot { IfOk result (λ o. spot_of (idle_place o) ≡ idle_spot (map loaded slots.now) d) }
    ensures ring { IfOk result (λ o. idle_ring o ≡ []) }
{
    for slot in slots.iter() {
        if let Some(device) = device_numbered(&slot.devices, d) {
            return Ok(Some(owned(alloc, device)?));
        }
    }
    pooled_of(alloc, slots, d)
}

/// What stands in the place of a device that a program owns: a copy of it.
fn owned(alloc: Global, device: &(u8, Device)) -> Result<Standing, AllocError>
    ensures spot { IfOk result (λ x. spot_of (idle_place (Some x)) ≡ own_spot (shown_device device.now)) }
    ensures ring { IfOk result (λ x. idle_ring (Some x) ≡ []) }
{
    let ring = Ring::new(alloc)?;
    Ok((device.1.copy(alloc)?, ring))
}

/// A blank device of the pool's kind of a number, if the pool has one.
fn pooled_of(alloc: Global, slots: &[Loaded], d: u8) -> Result<Option<Standing>, AllocError>
    ensures spot { IfOk result (λ o. spot_of (idle_place o)
        ≡ pool_spot (lent_kind (pool_in (map loaded slots.now)) d)) }
    ensures ring { IfOk result (λ o. idle_ring o ≡ []) }
{
    match kind_lent(pool_in(slots), d) {
        Some(kind) => {
            let ring = Ring::new(alloc)?;
            Ok(Some((Device::blank(alloc, kind), ring)))
        }
        None => Ok(None),
    }
}

/// The pool, which all slots have in common.
pub(crate) fn pool_in(slots: &[Loaded]) -> &[(u8, Kind)]
    ensures { result.now ≡ pool_in (map loaded slots.now) }
{
    match slots.first() {
        Some(slot) => &slot.pool,
        None => &[],
    }
}

/// What stands in each place, by number.
fn idle_all(alloc: Global, slots: &[Loaded]) -> Result<Vec<Option<Standing>>, AllocError>
    ensures spots { IfOk result (λ v. map (λ o. spot_of (idle_place o)) v.items
        ≡ map (idle_spot (map loaded slots.now)) (range_with_len 0 16)) }
    ensures rings { IfOk result (λ v. map idle_ring v.items ≡ map (λ _. []) (range_with_len 0 16)) }
{
    let mut idle = Vec::with_capacity(alloc, 16)?;
    for d in 0..16u8 {
        idle.push_reserved(idle_of(alloc, slots, d)?);
    }
    Ok(idle)
}

/// The place of a device that has no transfer.
fn place_of(found: Option<Standing>) -> Place
    ensures { result ≡ idle_place found }
{
    match found {
        Some((device, ring)) => Place::Idle { device, ring },
        None => Place::Absent,
    }
}

/// Puts the devices into their places. There is room: from here on nothing fails.
fn put_all(places: &mut Vec<Place>, idle: Vec<Option<Standing>>)
    requires empty { places.old.items ≡ [] }
    requires room { vec_len idle ≤ vec_capacity places.old }
    ensures { places.new.items ≡ map idle_place idle.items }
{
    for found in idle {
        places.push_reserved(place_of(found));
    }
}
