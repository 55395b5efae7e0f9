//! What a machine shows of its programs and of their devices.
ghost use Rattle.std.specs.Prelude.{◌≡◌, ◌==◌, ◌<◌, find, is_some, length, map, slice_index_or, true, IfSome, IsSomeAnd};
ghost use Rattle.kdf_yard.specs.Fields.Stints.{is_lent, keeping_of, loan_of, no_keeping};
ghost use Rattle.std.specs.Option.{option_copied, option_map};
ghost use Rattle.kdf_yard.specs.Fields.Filled.{loaded, pool_in};
ghost use Rattle.kdf_yard.specs.Fields.Owners.{HasLent, IsDeviceOwned, IsTold, is_claimed_by, owner_in};
ghost use Rattle.kdf_places.specs.Spots.{IsDeviceOf, spot_at, spot_of};
ghost use Rattle.kdf_yard.specs.Fields.Parts.{window_at};
ghost use Rattle.kdf_yard.specs.Fields.Running.{seats_in};

use crate::devices::owns;
use crate::dispatch::window_of;
use crate::load::pool_in;
use crate::{Loaded, Place, Program, Stint};
use kdf_job::kind_lent;
use kdf_journal::Journal;
use kdf_processor::{Registers, Spooled};
use kdf_relocate::Window;
use kdf_transfer::Device;

/// The program of slot `p`, if there is one.
fn program_of(programs: &[Program], p: u8) -> Option<&Program>
    ensures { option_copied result ≡ find (λ (x : Program). x.p == p) programs.now }
{
    programs.iter().find(|program| program.p == p)
}

/// The registers of the program of slot `p`, if there is one.
pub fn registers_of(programs: &[Program], p: u8) -> Option<&Registers>
    ensures { option_copied result ≡ option_map (λ (x : Program). x.registers)
        (find (λ (x : Program). x.p == p) programs.now) }
{
    match program_of(programs, p) {
        Some(program) => Some(&program.registers),
        None => None,
    }
}

/// The texts that the program of slot `p` spooled, the oldest first; none where there is no such slot.
pub fn texts_of(programs: &[Program], p: u8) -> &[Spooled]
    ensures { IfSome (find (λ (x : Program). x.p == p) programs.now)
        (λ (program : Program). result.now ≡ program.spooled.items) }
{
    match program_of(programs, p) {
        Some(program) => program.spooled.as_slice(),
        None => &[],
    }
}

/// The stints of the program of slot `p`, in the order in which the devices were taken; none where there is no such
/// slot.
pub fn stints_of(programs: &[Program], p: u8) -> &[Stint]
    ensures { IfSome (find (λ (x : Program). x.p == p) programs.now)
        (λ (program : Program). result.now ≡ program.stints.items) }
{
    match program_of(programs, p) {
        Some(program) => program.stints.as_slice(),
        None => &[],
    }
}

/// The number of a stint's device, whether it was given back, and the device, as its transfer found it where it has
/// one.
fn stint_told<'a>(stint: &'a Stint, places: &'a [Place]) -> (u8, bool, &'a Device)
    requires { is_lent (loan_of stint.now.given stint.now.device) ≡ true
        → is_some (spot_at (map spot_of places.now) stint.now.d).fixture ≡ true }
    ensures { IsTold (map spot_of places.now) (keeping_of stint.now) result.0 result.1 result.2.now }
{
    match &stint.device {
        Some(device) => (stint.d, stint.given, device),
        None => match device_at(places, stint.d) {
            Some(device) => (stint.d, false, device),
            None => unreachable!(),
        },
    }
}

/// The stint of the program of slot `p` that began after `i` others, of which there are as many.
pub fn stint_in<'a>(
    programs: &'a [Program],
    places: &'a [Place],
    p: u8,
    i: usize,
) -> (u8, bool, &'a Device)
    requires there { IsSomeAnd (find (λ (x : Program). x.p == p) programs.now)
        (λ (program : Program). i < length program.stints.items) }
    requires lent { IfSome (find (λ (x : Program). x.p == p) programs.now)
        (λ (program : Program). HasLent (map spot_of places.now) (map keeping_of program.stints.items)) }
    ensures { IfSome (find (λ (x : Program). x.p == p) programs.now)
        (λ (program : Program). IsTold (map spot_of places.now)
        (slice_index_or (map keeping_of program.stints.items) i no_keeping) result.0 result.1 result.2.now) }
{
    match program_of(programs, p) {
        Some(program) => stint_told(&program.stints[i], places),
        None => unreachable!(),
    }
}

/// Which slot has the device of this number.
fn owner_of(slots: &[Loaded], d: u8) -> Option<usize>
    ensures { result ≡ owner_in slots.now d }
{
    slots.iter().position(|slot| owns(&slot.devices, d))
}

/// The device of this number, as its transfer found it where it has one; None where no slot has such a device.
pub fn device_in<'a>(slots: &[Loaded], places: &'a [Place], d: u8) -> Option<&'a Device>
    ensures { IsDeviceOwned (owner_in slots.now d) (spot_at (map spot_of places.now) d)
        (option_copied result) }
{
    match owner_of(slots, d) {
        Some(_) => device_at(places, d),
        None => None,
    }
}

/// The device of a place.
fn device_at(places: &[Place], d: u8) -> Option<&Device>
    ensures { IsDeviceOf (spot_at (map spot_of places.now) d) (option_copied result) }
{
    match places.get(usize::from(d)) {
        Some(place) => place.device(),
        None => None,
    }
}

/// Whether the program that has the device of this number has claimed it; where no slot has one, whether the pool has
/// lent it.
pub fn is_claimed_in(slots: &[Loaded], programs: &[Program], journal: &Journal, d: u8) -> bool
    requires { length slots.now ≡ length programs.now }
    ensures { result ≡ is_claimed_by (owner_in slots.now d) (seats_in programs.now)
        (pool_in (map loaded slots.now)) journal.now.entries d }
{
    match owner_of(slots, d) {
        Some(owner) => d < 16 && programs[owner].claimed[usize::from(d)],
        None => d < 16 && kind_lent(pool_in(slots), d).is_some() && journal.holder(d).is_some(),
    }
}

/// The window of slot `p`, if there is one.
pub fn window_given(windows: &[Window; 4], programs: &[Program], p: u8) -> Option<Window>
    ensures { result ≡ option_map (λ (x : Program). window_at windows.now p)
        (find (λ (x : Program). x.p == p) programs.now) }
{
    match program_of(programs, p) {
        Some(_) => Some(window_of(windows, p)),
        None => None,
    }
}
