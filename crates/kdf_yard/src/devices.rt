//! The devices of a slot.
ghost use Rattle.std.specs.Prelude.{◌≡◌, ◌==◌, ◌&&◌, ◌<◌, ℕ, length, nat_lt, true, false, None, if◌then◌else◌, map, slice_index_or, IfSome, not};
ghost use Rattle.std.specs.List.{list_any};
ghost use Rattle.kdf_transfer.specs.declared.device.Device.{Device};
ghost use Rattle.kdf_job.specs.Slots.{lent_kind};
ghost use Rattle.kdf_processor.specs.State.{device_limit, pooled_or};
ghost use Rattle.kdf_yard.specs.Fields.Parts.{fixture_owned, numbers};
ghost use Rattle.kdf_theory.specs.Loading.{owns};
ghost use Rattle.kdf_transfer.specs.Devices.{is_kind, is_wanted, kind_in};
ghost use Rattle.kdf_processor.specs.View.{head};
ghost use Rattle.kdf_transfer.specs.ByNumber.{by_number};
ghost use Rattle.kdf_yard.specs.Fields.Shared.{free_in, is_free_in, is_taken_by};
ghost use Rattle.kdf_theory.specs.Holders.{held_by, is_held};
ghost use Rattle.kdf_places.specs.Spots.{is_flying, own_from, spot_of, spot_at};

use crate::Place;
use kdf_job::kind_lent;
use kdf_journal::{Journal, Kind};
use kdf_processor::least;
use kdf_transfer::{Device, Wanted};

/// Whether one of the devices has this number.
fn have(devices: &[(u8, Device)], d: u8) -> bool
    ensures { result ≡ list_any (λ (x : ℕ × Device). x.0 == d) devices.now }
{
    devices.iter().any(|device| device.0 == d)
}

/// Whether the device of a number is the slot's.
pub(crate) fn owns(devices: &[(u8, Device)], d: u8) -> bool
    ensures { result ≡ owns (numbers devices.now) d }
{
    have(devices, d)
}

/// The kind of a device of the slot.
fn kind_owned(devices: &[(u8, Device)], places: &[Place], d: u8) -> Option<Kind>
    requires sixteen { length places.now ≡ 16 }
    requires number { d < 16 }
    ensures { result ≡ kind_in (fixture_owned (numbers devices.now) (map spot_of places.now) d) }
{
    if owns(devices, d) {
        places[usize::from(d)].kind()
    } else {
        None
    }
}

/// The kind of a device of the pool, or else of one of the slot.
fn kind_of(devices: &[(u8, Device)], pool: &[(u8, Kind)], places: &[Place], d: u8) -> Option<Kind>
    requires sixteen { length places.now ≡ 16 }
    requires number { d < 16 }
    ensures { result ≡ kind_in (pooled_or (lent_kind pool.now d)
        (fixture_owned (numbers devices.now) (map spot_of places.now) d)) }
{
    match kind_lent(pool, d) {
        Some(kind) => Some(kind),
        None => kind_owned(devices, places, d),
    }
}

/// The kind of a device of the slot or of the pool that is claimed.
pub(crate) fn kind_claimed(
    devices: &[(u8, Device)],
    pool: &[(u8, Kind)],
    claimed: &[bool; 16],
    places: &[Place],
    d: u16,
) -> Option<Kind>
    requires { length places.now ≡ 16 }
    ensures kind { result ≡ (if nat_lt d device_limit && slice_index_or claimed.now d false
        then kind_in (pooled_or (lent_kind pool.now d)
        (fixture_owned (numbers devices.now) (map spot_of places.now) d)) else None) }
    ensures number { IfSome result (λ _. d < device_limit) }
{
    if d < 16 && claimed[usize::from(d)] {
        kind_of(devices, pool, places, d as u8)
    } else {
        None
    }
}

/// Whether a device of the slot is what a claim wants, and isn't claimed.
pub(crate) fn is_free(
    devices: &[(u8, Device)],
    claimed: &[bool; 16],
    places: &[Place],
    d: u8,
    wanted: &Wanted,
) -> bool
    requires sixteen { length places.now ≡ 16 }
    requires number { d < 16 }
    ensures { result ≡ (owns (numbers devices.now) d && (not (slice_index_or claimed.now d false)
        && is_wanted wanted.now (spot_at (map spot_of places.now) d).fixture)) }
{
    owns(devices, d) && !claimed[usize::from(d)] && places[usize::from(d)].is_wanted(wanted)
}

/// The least device of this kind in the pool that has no holder, and that a program with these marks hasn't claimed.
pub(crate) fn first_free(
    pool: &[(u8, Kind)],
    claimed: &[bool; 16],
    journal: &Journal,
    kind: Kind,
) -> Option<u8>
    ensures least { result ≡ free_in (by_number (lent_kind pool.now))
        (is_taken_by claimed.now (held_by journal.now.entries)) kind }
    ensures number { IfSome result (λ d. d < 16) }
{
    least(|d| is_free_in(pool, claimed, journal, kind, d))
}

/// Whether a device is one of this kind in the pool that has no holder, and that a program with these marks hasn't
/// claimed.
fn is_free_in(
    pool: &[(u8, Kind)],
    claimed: &[bool; 16],
    journal: &Journal,
    kind: Kind,
    d: u8,
) -> bool
    requires { d < 16 }
    ensures { result ≡ is_free_in (by_number (lent_kind pool.now))
        (is_taken_by claimed.now (held_by journal.now.entries)) kind d }
{
    !claimed[usize::from(d)] && is_unheld(pool, journal, kind, d)
}

/// The least device of this kind in the pool that has no holder.
pub(crate) fn first_unheld(pool: &[(u8, Kind)], journal: &Journal, kind: Kind) -> Option<u8>
    ensures { result ≡ free_in (by_number (lent_kind pool.now)) (is_held journal.now.entries) kind }
{
    least(|d| is_unheld(pool, journal, kind, d))
}

/// Whether a device is one of this kind in the pool, and has no holder.
fn is_unheld(pool: &[(u8, Kind)], journal: &Journal, kind: Kind, d: u8) -> bool
    requires { d < 16 }
    ensures { result ≡ is_free_in (by_number (lent_kind pool.now)) (is_held journal.now.entries) kind d }
{
    is_lent_kind(pool, d, kind) && journal.holder(d).is_none()
}

/// Whether the pool's device of this number is of this kind, and isn't claimed.
pub(crate) fn may_be_taken(pool: &[(u8, Kind)], claimed: &[bool; 16], d: u8, kind: Kind) -> bool
    requires { d < 16 }
    ensures { result ≡ (is_kind kind (lent_kind pool.now d) && not (slice_index_or claimed.now d false)) }
{
    is_lent_kind(pool, d, kind) && !claimed[usize::from(d)]
}

/// Whether the pool's device of this number, if it has one, is of this kind.
fn is_lent_kind(pool: &[(u8, Kind)], d: u8, kind: Kind) -> bool
    ensures { result ≡ is_kind kind (lent_kind pool.now d) }
{
    match kind_lent(pool, d) {
        Some(lent) => lent == kind,
        None => false,
    }
}

/// The first device on which slot `p` has a transfer.
pub(crate) fn first_of(places: &[Place], p: u8) -> Option<usize>
    ensures value { result ≡ head (own_from p 0 (map spot_of places.now)) }
    ensures busy { IfSome result (λ d. is_flying (spot_at (map spot_of places.now) d) ≡ true) }
    ensures within { IfSome result (λ d. d < length places.now) }
{
    for (d, place) in places.iter().enumerate() {
        if place.is_of(p) {
            return Some(d);
        }
    }
    None
}
