//! Places whose transfers begin, end and are given up.
ghost use Rattle.std.specs.Prelude.{◌≡◌, ◌+◌, ◌-◌, ◌*◌, ◌<◌, ◌≤◌, length, true, false, [], map, slice_set, slice_index_or};
ghost use Rattle.std.specs.Vec.{vec_capacity};
ghost use Rattle.kdf_transfer.specs.AtOnce.{kind_of, has_area, is_output};
ghost use Rattle.kdf_transfer.specs.Devices.{is_kind};
ghost use Rattle.kdf_lockout.specs.Groups.{is_out};
ghost use Rattle.kdf_places.specs.Shared.{shared_in, IsSound};
ghost use Rattle.kdf_places.specs.Transfers.{start_lease, start_cells, start_spot, IsFreeArea, IsBack, back_cells, last_lease, ended_spot, moved_spot};
ghost use Rattle.kdf_places.specs.Spots.{spot_of, spot_at, spot_kind, is_flying, lease_held, ring_in, AreDry, IsReady};
ghost use Rattle.kdf_places.specs.declared.place.Place.TheVariants.{Absent};
ghost use Rattle.std.specs.Prelude.{ℕ};

use crate::Place;
use kdf_lockout::{Lease, Store};
use kdf_transfer::{Area, Transfer, TransferOrder};
use std::mem;

/// A transfer that is to begin: the slot whose it is, its order, and its area, in places of the store.
#[derive(Clone, Copy)]
pub struct Start {
    pub p: u8,
    pub order: TransferOrder,
    pub area: Area,
}

/// Moves the groups of the order's area into a lease.
fn take_lease(store: &mut Store, order: TransferOrder, area: Area) -> Option<Lease>
    requires area { has_area order ≡ true → IsFreeArea store.old area.first area.last }
    ensures lease { result ≡ start_lease order area.first area.last store.old }
    ensures store { store.new ≡ start_cells order area.first area.last store.old }
{
    if !order.has_area() {
        return None;
    }
    match store.lock(area.first, area.last) {
        Ok(lease) => Some(lease),
        Err(_) => None,
    }
}

/// Moves the groups of a lease back, if there is one.
fn put_back(store: &mut Store, lease: Option<Lease>)
    requires { IsBack store.old lease }
    ensures { store.new ≡ back_cells lease store.old }
{
    match lease {
        Some(lease) => store.unlock(lease),
        None => {}
    }
}

/// Begins a transfer on a device that has none.
fn begin_in(place: &mut Place, start: Start, store: &mut Store, block: Vec<u8>)
    requires free { is_flying (spot_of place.old) ≡ false }
    requires kind { is_kind (kind_of start.order) (spot_kind (spot_of place.old)) ≡ true }
    requires ready { IsReady start.order place.old }
    requires dry { ring_in place.old ≡ [] }
    requires block { block.items ≡ [] }
    requires room { is_output start.order ≡ true
        → 8 * (start.area.last + 1 - start.area.first) ≤ vec_capacity block }
    requires area { has_area start.order ≡ true
        → IsFreeArea store.old start.area.first start.area.last }
    ensures spot { spot_of place.new
        ≡ start_spot start.p start.order start.area.first start.area.last store.old (spot_of place.old) }
    ensures ring { ring_in place.new ≡ [] }
    ensures store { store.new
        ≡ start_cells start.order start.area.first start.area.last store.old }
{
    match mem::replace(place, Place::Absent) {
        Place::Idle { device, ring } => {
            let Start { p, order, area } = start;
            let lease = take_lease(store, order, area);
            let transfer = Transfer::begin(device, order, area, lease, block, ring);
            leave(mem::replace(place, Place::Busy { p, transfer }));
        }
        Place::Absent | Place::Busy { .. } => unreachable!(),
    }
}

/// Lets a place go in which there is nothing.
#[inline(always)]
fn leave(absent: Place)
    requires { absent ≡ Absent }
{
    match absent {
        Place::Absent => {}
        Place::Idle { .. } | Place::Busy { .. } => unreachable!(),
    }
}

/// Begins a transfer on a device.
pub fn start_at(places: &mut Vec<Place>, d: usize, start: Start, store: &mut Store, block: Vec<u8>)
    requires there { d < length places.old.items }
    requires free { is_flying (spot_at (map spot_of places.old.items) d) ≡ false }
    requires kind { is_kind (kind_of start.order)
        (spot_kind (spot_at (map spot_of places.old.items) d)) ≡ true }
    requires ready { IsReady start.order (slice_index_or places.old.items d Absent) }
    requires dry { AreDry places.old.items }
    requires block { block.items ≡ [] }
    requires room { is_output start.order ≡ true
        → 8 * (start.area.last + 1 - start.area.first) ≤ vec_capacity block }
    requires area { has_area start.order ≡ true
        → IsFreeArea store.old start.area.first start.area.last }
    ensures spots { map spot_of places.new.items ≡ slice_set (map spot_of places.old.items) d
        (start_spot start.p start.order start.area.first start.area.last store.old
        (spot_at (map spot_of places.old.items) d)) }
    ensures dry { AreDry places.new.items }
    ensures len { length places.new.items ≡ length places.old.items }
    ensures store { store.new
        ≡ start_cells start.order start.area.first start.area.last store.old }
{
    let place = &mut places[d];
    begin_in(place, start, store, block);
}

/// Ends the transfer of a device.
fn end_in(place: &mut Place, store: &mut Store)
    requires busy { is_flying (spot_of place.old) ≡ true }
    requires back { IsBack store.old (last_lease (spot_of place.old).flight) }
    requires dry { ring_in place.old ≡ [] }
    ensures spot { spot_of place.new ≡ ended_spot (spot_of place.old) }
    ensures ring { ring_in place.new ≡ [] }
    ensures store { store.new ≡ back_cells (last_lease (spot_of place.old).flight) store.old }
{
    match mem::replace(place, Place::Absent) {
        Place::Busy { p: _, transfer } => {
            let (device, lease, ring) = transfer.end();
            put_back(store, lease);
            leave(mem::replace(place, Place::Idle { device, ring }));
        }
        Place::Absent | Place::Idle { .. } => unreachable!(),
    }
}

/// Ends the transfer on a device, if it has one.
pub fn end_at(places: &mut Vec<Place>, d: usize, store: &mut Store)
    requires there { d < length places.old.items }
    requires back { IsBack store.old
        (last_lease (spot_at (map spot_of places.old.items) d).flight) }
    requires dry { AreDry places.old.items }
    ensures spots { map spot_of places.new.items ≡ slice_set (map spot_of places.old.items) d
        (ended_spot (spot_at (map spot_of places.old.items) d)) }
    ensures dry { AreDry places.new.items }
    ensures len { length places.new.items ≡ length places.old.items }
    ensures store { store.new
        ≡ back_cells (last_lease (spot_at (map spot_of places.old.items) d).flight) store.old }
{
    if places[d].is_busy() {
        end_busy_at(places, d, store);
    }
}

/// Ends the transfer on a device. A place is large, and a function pays at entry for the size of its locals: so one
/// that has no transfer never comes here.
#[inline(never)]
fn end_busy_at(places: &mut Vec<Place>, d: usize, store: &mut Store)
    requires there { d < length places.old.items }
    requires busy { is_flying (spot_at (map spot_of places.old.items) d) ≡ true }
    requires back { IsBack store.old
        (last_lease (spot_at (map spot_of places.old.items) d).flight) }
    requires dry { AreDry places.old.items }
    ensures spots { map spot_of places.new.items ≡ slice_set (map spot_of places.old.items) d
        (ended_spot (spot_at (map spot_of places.old.items) d)) }
    ensures dry { AreDry places.new.items }
    ensures len { length places.new.items ≡ length places.old.items }
    ensures store { store.new
        ≡ back_cells (last_lease (spot_at (map spot_of places.old.items) d).flight) store.old }
{
    let place = &mut places[d];
    end_in(place, store);
}

/// Moves the next `n` words of the transfer on a device, if it has one.
pub fn move_at(places: &mut Vec<Place>, d: usize, n: u16)
    requires there { d < length places.old.items }
    ensures spots { map spot_of places.new.items ≡ slice_set (map spot_of places.old.items) d
        (moved_spot n (spot_at (map spot_of places.old.items) d)) }
    ensures dry { AreDry places.old.items → AreDry places.new.items }
    ensures len { length places.new.items ≡ length places.old.items }
{
    let place = &mut places[d];
    place.move_words(n);
}

/// Cancels a transfer: its groups come back.
fn cancel_transfer(transfer: Transfer, store: &mut Store)
    requires { IsBack store.old transfer.lease }
    ensures { store.new ≡ back_cells transfer.lease store.old }
{
    let (_, lease, _) = transfer.cancel();
    put_back(store, lease);
}

/// Gives a device up: its transfer is cancelled, and its groups come back.
fn cancel(place: Place, store: &mut Store)
    requires { IsBack store.old (lease_held (spot_of place).flight) }
    ensures { store.new ≡ back_cells (lease_held (spot_of place).flight) store.old }
{
    match place {
        Place::Absent => {}
        Place::Idle { device: _, ring: _ } => {}
        Place::Busy { p: _, transfer } => cancel_transfer(transfer, store),
    }
}

/// Gives all devices up: transfers are cancelled, and all groups come back.
pub fn cancel_all(mut places: Vec<Place>, store: &mut Store)
    requires sound { IsSound (shared_in store.old places.items) }
    ensures { (g : ℕ) → g < length store.new → is_out store.new g ≡ false }
{
    while let Some(place) = places.pop() {
        cancel(place, store);
    }
    places.destroy_empty();
}
