//! What is asked of all places.
ghost use Rattle.std.specs.Prelude.{◌≡◌, ◌*◌, ◌<◌, length, IfSome, true, None, map, slice_index_or, slice_set, OnOk, if◌then◌else◌};
ghost use Rattle.std.specs.Option.{option_map};
ghost use Rattle.kdf_transfer.specs.Devices.{test_of};
ghost use Rattle.kdf_transfer.specs.ByNumber.{device_count};
ghost use Rattle.kdf_places.specs.Words.{word_at_place, word_out};
ghost use Rattle.kdf_transfer.specs.Devices.{fixture_of, progress_of};
ghost use Rattle.kdf_places.specs.Spots.{Held, can_leave, left_spot, spot_of, spot_at, spot_kind, is_flying, leases_of, AreDry, IsReady};
ghost use Rattle.kdf_places.specs.declared.place.Place.TheVariants.{Absent};

use crate::Place;
use kdf_lockout::Store;
use kdf_transfer::{Device, Test, Transfer, TransferOrder};
use kdf_word::Word;
use std::alloc::{AllocError, Global};

/// The word at a place of the store whose group is out.
fn word_lent(places: &[Place], place: usize) -> Word
    requires { length places.now ≡ 16 }
    ensures { result ≡ word_out device_count (leases_of (map spot_of places.now)) place }
{
    let mut d = places.len();
    while d > 0 {
        d -= 1;
        if let Some(word) = places[d].lent(place) {
            return word;
        }
    }
    Word::default()
}

/// The word at a place of the store, here or in the lease of a transfer.
pub fn word_at(store: &Store, places: &[Place], place: usize) -> Word
    requires in_store { place < 32 * length store.now }
    requires sixteen { length places.now ≡ 16 }
    ensures { result ≡ word_at_place store.now (leases_of (map spot_of places.now)) place }
{
    match store.read(place) {
        Ok(word) => word,
        Err(_) => word_lent(places, place),
    }
}

/// Takes the memory for the blocks that an order adds to a device.
pub fn make_ready_at(
    places: &mut Vec<Place>,
    d: usize,
    order: TransferOrder,
) -> Result<(), AllocError>
    ensures spots { map spot_of places.new.items ≡ map spot_of places.old.items }
    ensures dry { AreDry places.old.items → AreDry places.new.items }
    ensures ready { OnOk result (IsReady order (slice_index_or places.new.items d Absent)) }
    ensures len { length places.new.items ≡ length places.old.items }
{
    if d < places.len() {
        let place = &mut places[d];
        place.make_ready(order)
    } else {
        Ok(())
    }
}

/// Takes a device out of its place, if there is one and it has no transfer.
pub fn take_back_at(alloc: Global, places: &mut Vec<Place>, d: usize) -> Option<Device>
    ensures spots { map spot_of places.new.items ≡ slice_set (map spot_of places.old.items) d
        (left_spot (spot_at (map spot_of places.old.items) d)) }
    ensures dry { AreDry places.old.items → AreDry places.new.items }
    ensures len { length places.new.items ≡ length places.old.items }
    ensures fixture { option_map fixture_of result
        ≡ (if can_leave (spot_at (map spot_of places.old.items) d)
        then (spot_at (map spot_of places.old.items) d).fixture else None) }
    ensures progress { IfSome result
        (λ x. progress_of x ≡ (spot_at (map spot_of places.old.items) d).progress) }
{
    if d < places.len() {
        let place = &mut places[d];
        place.take_back(alloc)
    } else {
        None
    }
}

/// What a test of a device tells.
pub fn test_in(places: &[Place], d: u8, what: Test) -> bool
    requires there { d < length places.now }
    ensures { result ≡ test_of what (spot_at (map spot_of places.now) d).progress }
{
    places[usize::from(d)].test(what)
}

/// The transfer on a device, if it has one.
pub fn transfer_in(places: &[Place], d: usize) -> Option<&Transfer>
    ensures { option_map (λ t. t.now) result
        ≡ option_map (λ (h : Held). h.motion) (spot_at (map spot_of places.now) d).flight }
{
    if d < places.len() {
        places[d].transfer()
    } else {
        None
    }
}
