//! The stints of a program: the devices that it took from the pool.
ghost use Rattle.std.specs.Prelude.{◌≡◌, ◌≢◌, ◌<◌, ℕ, length, map, slice_index_or, slice_set, true, false, IfSome, IfNone};
ghost use Rattle.std.specs.List.{AllPairs};
ghost use Rattle.kdf_transfer.specs.Devices.{fixture_of, progress_of};
ghost use Rattle.kdf_yard.specs.Fields.Settled.{kept_from, leaves};
ghost use Rattle.kdf_places.specs.Spots.{spot_at, spot_of, AreDry};
ghost use Rattle.kdf_yard.specs.Fields.Stints.{Back, Keeping, is_open, is_open_of, keeping_of, no_keeping, with_loan};

use crate::Place;
use kdf_places::take_back_at;
use kdf_transfer::Device;
use std::alloc::Global;

/// That a program took a device from the pool.
#[derive(Drop)]
pub struct Stint {
    /// The number of the device.
    pub d: u8,
    /// The program gave it back: then it has the device.
    pub given: bool,
    /// The device, where the place of its number doesn't hold it: the program gave it back, or is over and has kept it.
    pub device: Option<Device>,
}

/// Takes the device of a stint of a program that is over out of its place, if it is lent still and has no transfer.
pub(crate) fn retire(alloc: Global, stint: &mut Stint, places: &mut Vec<Place>)
    ensures stint { keeping_of stint.new
        ≡ kept_from (keeping_of stint.old) (spot_at (map spot_of places.old.items) stint.old.d) }
    ensures spots { map spot_of places.new.items
        ≡ slice_set (map spot_of places.old.items) stint.old.d
        (leaves (keeping_of stint.old) (spot_at (map spot_of places.old.items) stint.old.d)) }
    ensures dry { AreDry places.old.items → AreDry places.new.items }
    ensures len { length places.new.items ≡ length places.old.items }
{
    if stint.device.is_none() {
        if let Some(device) = take_back_at(alloc, places, usize::from(stint.d)) {
            stint.given = false;
            stint.device = Some(device);
        }
    }
}

/// The stint of a device that wasn't given back keeps the device, which is given back.
pub(crate) fn hand_in(stints: &mut Vec<Stint>, d: u8, device: Device)
    requires one { AllPairs (λ (x y : Keeping). is_open x.loan ≡ true → is_open y.loan ≡ true → x.device ≢ y.device)
        (map keeping_of stints.old.items) }
    ensures { map keeping_of stints.new.items
        ≡ map (with_loan d (Back (fixture_of device) (progress_of device))) (map keeping_of stints.old.items) }
{
    if let Some(i) = open_stint(stints, d) {
        stints[i] = Stint {
            d,
            given: true,
            device: Some(device),
        };
    }
}

/// The last stint of a device that wasn't given back. Those that are open are mostly the last ones, so the search
/// begins there.
fn open_stint(stints: &[Stint], d: u8) -> Option<usize>
    ensures there { IfSome result (λ i. i < length stints.now) }
    ensures open { IfSome result (λ i. is_open_of d (slice_index_or (map keeping_of stints.now) i no_keeping) ≡ true) }
    ensures none { IfNone result ((i : ℕ) → i < length stints.now
        → is_open_of d (slice_index_or (map keeping_of stints.now) i no_keeping) ≡ false) }
{
    let mut i = stints.len();
    while i > 0 {
        i -= 1;
        if stints[i].is_open(d) {
            return Some(i);
        }
    }
    None
}

impl Stint {
    /// Whether it is of this device, which wasn't given back.
    fn is_open(&self, d: u8) -> bool
        ensures { result ≡ is_open_of d (keeping_of self.now) }
    {
        self.d == d && !(self.given && self.device.is_some())
    }
}
