//! The words of a program.
ghost use Rattle.std.specs.Prelude.{◌≡◌, ◌+◌, ◌*◌, ◌<◌, ◌≤◌, length, map};
ghost use Rattle.kdf_places.specs.Words.{word_at_place};
ghost use Rattle.kdf_places.specs.Spots.{spot_of, leases_of};

use crate::Place;
use kdf_lockout::Store;
use kdf_places::word_at;
use kdf_relocate::Window;
use kdf_word::Word;

/// A word of a program's window, here or in the lease of a transfer.
pub fn word_of(window: Window, store: &Store, places: &[Place], address: u16) -> Word
    requires below { address < window.size }
    requires in_store { window.base + window.size ≤ 32 * length store.now }
    requires sixteen { length places.now ≡ 16 }
    ensures { result
        ≡ word_at_place store.now (leases_of (map spot_of places.now)) (window.base + address) }
{
    let place = window.base as usize + usize::from(address);
    word_at(store, places, place)
}
