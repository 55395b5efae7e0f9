//! Entries in the order of their sections and numbers.
ghost use Rattle.std.specs.Prelude.{◌≡◌, ◌≤◌, ℕ, nat_lt, true, false, [], length, OnOk};
ghost use Rattle.std.specs.List.Sorted.{IsNonDecreasingBy, IsPartitionPoint};
ghost use Rattle.std.proofs.Props.{props};
ghost use Rattle.kdf_usercode.specs.declared.fault.DeckFault.{DeckFault};
ghost use Rattle.kdf_usercode.specs.Faults.{least};
ghost use Rattle.kdf_place.specs.Keys.{key_of, key};
ghost use Rattle.kdf_place.specs.Late.{twice};
ghost use Rattle.kdf_place.specs.Names.{first};

use crate::names::Entry;
use std::alloc::AllocError;

/// What each number means in each section. Entries of one number stand in the order of the deck.
#[derive(Drop)]
pub struct Table<T> {
    pub entries: Vec<Entry<T>>,
    ghost rising: { IsNonDecreasingBy key entries.items } by { Prim.hlevel props },
}

/// A section and a number as one number.
fn key_of(section: u32, number: u16) -> u64
    ensures { result ≡ key_of section number }
{
    u64::from(section) * 65536 + u64::from(number)
}

/// Puts entries in order.
pub fn sort<T: Copy + Drop>(entries: &mut Vec<Entry<T>>) -> Result<(), AllocError>
    ensures rising { OnOk result (IsNonDecreasingBy key entries.new.items) }
    ensures means { OnOk result ((p n : ℕ)
        → first p n entries.new.items ≡ first p n entries.old.items) }
    ensures faults { OnOk result ((fault : DeckFault)
        → least (twice fault [] entries.new.items) ≡ least (twice fault [] entries.old.items)) }
{
    entries.sort_by_key(|entry| key_of(entry.section, entry.number))?;
    Ok(())
}

impl<T: Copy + Drop> Table<T> {
    /// How many entries stand before all that a number has in a section.
    fn before(&self, section: u32, number: u16) -> usize
        ensures point { let k = key_of section number in
            IsPartitionPoint (λ e. nat_lt (key e) k ≡ true) (λ e. nat_lt (key e) k ≡ false)
            self.now.entries.items result }
        ensures bound { result ≤ length self.now.entries.items }
    {
        let key = key_of(section, number);
        let entries = self.entries.as_slice();
        entries.partition_point(|entry| key_of(entry.section, entry.number) < key)
    }

    /// The first meaning of a number in a section.
    pub fn find(&self, section: u32, number: u16) -> Option<T>
        ensures { result ≡ first section number self.now.entries.items }
    {
        let place = self.before(section, number);
        let entries = self.entries.as_slice();
        if place == entries.len() {
            return None;
        }
        let entry = &entries[place];
        if entry.is_named(section, number) {
            Some(entry.means)
        } else {
            None
        }
    }
}
