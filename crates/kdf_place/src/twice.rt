//! The names that stand twice.
ghost use Rattle.std.specs.Prelude.{◌≡◌, ◌<◌, ℕ, [], get_or, is_some, length, take, Some, IfOk};
ghost use Rattle.std.specs.List.Sorted.{IsNonDecreasingBy};
ghost use Rattle.kdf_usercode.specs.Faults.{lesser, least, found};
ghost use Rattle.kdf_place.specs.Keys.{key};
ghost use Rattle.kdf_place.specs.Late.{twice};
ghost use Rattle.kdf_place.specs.Names.{first};

use crate::names::Entry;
use crate::table::{Table, sort};
use kdf_fault::{Found, earlier};
use kdf_usercode::DeckFault;
use std::alloc::AllocError;

/// This fault as well.
pub fn with_fault(
    best: Option<Found<DeckFault>>,
    fault: DeckFault,
    place: u32,
) -> Option<Found<DeckFault>>
    ensures { result ≡ lesser best (Some (found fault place)) }
{
    earlier(best, Found { fault, place })
}

/// Whether the number of entry `i` stands before it as well: in sorted entries, directly before it.
fn stood_before<T: Copy + Drop>(entries: &[Entry<T>], i: usize, entry: &Entry<T>) -> bool
    requires within { i < length entries.now }
    requires is { entry.now ≡ get_or entries.now i entry.now }
    requires rising { IsNonDecreasingBy key entries.now }
    ensures { result ≡ is_some (first entry.now.section entry.now.number (take i entries.now)) }
{
    if i == 0 {
        return false;
    }
    entries[i - 1].is_named(entry.section, entry.number)
}

/// The fault of the entries whose number stood before.
fn first_twice<T: Copy + Drop>(fault: DeckFault, entries: &[Entry<T>]) -> Option<Found<DeckFault>>
    requires { IsNonDecreasingBy key entries.now }
    ensures { result ≡ least (twice fault [] entries.now) }
{
    let mut best = None;
    for (i, entry) in entries.iter().enumerate() {
        if stood_before(entries, i, entry) {
            best = with_fault(best, fault, entry.place);
        }
    }
    best
}

/// What each number means in each section, and the fault of the entries whose number stood before.
pub fn table<T: Copy + Drop>(
    fault: DeckFault,
    entries: Vec<Entry<T>>,
) -> Result<(Table<T>, Option<Found<DeckFault>>), AllocError>
    ensures means { IfOk result (λ r. (p n : ℕ)
        → first p n r.0.entries.items ≡ first p n entries.items) }
    ensures faults { IfOk result (λ r. r.1 ≡ least (twice fault [] entries.items)) }
{
    let mut entries = entries;
    sort(&mut entries)?;
    let found = first_twice(fault, &entries);
    Ok((Table { entries }, found))
}
