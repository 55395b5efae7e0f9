//! The numbers of a statement, and what they may be.

ghost use Rattle.std.specs.Prelude.{◌≡◌, ◌<◌, ◌^◌, slice_index, drop};
ghost use Rattle.kdf_usercode.specs.Faults.{lesser, least, founds};
ghost use Rattle.kdf_usercode.specs.Range.{range_fault, range_faults};

use crate::fault::DeckFault;
use kdf_fault::{Found, earlier};

/// The least and the greatest that a number may be, and the fault where it is outside.
#[derive(Clone, Copy)]
pub struct Range {
    pub low: u64,
    pub high: u64,
    pub fault: DeckFault,
}

/// The number of a Q-store.
pub const Q: Range = Range {
    low: 0,
    high: 15,
    fault: DeckFault::QRange,
};

/// A reference.
pub const REFERENCE: Range = Range {
    low: 1,
    high: 9999,
    fault: DeckFault::BadNumber,
};

/// A part that a target or a store names.
pub const PART: Range = Range {
    low: 0,
    high: 999,
    fault: DeckFault::BadNumber,
};

/// A part that is opened.
pub const OPENED: Range = Range {
    low: 1,
    high: 999,
    fault: DeckFault::BadNumber,
};

/// The number of a store.
pub const STORE: Range = Range {
    low: 0,
    high: 32767,
    fault: DeckFault::BadNumber,
};

/// The number at an index, or 0 where there is none.
pub fn number(numbers: &[u64], i: usize) -> u64
    ensures { result ≡ slice_index numbers.now i }
{
    numbers.get(i).copied().unwrap_or(0)
}

/// A number of at most sixteen bits.
pub fn short(n: u64) -> u16
    ensures { n < 65536 → result ≡ n }
{
    (n % 65536) as u16
}

/// The number at an index, which has at most sixteen bits.
pub fn short_at(numbers: &[u64], i: usize) -> u16
    ensures { slice_index numbers.now i < 65536 → result ≡ slice_index numbers.now i }
{
    short(number(numbers, i))
}

/// The number of a Q-store at an index.
pub fn q_at(numbers: &[u64], i: usize) -> u8
    ensures { slice_index numbers.now i < 16 → result ≡ slice_index numbers.now i }
{
    (number(numbers, i) % 16) as u8
}

/// The numbers after the first few.
pub fn behind_first(numbers: &[u64], count: usize) -> &[u64]
    ensures { result.now ≡ drop count numbers.now }
{
    numbers.get(count..).unwrap_or(&[])
}

/// The fault of a number, after those before.
pub fn with_range(
    best: Option<Found<DeckFault>>,
    place: u32,
    range: Range,
    n: u64,
) -> Option<Found<DeckFault>>
    ensures { result ≡ lesser best (least (founds place (range_fault range n))) }
{
    if range.low <= n && n <= range.high {
        best
    } else {
        earlier(
            best,
            Found {
                fault: range.fault,
                place,
            },
        )
    }
}

/// The faults of some numbers, after those before.
pub fn with_ranges(
    best: Option<Found<DeckFault>>,
    place: u32,
    ranges: &[Range],
    numbers: &[u64],
) -> Option<Found<DeckFault>>
    ensures { result ≡ lesser best (least (founds place (range_faults ranges.now numbers.now))) }
{
    let mut best = best;
    for (i, range) in ranges.iter().enumerate() {
        best = with_range(best, place, *range, number(numbers, i));
    }
    best
}
