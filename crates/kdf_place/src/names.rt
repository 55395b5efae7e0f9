//! What the names of a deck mean.
ghost use Rattle.std.specs.Prelude.{◌≡◌, ◌==◌, ◌&&◌, ◌≤◌, ◌<◌, ◌^◌, length, sum, take};
ghost use Rattle.kdf_place.specs.Names.{store_at, v_store, y_store, section_named, store_address, reference, first_order, syllable_of};
ghost use Rattle.kdf_place.specs.Tables.{meaning, kept};

use crate::here::Section;
use crate::table::Table;
use kdf_usercode::{DeckFault, Named, Target};

/// What a number means in a section, and the place of the statement that says so.
#[derive(Clone, Copy)]
pub struct Entry<T> {
    /// The place of the section's opening.
    pub section: u32,
    pub number: u16,
    pub means: T,
    pub place: u32,
}

impl<T> Entry<T> {
    /// Whether it says what this number means in this section.
    pub fn is_named(&self, section: u32, number: u16) -> bool
        ensures value { result ≡ (self.now.section == section && self.now.number == number) }
        ensures small { self.now.number < 2 ^ 16 }
    {
        let same = self.number == number;
        self.section == section && same
    }
}

/// A reference: the number of its part, and its syllable.
#[derive(Clone, Copy)]
pub struct Mark {
    pub part: u16,
    pub at: u64,
}

/// What the number of a part means: the part, and the syllable of its first order.
#[derive(Clone, Copy)]
pub struct Opening {
    pub section: Section,
    pub first: u64,
}

/// What the names of a deck mean.
#[derive(Drop)]
pub struct Meanings {
    /// The parts by their numbers, in section 0.
    pub parts: Table<Opening>,
    /// The references of each section.
    pub labels: Table<Mark>,
    /// How many words each group of Y-stores has.
    pub groups: [u32; 27],
    /// The address of the first Y-store.
    pub behind: u64,
}

/// Store `n` of `count`, the first of which has the address `base`.
fn store_at(base: u64, count: u64, fault: DeckFault, n: u16) -> Result<u64, DeckFault>
    ensures { result ≡ kept (store_at base count fault n) }
{
    if u64::from(n) < count {
        Ok(base.wrapping_add(u64::from(n)))
    } else {
        Err(fault)
    }
}

/// The address of V-store `n` of a part.
pub fn v_store(section: Option<Section>, n: u16) -> Result<u64, DeckFault>
    ensures { result ≡ kept (v_store section n) }
{
    match section {
        None => Err(DeckFault::PartMissing),
        Some(section) => store_at(section.base, section.stores, DeckFault::VRange, n),
    }
}

/// How many words these groups have.
fn words_in(counts: &[u32]) -> u64
    requires { length counts.now ≤ 27 }
    ensures value { result ≡ sum counts.now }
    ensures small { result < 2 ^ 40 }
{
    let mut words = 0u64;
    for count in counts {
        words += u64::from(*count);
    }
    words
}

impl Meanings {
    /// The first part that bears the number.
    fn opening(&self, part: u16) -> Option<Opening>
        ensures { result ≡ (meaning self.now).parts part }
    {
        self.parts.find(0, part)
    }

    /// This part, or the first that bears the number.
    fn section_named(&self, section: Section, part: Option<u16>) -> Option<Section>
        ensures { result ≡ section_named (meaning self.now) section part }
    {
        match part {
            None => Some(section),
            Some(part) => Some(self.opening(part)?.section),
        }
    }

    /// The words of all groups before this one.
    fn words_before(&self, group: u8) -> u64
        ensures value { result ≡ sum (take group self.now.groups) }
    {
        match self.groups.get(..usize::from(group)) {
            Some(before) => words_in(before),
            None => words_in(&self.groups),
        }
    }

    /// How many words all groups have.
    pub fn y_words(&self) -> u64
        ensures value { result ≡ sum self.now.groups }
        ensures small { result < 2 ^ 40 }
    {
        words_in(&self.groups)
    }

    /// The address of a store of a group.
    fn y_store(&self, group: u8, n: u16) -> Result<u64, DeckFault>
        ensures { result ≡ kept (y_store (meaning self.now) group n) }
    {
        let count = self.groups.get(usize::from(group)).copied().unwrap_or(0);
        let base = self.behind.wrapping_add(self.words_before(group));
        store_at(base, u64::from(count), DeckFault::YRange, n)
    }

    /// The address that a store has in this part.
    pub fn address(&self, section: Section, place: Named) -> Result<u64, DeckFault>
        ensures { result ≡ kept (store_address (meaning self.now) section place) }
    {
        match place {
            Named::Y { group, n } => self.y_store(group, n),
            Named::V { n, p } => v_store(self.section_named(section, p), n),
            Named::E { n } => Ok(u64::from(n)),
        }
    }

    fn reference(&self, section: Option<Section>, number: u16) -> Result<u64, DeckFault>
        ensures { result ≡ reference (meaning self.now) section number }
    {
        let section = section.ok_or(DeckFault::PartMissing)?;
        match self.labels.find(section.opened, number) {
            None => Err(DeckFault::ReferenceMissing),
            Some(mark) => Ok(mark.at),
        }
    }

    /// The first order of the part that bears the number.
    pub fn first_order(&self, part: u16) -> Result<u64, DeckFault>
        ensures { result ≡ first_order (meaning self.now) part }
    {
        match self.opening(part) {
            None => Err(DeckFault::PartMissing),
            Some(opening) => Ok(opening.first),
        }
    }

    /// The syllable that a target means in this part.
    pub fn syllable_of(&self, section: Section, target: Target) -> Result<u64, DeckFault>
        ensures { result ≡ syllable_of (meaning self.now) section target }
    {
        match (target.r, target.p) {
            (Some(r), part) => self.reference(self.section_named(section, part), r),
            (None, Some(part)) => self.first_order(part),
            (None, None) => Err(DeckFault::PartMissing),
        }
    }
}
