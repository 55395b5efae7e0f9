//! Where a walk over the statements of a deck has come to.
ghost use Rattle.std.specs.Prelude.{◌≡◌, ◌≤◌, ◌<◌, ◌+◌, ◌*◌, ◌^◌};
ghost use Rattle.kdf_place.specs.Layout.{size_of, is_order, is_opening, stores, words_for, round_up, advance, opened, section_after, after, front};

use kdf_syllable::size;
use kdf_usercode::{Statement, What};

/// A part, from the statement that opens it.
#[derive(Clone, Copy)]
pub struct Section {
    /// The place of its opening in the deck. It tells parts apart, also where two bear one number.
    pub opened: u32,
    /// Its number. The main part is 0.
    pub part: u16,
    /// The address of its V-store 0.
    pub base: u64,
    /// How many V-stores it has.
    pub stores: u64,
}

/// The part, and the syllable, counted from the begin of the image, after all that stands before.
#[derive(Clone, Copy)]
pub struct Here {
    pub section: Section,
    pub at: u64,
}

/// How many syllables the order of a statement has. What is no order has none.
pub fn size_of(what: &What) -> u64
    ensures value { result ≡ size_of what.now }
    ensures small { result ≤ 3 }
{
    match what {
        What::Plain { order } => u64::from(size(order)),
        What::Short { .. } => 2,
        What::Fetch { .. } | What::Keep { .. } | What::SetAddress { .. } | What::Go { .. } => 3,
        _ => 0,
    }
}

/// Whether the statement is an order.
pub fn is_order(what: &What) -> bool
    ensures { result ≡ is_order what.now }
{
    size_of(what) > 0
}

/// Whether the statement opens a part.
pub fn is_opening(what: &What) -> bool
    ensures { result ≡ is_opening what.now }
{
    matches!(what, What::Program { .. } | What::Part { .. })
}

/// How many V-stores a part has whose last is this one.
pub fn stores(last: Option<u16>) -> u64
    ensures value { result ≡ stores last }
    ensures small { result ≤ 65536 }
{
    match last {
        None => 0,
        Some(n) => u64::from(n) + 1,
    }
}

/// The words that so many syllables fill or begin.
pub fn words_for(syllables: u64) -> u64
    requires { syllables < 2 ^ 62 }
    ensures value { result ≡ words_for syllables }
    ensures near { 6 * result ≤ syllables + 5 }
{
    syllables.div_ceil(6)
}

/// The next begin of a word.
pub fn round_up(at: u64) -> u64
    requires { at < 2 ^ 62 }
    ensures value { result ≡ round_up at }
    ensures near { result ≤ at + 5 }
{
    6 * words_for(at)
}

/// The syllable after a statement that stands at `at`.
pub fn advance(at: u64, what: &What) -> u64
    requires { at < 2 ^ 62 }
    ensures value { result ≡ advance at what.now }
    ensures near { result ≤ at + 400000 }
{
    match what {
        What::Star => round_up(at),
        What::Program { v } | What::Part { v, .. } => round_up(at) + 6 * stores(*v),
        _ => at + size_of(what),
    }
}

impl Here {
    /// Before the first part: word 0 is the jump to the first order.
    pub fn front() -> Self
        ensures { result ≡ front }
    {
        Here {
            section: Section {
                opened: 0,
                part: 0,
                base: 0,
                stores: 0,
            },
            at: 6,
        }
    }

    fn opened(self, place: u32, part: u16, last: Option<u16>) -> Section
        requires { self.at < 2 ^ 62 }
        ensures value { result ≡ opened self.at place part last }
    {
        Section {
            opened: place,
            part,
            base: words_for(self.at),
            stores: stores(last),
        }
    }

    /// The part after a statement.
    fn section_after(self, place: u32, what: &What) -> Section
        requires { self.at < 2 ^ 62 }
        ensures { result ≡ section_after self place what.now }
    {
        match what {
            What::Program { v } => self.opened(place, 0, *v),
            What::Part { p, v } => self.opened(place, *p, *v),
            _ => self.section,
        }
    }

    /// The place after a statement that stands here.
    pub fn after(self, statement: &Statement) -> Self
        requires { self.at < 2 ^ 62 }
        ensures value { result ≡ after self statement.now }
        ensures near { result.at ≤ self.at + 400000 }
    {
        Here {
            section: self.section_after(statement.place, &statement.what),
            at: advance(self.at, &statement.what),
        }
    }
}
