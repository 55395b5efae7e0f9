//! What is wrong with the names of a deck.
ghost use Rattle.std.specs.Prelude.{◌≡◌, ◌<◌, ◌==◌, ◌+◌, ◌*◌, ◌/◌, ◌^◌, ◌++◌, length, Some, None, Result};
ghost use Rattle.kdf_usercode.specs.Faults.{lesser, least, founds};
ghost use Rattle.kdf_place.specs.Layout.{front};
ghost use Rattle.kdf_place.specs.Late.{fault_in, item_faults, value_faults, loop_faults, wrong, wrongs};
ghost use Rattle.kdf_place.specs.Names.{v_store, syllable_of};
ghost use Rattle.kdf_place.specs.Tables.{meaning};

use crate::here::{Here, Section};
use crate::names::{Meanings, v_store};
use crate::twice::with_fault;
use kdf_fault::Found;
use kdf_usercode::{DeckFault, Item, Statement, Target, Value, What};

/// The first fault so far, where there is one.
pub(crate) type Best = Option<Found<DeckFault>>;

/// The fault that stands in place of a number, after those before.
fn with_result(best: Best, place: u32, found: Result<u64, DeckFault>) -> Best
    ensures { result ≡ lesser best (least (founds place (fault_in found))) }
{
    match found {
        Ok(_) => best,
        Err(fault) => with_fault(best, fault, place),
    }
}

/// Whether a loop at `at` goes to the begin of the word before its own.
fn is_word_before(target: u64, at: u64) -> bool
    ensures { result ≡ (target + 6 == 6 * (at / 6)) }
{
    (at / 6 * 6).checked_sub(6) == Some(target)
}

/// The fault of a short loop at `at`, after those before.
fn with_loop(best: Best, place: u32, at: u64, target: Result<u64, DeckFault>) -> Best
    ensures { result ≡ lesser best (least (founds place (loop_faults at target))) }
{
    match target {
        Err(fault) => with_fault(best, fault, place),
        Ok(target) if is_word_before(target, at) => best,
        Ok(_) => with_fault(best, DeckFault::ShortLoopFar, place),
    }
}

impl Meanings {
    /// The fault of a part of a constant for a Q-store, after those before.
    fn with_item(&self, best: Best, place: u32, section: Section, item: Item) -> Best
        ensures { let faults = item_faults (meaning self.now) section item in
            result ≡ lesser best (least (founds place faults)) }
    {
        match item {
            Item::Bits { .. } => best,
            Item::Address { place: store } => {
                with_result(best, place, self.address(section, store))
            }
        }
    }

    /// The faults of the value of a constant, after those before.
    fn with_value(&self, best: Best, place: u32, section: Section, value: &Value) -> Best
        ensures { let faults = value_faults (meaning self.now) section value.now in
            result ≡ lesser best (least (founds place faults)) }
    {
        match value {
            Value::Number { .. } => best,
            Value::Triple { c, i, m } => {
                let best = self.with_item(best, place, section, *c);
                let best = self.with_item(best, place, section, *i);
                self.with_item(best, place, section, *m)
            }
        }
    }

    /// The faults of the constant of V-store `n`, after those before.
    fn with_constant(&self, best: Best, place: u32, section: Section, n: u16, value: &Value) -> Best
        ensures { let faults = fault_in (v_store (Some section) n)
            ++ value_faults (meaning self.now) section value.now in
            result ≡ lesser best (least (founds place faults)) }
    {
        let best = with_result(best, place, v_store(Some(section), n));
        self.with_value(best, place, section, value)
    }

    /// The fault of a short loop to a reference of its part, after those before.
    fn with_short(&self, best: Best, place: u32, here: Here, r: u16) -> Best
        ensures { let target = syllable_of (meaning self.now) here.section (record { r = Some r; p = None }) in
            let faults = loop_faults here.at target in
            result ≡ lesser best (least (founds place faults)) }
    {
        let target = Target {
            r: Some(r),
            p: None,
        };
        with_loop(best, place, here.at, self.syllable_of(here.section, target))
    }

    /// The faults of a statement that stands here, after those before.
    fn with_statement(&self, best: Best, here: Here, statement: &Statement) -> Best
        ensures { let faults = wrong (meaning self.now) here statement.now.what in
            result ≡ lesser best (least (founds statement.now.place faults)) }
    {
        let place = statement.place;
        let section = here.section;
        match &statement.what {
            What::Constant { n, value } => self.with_constant(best, place, section, *n, value),
            What::Fetch { place: store, .. }
            | What::Keep { place: store, .. }
            | What::SetAddress { place: store } => {
                with_result(best, place, self.address(section, *store))
            }
            What::Go { target, .. } => with_result(best, place, self.syllable_of(section, *target)),
            What::Short { r, .. } => self.with_short(best, place, here, *r),
            _ => best,
        }
    }

    /// The first of the faults of all statements and of what was found before.
    pub fn first_wrong(&self, best: Best, statements: &[Statement]) -> Best
        requires { length statements.now < 2 ^ 40 }
        ensures { result ≡ lesser best (least (wrongs (meaning self.now) front statements.now)) }
    {
        let mut best = best;
        let mut here = Here::front();
        for statement in statements {
            best = self.with_statement(best, here, statement);
            here = here.after(statement);
        }
        best
    }
}
