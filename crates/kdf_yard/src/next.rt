//! Which program is next: of those that are live and aren't held up still, the one of the highest priority.
ghost use Rattle.std.specs.Prelude.{◌≡◌, ◌+◌, ◌*◌, ◌/◌, ◌%◌, ◌<◌, ◌≤◌, IfSome, length, true};
ghost use Rattle.kdf_journal.specs.Counts.{priorities, slot_numbers};
ghost use Rattle.kdf_lockout.specs.Groups.{is_out};
ghost use Rattle.kdf_processor.specs.Lone.{is_live};
ghost use Rattle.kdf_theory.specs.Holders.{is_held};
ghost use Rattle.kdf_yard.specs.Fields.Going.{any_on, goes, is_stopped, place_of, IsNearHold};
ghost use Rattle.kdf_yard.specs.Fields.Parts.{reach_of, seat_of, window_at};
ghost use Rattle.kdf_places.specs.Shared.{shared_in, is_busy_in};
ghost use Rattle.kdf_yard.specs.Fields.Running.{seats_in, AreNumbered};
ghost use Rattle.kdf_yard.specs.Fields.Yards.{any_in, first_in, goes_in, AreLentIn, AreNear, AreOfFour};

use crate::devices::first_unheld;
use crate::dispatch::window_of;
use crate::{Loaded, Place, Program, Yard};
use kdf_journal::Journal;
use kdf_lockout::Store;
use kdf_processor::{Life, Need};
use kdf_relocate::Window;

/// Whether a program runs.
#[inline(always)]
fn is_on(life: Life) -> bool
    ensures { result ≡ is_live life }
{
    match life {
        Life::Live => true,
        Life::Ended | Life::Failed(_) => false,
    }
}

/// Whether the group of a place of the store is out.
fn is_out_at(store: &Store, place: usize) -> bool
    requires { place / 32 < length store.now }
    ensures { result ≡ is_out store.now (place / 32) }
{
    match store.read(place) {
        Ok(_) => false,
        Err(_) => true,
    }
}

/// Whether a device has a transfer.
pub(crate) fn is_busy_at(store: &Store, places: &[Place], d: u8) -> bool
    ensures { result ≡ is_busy_in (shared_in store.now places.now) d }
{
    match places.get(usize::from(d)) {
        Some(place) => place.is_busy(),
        None => false,
    }
}

/// The place of the first word of a group of a window.
fn place_in(window: Window, group: u16) -> usize
    ensures { result ≡ window.base + 32 * group }
{
    window.base as usize + 32 * usize::from(group)
}

/// Whether a need of a program is pending still. Few calls ask: this stays out of the way of the others.
#[inline(never)]
fn is_pending(
    windows: &[Window; 4],
    slot: &Loaded,
    store: &Store,
    places: &[Place],
    journal: &Journal,
    need: Need,
) -> bool
    requires near { IsNearHold (window_at windows.now slot.now.p).size (Some need) }
    requires at_group { (window_at windows.now slot.now.p).base % 32 ≡ 0 }
    requires in_store { (window_at windows.now slot.now.p).base
        + (window_at windows.now slot.now.p).size ≤ 32 * length store.now }
    ensures { result ≡ is_stopped (reach_of windows.now slot.now) (is_held journal.now.entries)
        (shared_in store.now places.now) (Some need) }
{
    match need {
        Need::Group(g) => is_out_at(store, place_in(window_of(windows, slot.p), g)),
        Need::Device(d) => is_busy_at(store, places, d),
        Need::Pool(kind) => first_unheld(&slot.pool, journal, kind).is_none(),
    }
}

/// Whether what held a program is pending still.
#[inline(always)]
fn is_stopped(
    windows: &[Window; 4],
    slot: &Loaded,
    store: &Store,
    places: &[Place],
    journal: &Journal,
    hold: Option<Need>,
) -> bool
    requires near { IsNearHold (window_at windows.now slot.now.p).size hold }
    requires at_group { (window_at windows.now slot.now.p).base % 32 ≡ 0 }
    requires in_store { (window_at windows.now slot.now.p).base
        + (window_at windows.now slot.now.p).size ≤ 32 * length store.now }
    ensures { result ≡ is_stopped (reach_of windows.now slot.now) (is_held journal.now.entries)
        (shared_in store.now places.now) hold }
{
    match hold {
        None => false,
        Some(need) => is_pending(windows, slot, store, places, journal, need),
    }
}

/// Whether a program is live, and isn't held up still.
#[inline(always)]
fn goes(
    windows: &[Window; 4],
    slot: &Loaded,
    program: &Program,
    store: &Store,
    places: &[Place],
    journal: &Journal,
) -> bool
    requires near { IsNearHold (window_at windows.now slot.now.p).size program.now.hold }
    requires at_group { (window_at windows.now slot.now.p).base % 32 ≡ 0 }
    requires in_store { (window_at windows.now slot.now.p).base
        + (window_at windows.now slot.now.p).size ≤ 32 * length store.now }
    ensures { result ≡ goes (seat_of program.now) (reach_of windows.now slot.now) (is_held journal.now.entries)
        (shared_in store.now places.now) program.now.hold }
{
    is_on(program.registers.state)
        && !is_stopped(windows, slot, store, places, journal, program.hold)
}

/// Which of the programs is in this slot.
fn place_of(programs: &[Program], p: u8) -> Option<usize>
    ensures result { result ≡ place_of (seats_in programs.now) p }
    ensures there { IfSome result (λ i. i < length programs.now) }
{
    for (i, program) in programs.iter().enumerate() {
        if program.p == p {
            return Some(i);
        }
    }
    None
}

/// The priorities that the slots have before any exchange, 0 to 3, as the bytes of one number.
const FIRST_PRIORITIES: u32 = 0x0302_0100;

/// Whether the slots have the priorities that they have before any exchange. Each call asks, so all four are compared
/// at once.
#[inline(always)]
fn are_first(priorities: &[u8; 4]) -> bool
    ensures { result ≡ true → priorities.now ≡ slot_numbers }
{
    u32::from_le_bytes(*priorities) == FIRST_PRIORITIES
}

impl Yard {
    /// Which of the programs is in this slot.
    #[inline(always)]
    fn place_of(&self, p: u8) -> Option<usize>
        ensures result { result ≡ place_of self.now.seats p }
        ensures there { IfSome result (λ i. i < length self.now.seats) }
    {
        place_of(&self.programs, p)
    }

    /// Whether the program at this place is live, and isn't held up still.
    #[inline(always)]
    fn goes_at(&self, journal: &Journal, i: usize) -> bool
        requires there { i < length self.now.seats }
        requires near { AreNear self.now }
        requires lent { AreLentIn self.now journal.now.entries }
        ensures { result ≡ goes_in self.now i }
    {
        goes(
            &self.windows,
            &self.slots[i],
            &self.programs[i],
            &self.store,
            &self.places,
            journal,
        )
    }

    /// How many programs there are.
    #[inline(always)]
    fn count(&self) -> usize
        ensures { result ≡ length self.now.seats }
    {
        self.programs.len()
    }

    /// The program that is next, if one is, before any exchange of priorities: the programs stand in the order of their
    /// slots.
    #[inline(always)]
    fn first_of_all(&self, journal: &Journal) -> Option<usize>
        requires near { AreNear self.now }
        requires lent { AreLentIn self.now journal.now.entries }
        requires four { AreOfFour self.now }
        requires numbered { AreNumbered self.now.seats }
        ensures { result ≡ first_in self.now slot_numbers }
    {
        for i in 0..self.count() {
            if self.goes_at(journal, i) {
                return Some(i);
            }
        }
        None
    }

    /// The program that is next, if one is, by these priorities.
    #[inline(always)]
    fn first_by(&self, journal: &Journal, priorities: &[u8; 4]) -> Option<usize>
        requires near { AreNear self.now }
        requires lent { AreLentIn self.now journal.now.entries }
        ensures { result ≡ first_in self.now priorities.now }
    {
        for p in priorities {
            if let Some(i) = self.place_of(*p) {
                if self.goes_at(journal, i) {
                    return Some(i);
                }
            }
        }
        None
    }

    /// The program that is next, if one is.
    #[inline(always)]
    pub fn next_of(&self, journal: &Journal) -> Option<usize>
        requires near { AreNear self.now }
        requires lent { AreLentIn self.now journal.now.entries }
        requires four { AreOfFour self.now }
        requires numbered { AreNumbered self.now.seats }
        ensures { result ≡ first_in self.now (priorities journal.now.entries) }
    {
        let priorities = journal.priorities();
        if are_first(&priorities) {
            self.first_of_all(journal)
        } else {
            self.first_by(journal, &priorities)
        }
    }

    /// Whether a program is live.
    #[inline(always)]
    pub fn is_any_on(&self) -> bool
        ensures { result ≡ any_in self.now }
    {
        is_any_on(&self.programs)
    }
}

/// Whether a program is live.
pub fn is_any_on(programs: &[Program]) -> bool
    ensures { result ≡ any_on programs.now }
{
    programs
        .iter()
        .any(|program| is_on(program.registers.state))
}
