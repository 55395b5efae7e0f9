//! What a journal tells of its run, entry by entry.
ghost use Rattle.kdf_service.specs.Rules.{IsService};

use crate::flights::Flight;
use crate::holds::{Ask, HeldBy, Hold, Loan};
use crate::pasts::{Past, Stretch, go_on, live_of, notes_of};
use crate::retrace::{Before, Retrace};
use kdf_account::{Free, Unlocked, free_of, with_one};
use kdf_job::kind_lent;
use kdf_journal::{Entry, Kind};
use kdf_json::count_of;
use kdf_listing::{Deck, Layout, layout_of};
use kdf_service::Service;
use std::alloc::{AllocError, Global};

/// What doesn't change in a run: its decks, its pool, and how many orders each program obeys that is live at the end and whose last orders are to be noted.
#[derive(Clone, Copy)]
pub struct Backdrop<'a, 'b> {
    pub decks: &'a [Deck<'b>],
    pub pool: &'a [(u8, Kind)],
    pub live: [u32; 4],
}

/// What is known of a run after some of its entries.
#[derive(Drop)]
pub struct Story {
    pub flights: Vec<Flight>,
    pub holds: Vec<Hold>,
    pub asks: Vec<Ask>,
    pub loans: Vec<Loan>,
    /// The last orders of the programs that are live at the end.
    pub pasts: Vec<Past>,
    /// The numbers of the transfers that go on, by device, and how many do.
    pub open: [Option<u32>; 16],
    pub going: u32,
    /// The numbers of the loans that go on, by device.
    pub lent: [Option<u32>; 16],
    /// The numbers of the holds that go on, by slot.
    pub held: [Option<u32>; 4],
    /// How many orders each program has obeyed.
    pub ran: [u32; 4],
    /// After how many calls each program that is over was so.
    pub over: [Option<u32>; 4],
    pub free: Free,
    pub idle: u32,
    /// The calls in which an order was obeyed while a transfer went on.
    pub meanwhile: u32,
}

/// How often the machine of a retrace is looked at for these entries, and for the last orders of programs of which so many are live.
pub fn looks_for(entries: &[Entry], live: [u32; 4]) -> u32 {
    let mut looks = 0u32;
    for entry in entries {
        match *entry {
            Entry::Start { .. } | Entry::Answer { .. } | Entry::Take { .. } => {
                looks = looks.saturating_add(1);
            }
            _ => {}
        }
    }
    for all in live {
        looks = looks.saturating_add(notes_of(all));
    }
    looks
}

fn without_one(free: Free, kind: Kind) -> Free {
    match kind {
        Kind::Tp => Free {
            punches: free.punches.saturating_sub(1),
            ..free
        },
        Kind::Lp => Free {
            printers: free.printers.saturating_sub(1),
            ..free
        },
        _ => free,
    }
}

impl Story {
    /// Before the first entry, where the pool has these devices, and these last orders are known.
    pub fn new(alloc: Global, pool: &[(u8, Kind)], pasts: Vec<Past>) -> Story {
        Story {
            flights: Vec::new(alloc),
            holds: Vec::new(alloc),
            asks: Vec::new(alloc),
            loans: Vec::new(alloc),
            pasts,
            open: [None; 16],
            going: 0,
            lent: [None; 16],
            held: [None; 4],
            ran: [0; 4],
            over: [None; 4],
            free: free_of(pool),
            idle: 0,
            meanwhile: 0,
        }
    }

    /// Takes an entry before which so many calls were made. Answers what it unlocked.
    pub fn take<F: Fn(u64) -> u64>(
        &mut self,
        call: u32,
        entry: Entry,
        retrace: &mut Retrace,
        world: Backdrop<'_, '_>,
        service: &Service<F>,
    ) -> Result<Option<Unlocked>, AllocError>
        requires { IsService (F.pre service.now) (F.post service.now) }
    {
        match entry {
            Entry::Ran { p, n } => {
                let stretch = self.take_orders(call, p, n);
                go_on(
                    &mut self.pasts,
                    stretch,
                    live_of(world.live, p),
                    retrace,
                    service,
                )?;
            }
            Entry::Idle { n } => {
                self.idle = self.idle.saturating_add(n);
                retrace.owe(n);
            }
            Entry::Lov { .. } | Entry::Busy { .. } | Entry::Wait { .. } => {
                self.take_hold(call, entry)?;
                retrace.owe(1);
            }
            Entry::Start { p, d, k } => {
                let flight = begun(call, p, d, k, retrace, world, service)?;
                self.begin(d, flight)?;
            }
            Entry::Answer { .. } | Entry::Take { .. } | Entry::Give { .. } => {
                self.take_question(call, entry, retrace, world, service)?;
            }
            Entry::Fail { p, .. } | Entry::Ended { p } => self.give_all(call, p, world.pool),
            Entry::Move { .. } | Entry::Clock { .. } | Entry::Swap { .. } | Entry::End { .. } => {
                return self.take_event(call, entry, retrace, service);
            }
        }
        Ok(None)
    }

    /// The orders that a program obeyed.
    fn take_orders(&mut self, call: u32, p: u8, n: u32) -> Stretch {
        let mut from = 0;
        if self.going > 0 {
            self.meanwhile = self.meanwhile.saturating_add(n);
        }
        let slot = usize::from(p);
        if slot < 4 {
            from = self.ran[slot];
            self.ran[slot] = from.saturating_add(n);
            if let Some(i) = self.held[slot] {
                set_resumed(&mut self.holds, i, call);
            }
            self.held[slot] = None;
        }
        Stretch { p, from, n }
    }

    /// What held a program up.
    fn take_hold(&mut self, call: u32, entry: Entry) -> Result<(), AllocError> {
        let (p, cause) = match entry {
            Entry::Lov { p, group } => (p, HeldBy::Group(group)),
            Entry::Busy { p, d } => (p, HeldBy::Device(d)),
            Entry::Wait { p, kind } => (p, HeldBy::Pool(kind)),
            _ => return Ok(()),
        };
        let slot = usize::from(p);
        if slot >= 4 {
            return Ok(());
        }
        let hold = Hold {
            p,
            k: self.ran[slot].saturating_add(1),
            call,
            cause,
            flight: self.flight_of(p, cause),
            resumed: None,
        };
        self.held[slot] = Some(count_of(self.holds.len()));
        self.holds.push(hold)?;
        Ok(())
    }

    /// The number of the transfer that a program waits for.
    fn flight_of(&self, p: u8, cause: HeldBy) -> Option<u32> {
        match cause {
            HeldBy::Device(d) => number_at(&self.open, d),
            HeldBy::Group(group) => self.locker_of(p, group),
            HeldBy::Pool(_) => None,
        }
    }

    /// The number of the transfer that has locked a group of a program out.
    fn locker_of(&self, p: u8, group: u16) -> Option<u32> {
        for number in self.open {
            if let Some(i) = number {
                if let Some(flight) = self.flights.get(i as usize) {
                    if has_group(flight.locked, p, group) {
                        return Some(i);
                    }
                }
            }
        }
        None
    }

    /// A transfer that begins on a device.
    fn begin(&mut self, d: u8, flight: Flight) -> Result<(), AllocError> {
        let number = count_of(self.flights.len());
        self.flights.push(flight)?;
        set_number(&mut self.open, d, Some(number));
        self.going = self.going.saturating_add(1);
        Ok(())
    }

    /// What the schedule did. Answers what it unlocked.
    fn take_event<F: Fn(u64) -> u64>(
        &mut self,
        call: u32,
        entry: Entry,
        retrace: &mut Retrace,
        service: &Service<F>,
    ) -> Result<Option<Unlocked>, AllocError>
        requires { IsService (F.pre service.now) (F.post service.now) }
    {
        retrace.go(service)?;
        retrace.enter(entry);
        match entry {
            Entry::Move { d, n } => {
                self.move_on(d, n);
                Ok(None)
            }
            Entry::End { d } => Ok(self.end(call, d)),
            _ => Ok(None),
        }
    }

    /// The transfer of a device, if it has one, moves so many words more, or those that are left.
    fn move_on(&mut self, d: u8, n: u16) {
        if let Some(i) = number_at(&self.open, d) {
            add_moved(&mut self.flights, i, n);
        }
    }

    /// The end of the transfer of a device. Answers what it unlocked.
    fn end(&mut self, call: u32, d: u8) -> Option<Unlocked> {
        let i = number_at(&self.open, d)?;
        set_number(&mut self.open, d, None);
        self.going = self.going.saturating_sub(1);
        set_ended(&mut self.flights, i, call)
    }

    /// A question with its answer, a device that the pool lends, or one that it has back.
    fn take_question<F: Fn(u64) -> u64>(
        &mut self,
        call: u32,
        entry: Entry,
        retrace: &mut Retrace,
        world: Backdrop<'_, '_>,
        service: &Service<F>,
    ) -> Result<(), AllocError>
        requires { IsService (F.pre service.now) (F.post service.now) }
    {
        match entry {
            Entry::Answer { p, v } => {
                let before = retrace.before_last(p, service)?;
                self.push_ask(call, p, v, before)
            }
            Entry::Take { p, d } => {
                let before = retrace.before_last(p, service)?;
                self.push_ask(call, p, u64::from(d), before)?;
                self.lend(call, p, d, world.pool)
            }
            Entry::Give { d, .. } => {
                self.give(call, d, world.pool);
                Ok(())
            }
            _ => Ok(()),
        }
    }

    fn push_ask(
        &mut self,
        call: u32,
        p: u8,
        answer: u64,
        before: Option<Before>,
    ) -> Result<(), AllocError> {
        let slot = usize::from(p);
        let k = if slot < 4 { self.ran[slot] } else { 0 };
        self.asks.push(Ask {
            p,
            k,
            call,
            answer,
            before,
        })?;
        Ok(())
    }

    /// The pool lends a device.
    fn lend(&mut self, call: u32, p: u8, d: u8, pool: &[(u8, Kind)]) -> Result<(), AllocError> {
        if let Some(kind) = kind_lent(pool, d) {
            self.free = without_one(self.free, kind);
        }
        set_number(&mut self.lent, d, Some(count_of(self.loans.len())));
        self.loans.push(Loan {
            p,
            d,
            taken: call,
            given: None,
        })?;
        Ok(())
    }

    /// The pool has a device back.
    fn give(&mut self, call: u32, d: u8, pool: &[(u8, Kind)]) {
        let Some(i) = number_at(&self.lent, d) else {
            return;
        };
        set_given(&mut self.loans, i, call);
        set_number(&mut self.lent, d, None);
        if let Some(kind) = kind_lent(pool, d) {
            self.free = with_one(self.free, kind);
        }
    }

    /// The pool has back what a program had.
    fn give_all(&mut self, call: u32, p: u8, pool: &[(u8, Kind)]) {
        let slot = usize::from(p);
        if slot < 4 {
            self.over[slot] = Some(call);
        }
        for d in 0..16 {
            if self.borrower(d) == Some(p) {
                self.give(call, d, pool);
            }
        }
    }

    /// After how many calls the program of a slot was over.
    pub fn over_of(&self, p: u8) -> Option<u32> {
        let slot = usize::from(p);
        if slot < 4 { self.over[slot] } else { None }
    }

    /// The program that has a device of the pool.
    pub fn borrower(&self, d: u8) -> Option<u8> {
        let i = number_at(&self.lent, d)?;
        let loan = self.loans.get(i as usize)?;
        Some(loan.p)
    }
}

/// Whether no device of a kind is free.
pub fn is_none_free(free: Free, kind: Kind) -> bool {
    match kind {
        Kind::Tp => free.punches == 0,
        Kind::Lp => free.printers == 0,
        _ => false,
    }
}

/// The number that a table has for a device.
fn number_at(table: &[Option<u32>; 16], d: u8) -> Option<u32> {
    let device = usize::from(d);
    if device < 16 { table[device] } else { None }
}

fn set_number(table: &mut [Option<u32>; 16], d: u8, number: Option<u32>) {
    let device = usize::from(d);
    if device < 16 {
        table[device] = number;
    }
}

fn set_resumed(holds: &mut Vec<Hold>, i: u32, call: u32) {
    let i = i as usize;
    if i < holds.len() {
        holds[i].resumed = Some(call);
    }
}

fn set_given(loans: &mut Vec<Loan>, i: u32, call: u32) {
    let i = i as usize;
    if i < loans.len() {
        loans[i].given = Some(call);
    }
}

/// Notes the end of a transfer. Answers what it unlocked.
fn set_ended(flights: &mut Vec<Flight>, i: u32, call: u32) -> Option<Unlocked> {
    let i = i as usize;
    if i >= flights.len() {
        return None;
    }
    flights[i].ended = Some(call);
    flights[i].locked
}

fn add_moved(flights: &mut Vec<Flight>, i: u32, n: u16) {
    let i = i as usize;
    if i < flights.len() {
        let Flight { total, moved, .. } = flights[i];
        flights[i].moved = moved.saturating_add(n).min(total);
    }
}

/// Whether these groups of a program have this one.
fn has_group(locked: Option<Unlocked>, p: u8, group: u16) -> bool {
    match locked {
        Some(groups) => groups.p == p && groups.first <= group && group <= groups.last,
        None => false,
    }
}

/// The transfer that a program began with the last call.
fn begun<F: Fn(u64) -> u64>(
    call: u32,
    p: u8,
    d: u8,
    k: u32,
    retrace: &mut Retrace,
    world: Backdrop<'_, '_>,
    service: &Service<F>,
) -> Result<Flight, AllocError>
    requires { IsService (F.pre service.now) (F.post service.now) }
{
    let before = retrace.before_last(p, service)?;
    retrace.catch_up(0, service)?;
    let at = before.map(|before| before.at);
    let q = match store_named(at, layout_of(world.decks, p)) {
        Some(q) => retrace.q_store(p, q),
        None => None,
    };
    let (total, moved, locked) = match retrace.going(p, d) {
        Some(going) => (going.total, going.moved, going.locked),
        None => (0, 0, None),
    };
    Ok(Flight {
        p,
        d,
        k,
        began: call,
        ended: None,
        at,
        q,
        total,
        moved,
        locked,
    })
}

/// The Q-store that the order at a syllable names, if it is one on a device.
fn store_named(at: Option<u16>, layout: Option<&Layout<'_>>) -> Option<u8> {
    layout?.order_at(at?)?.q
}
