//! A program over the entries of a journal: whether it is held, and what became of each call.
ghost use Rattle.std.specs.Prelude.{◌≡◌, ◌+◌, ◌<◌, ◌^◌};
ghost use Rattle.kdf_journal.specs.Counts.{calls_in};
ghost use Rattle.kdf_account.specs.Lanes.{class_of, cleared, entered, is_none_free, is_unlocked, lane_after, never_held, passed, ran_on, tried};
ghost use Rattle.kdf_account.specs.Tallies.{total};

use crate::moment::{Free, Moment, Unlocked};
use crate::tally::{Class, Tally};
use kdf_journal::{Entry, Kind};

/// What held a program when it was tried last.
#[derive(Clone, Copy)]
pub enum Held {
    /// Nothing, or it has come.
    Nothing,
    Group(u16),
    Device(u8),
    Pool(Kind),
}

/// A program after some entries.
#[derive(Clone, Copy)]
pub struct Lane {
    pub held: Held,
    pub is_over: bool,
    pub free: Free,
    pub tally: Tally,
}

impl Lane {
    /// Before the first entry, where the pool has these devices.
    pub fn new(free: Free) -> Lane
        ensures { result ≡ never_held free }
    {
        Lane {
            held: Held::Nothing,
            is_over: false,
            free,
            tally: Tally::new(),
        }
    }

    /// What a call is for the program where it isn't tried.
    fn class(&self) -> Class
        ensures { result ≡ class_of self.now }
    {
        if self.is_over {
            return Class::Over;
        }
        match self.held {
            Held::Nothing => Class::Ready,
            Held::Group(_) => Class::Group,
            Held::Device(_) => Class::Device,
            Held::Pool(kind) if is_none_free(self.free, kind) => Class::Pool,
            Held::Pool(_) => Class::Ready,
        }
    }

    /// After `n` calls that didn't try the program.
    fn passed(self, n: u32) -> Lane
        requires { total self.tally + n < 2 ^ 32 }
        ensures lane { result ≡ passed self n }
        ensures total { total result.tally ≡ total self.tally + n }
    {
        Lane {
            tally: self.tally.charged(self.class(), n),
            ..self
        }
    }

    /// After `n` orders of the program.
    fn ran(self, n: u32) -> Lane
        requires { total self.tally + n < 2 ^ 32 }
        ensures lane { result ≡ ran_on self n }
        ensures total { total result.tally ≡ total self.tally + n }
    {
        Lane {
            held: Held::Nothing,
            tally: self.tally.charged(Class::Running, n),
            ..self
        }
    }

    /// After a call that found the program held.
    fn tried(self, held: Held, class: Class) -> Lane
        requires { total self.tally + 1 < 2 ^ 32 }
        ensures lane { result ≡ tried self held class }
        ensures total { total result.tally ≡ total self.tally + 1 }
    {
        Lane {
            held,
            tally: self.tally.charged(class, 1),
            ..self
        }
    }

    /// After the end of a transfer of device `d`, which may have unlocked groups.
    fn cleared(self, p: u8, d: u8, unlocked: Option<Unlocked>) -> Lane
        ensures lane { result ≡ cleared self p d unlocked }
        ensures total { total result.tally ≡ total self.tally }
    {
        let has_come = match self.held {
            Held::Device(e) => e == d,
            Held::Group(group) => is_unlocked(unlocked, p, group),
            _ => false,
        };
        if has_come {
            Lane {
                held: Held::Nothing,
                ..self
            }
        } else {
            self
        }
    }

    /// After an entry, for the program `p`.
    fn entered(self, p: u8, moment: &Moment) -> Lane
        requires { total self.tally + calls_in moment.now.entry < 2 ^ 32 }
        ensures lane { result ≡ entered self p moment.now }
        ensures total { total result.tally ≡ total self.tally + calls_in moment.now.entry }
    {
        match moment.entry {
            Entry::Ran { p: q, n } if q == p => self.ran(n),
            Entry::Ran { n, .. } | Entry::Idle { n } => self.passed(n),
            Entry::Lov { p: q, group } if q == p => self.tried(Held::Group(group), Class::Group),
            Entry::Busy { p: q, d } if q == p => self.tried(Held::Device(d), Class::Device),
            Entry::Wait { p: q, kind } if q == p => self.tried(Held::Pool(kind), Class::Pool),
            Entry::Lov { .. } | Entry::Busy { .. } | Entry::Wait { .. } => self.passed(1),
            Entry::End { d } => self.cleared(p, d, moment.unlocked),
            Entry::Fail { p: q, .. } | Entry::Ended { p: q } => Lane {
                is_over: self.is_over || q == p,
                ..self
            },
            _ => self,
        }
    }

    /// After an entry and what the pool has then.
    pub fn after(self, p: u8, moment: &Moment) -> Lane
        requires { total self.tally + calls_in moment.now.entry < 2 ^ 32 }
        ensures lane { result ≡ lane_after p self moment.now }
        ensures total { total result.tally ≡ total self.tally + calls_in moment.now.entry }
    {
        Lane {
            free: moment.free,
            ..self.entered(p, moment)
        }
    }
}

/// Whether these groups of a program have this one.
fn is_unlocked(unlocked: Option<Unlocked>, p: u8, group: u16) -> bool
    ensures { result ≡ is_unlocked unlocked p group }
{
    match unlocked {
        Some(groups) => groups.p == p && groups.first <= group && group <= groups.last,
        None => false,
    }
}

/// Whether no device of a kind is free.
fn is_none_free(free: Free, kind: Kind) -> bool
    ensures { result ≡ is_none_free free kind }
{
    match kind {
        Kind::Tp => free.punches == 0,
        Kind::Lp => free.printers == 0,
        _ => false,
    }
}
