//! What the programs of a run still wait for at its end.

use kdf_job::kind_lent;
use kdf_journal::Kind;
use kdf_json::write_comma;
use kdf_trace::{HeldBy, Hold, Story, is_none_free};
use std::alloc::AllocError;
use std::fmt::Write;

/// The end of a run, and the pool of its job.
#[derive(Clone, Copy)]
pub struct Ending<'a> {
    pub story: &'a Story,
    pub pool: &'a [(u8, Kind)],
}

impl Ending<'_> {
    /// The number of the hold that the program of a slot is in, if what it waits for hasn't come.
    pub fn waiting(&self, p: u8) -> Option<u32> {
        let slot = usize::from(p);
        if slot >= 4 {
            return None;
        }
        let i = self.story.held[slot]?;
        let hold = self.story.holds.get(i as usize)?;
        if self.stands(hold) { Some(i) } else { None }
    }

    /// Whether what a program waits for hasn't come.
    fn stands(&self, hold: &Hold) -> bool {
        match hold.cause {
            HeldBy::Pool(kind) => is_none_free(self.story.free, kind),
            _ => self.goes_on(hold.flight),
        }
    }

    /// Whether a transfer goes on.
    fn goes_on(&self, flight: Option<u32>) -> bool {
        let Some(i) = flight else {
            return false;
        };
        match self.story.flights.get(i as usize) {
            Some(flight) => flight.ended.is_none(),
            None => false,
        }
    }

    /// Writes what is lacking for a hold to be over: the end of a transfer, or a device of the pool, with the slots that have those of its kind.
    pub fn write_lack(&self, out: &mut String, i: u32) -> Result<(), AllocError> {
        let Some(hold) = self.story.holds.get(i as usize) else {
            return out.push_str(",\"lacks\":null");
        };
        match hold.cause {
            HeldBy::Pool(kind) => {
                let is_stuck = self.is_stuck(kind);
                write!(
                    out,
                    ",\"lacks\":{{\"what\":\"pool\",\"deadlock\":{is_stuck},\"holders\":["
                )?;
                self.write_holders(out, kind)?;
                out.push_str("]}")
            }
            _ => {
                let device = self.device_of(hold.flight);
                write!(out, ",\"lacks\":{{\"what\":\"end\",\"device\":{device}}}")
            }
        }
    }

    /// The device of a transfer.
    fn device_of(&self, flight: Option<u32>) -> u8 {
        let Some(i) = flight else {
            return 0;
        };
        match self.story.flights.get(i as usize) {
            Some(flight) => flight.d,
            None => 0,
        }
    }

    /// Writes the devices of a kind in the pool, each with the slot that has it.
    pub fn write_holders(&self, out: &mut String, kind: Kind) -> Result<(), AllocError> {
        let mut written = 0;
        for d in 0..16 {
            if let (true, Some(p)) = (self.is_of(d, kind), self.story.borrower(d)) {
                write_comma(out, written)?;
                written = 1;
                write!(out, "{{\"device\":{d},\"slot\":{p}}}")?;
            }
        }
        Ok(())
    }

    /// Whether the pool has a device of this number and kind.
    pub fn is_of(&self, d: u8, kind: Kind) -> bool {
        kind_lent(self.pool, d) == Some(kind)
    }

    /// Whether none of those who have the devices of a kind can ever give one back: each waits for the pool, and so on.
    pub fn is_stuck(&self, kind: Kind) -> bool {
        let mut stuck = [self.waits(0), self.waits(1), self.waits(2), self.waits(3)];
        for _round in 0..4 {
            stuck = [
                stuck[0] && self.is_in_circle(0, &stuck),
                stuck[1] && self.is_in_circle(1, &stuck),
                stuck[2] && self.is_in_circle(2, &stuck),
                stuck[3] && self.is_in_circle(3, &stuck),
            ];
        }
        self.are_all(kind, &stuck)
    }

    /// Whether the program of a slot waits for the pool.
    fn waits(&self, p: u8) -> bool {
        self.wanted(p).is_some()
    }

    /// The kind of device that the program of a slot waits for.
    pub fn wanted(&self, p: u8) -> Option<Kind> {
        let hold = self.story.holds.get(self.waiting(p)? as usize)?;
        match hold.cause {
            HeldBy::Pool(kind) => Some(kind),
            _ => None,
        }
    }

    /// Whether all who have what a program waits for are among these.
    fn is_in_circle(&self, p: u8, stuck: &[bool; 4]) -> bool {
        match self.wanted(p) {
            Some(kind) => self.are_all(kind, stuck),
            None => false,
        }
    }

    /// Whether all who have the devices of a kind are among these.
    pub fn are_all(&self, kind: Kind, stuck: &[bool; 4]) -> bool {
        for d in 0..16 {
            if self.is_of(d, kind) {
                match self.story.borrower(d) {
                    Some(p) if usize::from(p) < 4 && stuck[usize::from(p)] => {}
                    _ => return false,
                }
            }
        }
        true
    }
}
