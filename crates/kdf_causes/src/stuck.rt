//! Which programs can't go on, whatever calls are made.

use crate::case::Case;
use crate::endings::Ending;
use kdf_trace::{HeldBy, Hold};

/// What a program was held up by last, if it hasn't obeyed an order since, and the transfer that held it up goes on.
pub fn hold_of(ending: Ending<'_>, p: u8) -> Option<Hold> {
    let hold = last_hold(ending, p)?;
    match hold.cause {
        HeldBy::Pool(_) => Some(hold),
        _ => {
            if ending.waiting(p).is_some() {
                Some(hold)
            } else {
                None
            }
        }
    }
}

/// The hold of a program that hasn't obeyed an order since.
fn last_hold(ending: Ending<'_>, p: u8) -> Option<Hold> {
    let slot = usize::from(p);
    if slot >= 4 {
        return None;
    }
    let i = ending.story.held[slot]?;
    ending.story.holds.get(i as usize).copied()
}

/// Whether a program waits for a transfer that nothing ends, or for the pool, and nobody who has a device of that kind can go on.
pub fn is_stuck(case: Case<'_, '_>) -> bool {
    let p = usize::from(case.slot.p);
    p < 4 && all_stuck(case.ending)[p]
}

/// Which programs are held up for good: those that wait, less those that wait for one who isn't.
pub fn all_stuck(ending: Ending<'_>) -> [bool; 4] {
    let mut stuck = [true, true, true, true];
    for _round in 0..5 {
        stuck = [
            stuck[0] && stays(ending, 0, &stuck),
            stuck[1] && stays(ending, 1, &stuck),
            stuck[2] && stays(ending, 2, &stuck),
            stuck[3] && stays(ending, 3, &stuck),
        ];
    }
    stuck
}

/// Whether a program waits for a transfer, or for what one of these has.
fn stays(ending: Ending<'_>, p: u8, stuck: &[bool; 4]) -> bool {
    match (ending.waiting(p), ending.wanted(p)) {
        (None, _) => false,
        (Some(_), Some(kind)) => ending.are_all(kind, stuck),
        (Some(_), None) => true,
    }
}
