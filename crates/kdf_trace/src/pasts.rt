//! The last orders of the programs that are live at the end of a run.
ghost use Rattle.kdf_service.specs.Rules.{IsService};

use crate::retrace::Retrace;
use kdf_director::Machine;
use kdf_processor::{Life, Registers};
use kdf_service::Service;
use std::alloc::{AllocError, Global};

/// A loop of so many orders at most is found.
const LONGEST: u32 = 39;

/// A program after its own order `k`: the syllable of the next one, and the counters of its Q-stores.
#[derive(Clone, Copy)]
pub struct Past {
    pub p: u8,
    pub k: u32,
    pub at: u16,
    pub counters: [u16; 16],
}

/// Orders that a program obeyed one after another: those after its own order `from`.
#[derive(Clone, Copy)]
pub struct Stretch {
    pub p: u8,
    pub from: u32,
    pub n: u32,
}

/// How many orders the program of each slot obeyed in all, if it is live at the end, or else 0.
pub fn orders_of_live(machine: &Machine) -> [u32; 4] {
    [
        orders_of(machine, 0),
        orders_of(machine, 1),
        orders_of(machine, 2),
        orders_of(machine, 3),
    ]
}

fn orders_of(machine: &Machine, p: u8) -> u32 {
    match machine.seen(p) {
        Some(registers) => match registers.state {
            Life::Live => registers.ran,
            _ => 0,
        },
        None => 0,
    }
}

/// What is noted of the last orders of programs of which it is noted of all, where programs that are live at the end obeyed so many orders; and how many
/// the other programs obeyed that are live.
pub fn keep_last(
    alloc: Global,
    pasts: Vec<Past>,
    live: [u32; 4],
) -> Result<(Vec<Past>, [u32; 4]), AllocError> {
    let mut left = [0u32; 4];
    for p in 0..4u8 {
        if !has_all(&pasts, p, live_of(live, p)) {
            left[usize::from(p)] = live_of(live, p);
        }
    }
    let mut kept = Vec::new(alloc);
    for past in pasts.iter() {
        let all = live_of(live, past.p);
        if live_of(left, past.p) == 0 && first_noted(all) <= past.k && past.k < all {
            kept.push(*past)?;
        }
    }
    Ok((kept, left))
}

/// Whether the last orders of a program that obeyed so many are all noted: they are noted one after another.
fn has_all(pasts: &[Past], p: u8, all: u32) -> bool {
    let first = first_noted(all);
    notes_of(all) == 0 || pasts.iter().any(|past| past.p == p && past.k <= first)
}

/// How many orders the program of a slot obeys in all, if it is live at the end.
pub fn live_of(live: [u32; 4], p: u8) -> u32 {
    let slot = usize::from(p);
    if slot < 4 { live[slot] } else { 0 }
}

/// Goes on by the orders of a program that obeys so many in all, and notes how it was before each of its last.
pub fn go_on<F: Fn(u64) -> u64>(
    pasts: &mut Vec<Past>,
    stretch: Stretch,
    all: u32,
    retrace: &mut Retrace,
    service: &Service<F>,
) -> Result<(), AllocError>
    requires { IsService (F.pre service.now) (F.post service.now) }
{
    let lead = lead_of(stretch, all);
    retrace.owe(lead);
    for i in lead..stretch.n {
        retrace.go(service)?;
        let k = stretch.from.saturating_add(i);
        if let Some(registers) = retrace.machine.seen(stretch.p) {
            note(pasts, registers, stretch.p, k)?;
        }
        retrace.looked();
        retrace.owe(1);
    }
    Ok(())
}

/// How many orders are obeyed before those that are noted.
fn lead_of(stretch: Stretch, all: u32) -> u32 {
    if all == 0 {
        return stretch.n;
    }
    first_noted(all).saturating_sub(stretch.from).min(stretch.n)
}

/// The own order of a program that obeys so many in all after which it is noted first.
fn first_noted(all: u32) -> u32 {
    all.saturating_sub(LONGEST).max(1)
}

/// How often a program is noted that obeys so many orders in all, or none.
pub fn notes_of(all: u32) -> u32 {
    all.saturating_sub(first_noted(all))
}

/// Notes how a program is after its own order `k`.
pub fn note(pasts: &mut Vec<Past>, registers: &Registers, p: u8, k: u32) -> Result<(), AllocError> {
    let mut counters = [0u16; 16];
    for q in 0..16u8 {
        counters[usize::from(q)] = registers.q.triple(q).c;
    }
    pasts.push(Past {
        p,
        k,
        at: registers.at,
        counters,
    })?;
    Ok(())
}
