//! A run whose last calls are made one by one: the last orders of its programs are noted at once, and no second run is needed for them.
ghost use Rattle.std.specs.Prelude.{◌≡◌, ◌+◌, ◌<◌, ◌≤◌, [], ◌∷◌, ◌++◌, OnOk, drop, length, sum_by, take};
ghost use Rattle.std.specs.List.{All};
ghost use Rattle.kdf_schedule.specs.Calls.{order_count};
ghost use Rattle.kdf_schedule.specs.Events.{IsInRange};
ghost use Rattle.kdf_schedule.specs.declared.event.Event.TheVariants.{Orders};
ghost use Rattle.kdf_service.specs.Rules.{IsService};
ghost use Rattle.kdf_theory.specs.Follows.{IsRising, entries_in};
ghost use Rattle.kdf_theory.specs.Served.{IsJournalFor};
ghost use Rattle.kdf_theory.specs.MachineView.{ShowsSeen};

use crate::pasts::{Past, note};
use kdf_director::{Machine, follow, follow_on};
use kdf_journal::CALL_LIMIT;
use kdf_schedule::Event;
use kdf_service::Service;
use std::alloc::{AllocError, Global};

/// So many of the last calls are made one by one: as many orders as are noted of four programs.
const TAIL: u32 = 156;

/// Of a schedule that ends with lines of one order each, no more lines than these are gone through one by one.
const MOST_LINES: usize = 1_000;

/// Makes the calls of the schedule, as `follow` does, and notes how the programs were before their last orders, if the schedule ends with enough of
/// them.
pub fn follow_noting<F: Fn(u64) -> u64>(
    alloc: Global,
    machine: &mut Machine,
    events: &[Event],
    service: &Service<F>,
    pasts: &mut Vec<Past>,
) -> Result<(), AllocError>
    requires service { IsService (F.pre service.now) (F.post service.now) }
    requires fresh { machine.old.journal ≡ [] }
    requires few { order_count events.now ≤ CALL_LIMIT }
    requires room { sum_by entries_in events.now ≤ machine.old.room }
    requires rises { IsRising 0 events.now }
    requires in_range { All IsInRange events.now }
    ensures slots { machine.new.slots ≡ machine.old.slots }
    ensures journal { OnOk result (IsJournalFor (F.post service.now)
        machine.new.slots events.now machine.new.journal) }
    ensures seen { OnOk result (ShowsSeen machine.new) }
{
    match events {
        [front @ .., Event::Orders(n)] if *n > TAIL => {
            follow_tail(alloc, machine, front, *n, service, pasts)
        }
        _ => follow_lines(machine, events, service, pasts),
    }
}

/// The same of a schedule that ends with so many orders.
fn follow_tail<F: Fn(u64) -> u64>(
    alloc: Global,
    machine: &mut Machine,
    front: &[Event],
    n: u32,
    service: &Service<F>,
    pasts: &mut Vec<Past>,
) -> Result<(), AllocError>
    requires service { IsService (F.pre service.now) (F.post service.now) }
    requires fresh { machine.old.journal ≡ [] }
    requires more { TAIL < n }
    requires few { order_count (front.now ++ Orders n ∷ []) ≤ CALL_LIMIT }
    requires room { sum_by entries_in (front.now ++ Orders n ∷ []) ≤ machine.old.room }
    requires rises { IsRising 0 (front.now ++ Orders n ∷ []) }
    requires in_range { All IsInRange (front.now ++ Orders n ∷ []) }
    ensures slots { machine.new.slots ≡ machine.old.slots }
    ensures journal { OnOk result (IsJournalFor (F.post service.now)
        machine.new.slots (front.now ++ Orders n ∷ []) machine.new.journal) }
    ensures seen { OnOk result (ShowsSeen machine.new) }
{
    let mut events = Vec::from_slice(alloc, front)?;
    events.push(Event::Orders(n - TAIL))?;
    follow(machine, &events, service)?;
    let mut noted = [0; 4];
    for call in 0..TAIL {
        note_new(pasts, &mut noted, machine)?;
        let first = events.len();
        events.push(Event::Orders(1))?;
        follow_on(machine, &events, first, service)?;
    }
    Ok(())
}

/// The same of another schedule: the last lines of one order each are followed one by one.
fn follow_lines<F: Fn(u64) -> u64>(
    machine: &mut Machine,
    events: &[Event],
    service: &Service<F>,
    pasts: &mut Vec<Past>,
) -> Result<(), AllocError>
    requires service { IsService (F.pre service.now) (F.post service.now) }
    requires fresh { machine.old.journal ≡ [] }
    requires few { order_count events.now ≤ CALL_LIMIT }
    requires room { sum_by entries_in events.now ≤ machine.old.room }
    requires rises { IsRising 0 events.now }
    requires in_range { All IsInRange events.now }
    ensures slots { machine.new.slots ≡ machine.old.slots }
    ensures journal { OnOk result (IsJournalFor (F.post service.now)
        machine.new.slots events.now machine.new.journal) }
    ensures seen { OnOk result (ShowsSeen machine.new) }
{
    let first = first_of_last(events);
    follow(machine, first_events(events, first), service)?;
    let mut noted = [0; 4];
    for i in first..events.len() {
        note_new(pasts, &mut noted, machine)?;
        follow_next(machine, events, i, service)?;
    }
    Ok(())
}

/// Follows the event of this number, where those before it were followed.
fn follow_next<F: Fn(u64) -> u64>(
    machine: &mut Machine,
    events: &[Event],
    i: usize,
    service: &Service<F>,
) -> Result<(), AllocError>
    requires service { IsService (F.pre service.now) (F.post service.now) }
    requires within { i < length events.now }
    requires followed { IsJournalFor (F.post service.now) machine.old.slots (take i events.now)
        machine.old.journal }
    requires few { order_count events.now ≤ CALL_LIMIT }
    requires room { sum_by entries_in (drop i events.now) ≤ machine.old.room }
    requires rises { IsRising 0 events.now }
    requires in_range { All IsInRange events.now }
    ensures slots { machine.new.slots ≡ machine.old.slots }
    ensures journal { OnOk result (IsJournalFor (F.post service.now)
        machine.new.slots (take (i + 1) events.now) machine.new.journal) }
    ensures room { OnOk result (sum_by entries_in (drop (i + 1) events.now) ≤ machine.new.room) }
    ensures seen { OnOk result (ShowsSeen machine.new) }
{
    follow_on(machine, first_events(events, i + 1), i, service)
}

/// The first so many events of a schedule.
fn first_events(events: &[Event], n: usize) -> &[Event]
    requires { n ≤ length events.now }
    ensures { result.now ≡ take n events.now }
{
    &events[..n]
}

/// The number of the first of the last lines, none of which has more than one order.
fn first_of_last(events: &[Event]) -> usize
    ensures { result ≤ length events.now }
{
    events.len().saturating_sub(last_lines(events))
}

/// How many lines a schedule ends with that have one order at most: as many as are noted, if there are.
fn last_lines(events: &[Event]) -> usize {
    let mut lines = 0usize;
    let mut orders = 0u32;
    for i in (0..events.len()).rev() {
        match events[i] {
            Event::Orders(1) => orders = orders.saturating_add(1),
            Event::Orders(_) => return lines,
            _ => {}
        }
        lines = lines.saturating_add(1);
        if orders >= TAIL || lines >= MOST_LINES {
            return lines;
        }
    }
    lines
}

/// Notes each program that has obeyed more orders than when it was noted last.
fn note_new(
    pasts: &mut Vec<Past>,
    noted: &mut [u32; 4],
    machine: &Machine,
) -> Result<(), AllocError> {
    for p in 0..4u8 {
        if let Some(registers) = machine.seen(p) {
            let k = registers.ran;
            if k > noted[usize::from(p)] {
                noted[usize::from(p)] = k;
                note(pasts, registers, p, k)?;
            }
        }
    }
    Ok(())
}
