//! A run that a watch may stop, and that can be continued.
ghost use Rattle.std.specs.Prelude.{◌≡◌, ◌≤◌, IfOk, OnErr, length};
ghost use Rattle.std.specs.List.{All};
ghost use Rattle.kdf_schedule.specs.Events.{IsInRange};
ghost use Rattle.kdf_service.specs.Rules.{IsService};
ghost use Rattle.kdf_theory.specs.Served.{IsTrueFor};
ghost use Rattle.kdf_watch.specs.Cursors.{IsUpTo, KeepsLimits};
ghost use Rattle.kdf_watch.specs.Onward.{IsAt};
ghost use Rattle.kdf_watch.specs.Rules.{IsStopFor, IsWatch};
ghost use Rattle.kdf_watch.specs.Stopped.{HasGone, HasStopped};

use crate::{Cursor, Look, Watch, obey_orders, pass};
use kdf_director::{EVENT_LIMIT, Halt, Machine};
use kdf_schedule::Event;
use kdf_service::Service;
use std::alloc::AllocError;

/// Why a run stopped.
#[derive(Clone, Copy, Debug, PartialEq, Eq)]
pub enum Stop {
    /// The watch answered true of this look, which is the last.
    Watched(Look),
    /// The journal is whole.
    Finished,
}

/// Goes on with the run from the cursor, until the watch answers true of a look, or the run is at its end. Where there is no memory for an
/// order, it can be called again, and goes on there.
///
/// The events keep the limits of a schedule. The machine's journal follows them just up to the cursor, before and after, and the machine has
/// room for those that are left; so it has at first, where the journal is empty and the cursor at 0.
pub fn go<F: Fn(u64) -> u64, G: Fn(Look) -> bool>(
    machine: &mut Machine,
    events: &[Event],
    cursor: &mut Cursor,
    service: &Service<F>,
    watch: &Watch<G>,
) -> Result<Stop, AllocError>
    requires service { IsService (F.pre service.now) (F.post service.now) }
    requires watch { IsWatch (G.pre watch.now) (G.post watch.now) }
    requires limits { KeepsLimits events.now }
    requires at { IsUpTo events.now cursor.old machine.old }
    ensures at { IsUpTo events.now cursor.new machine.new }
    ensures truthful { IsTrueFor (F.post service.now) machine.old.slots machine.old.journal
        → IsTrueFor (F.post service.now) machine.new.slots machine.new.journal }
    ensures slots { machine.new.slots ≡ machine.old.slots }
    ensures stopped { IfOk result (HasStopped (G.post watch.now) events.now machine.old machine.new) }
    ensures err { OnErr result (HasGone (G.post watch.now) machine.old machine.new) }
{
    go_to(machine, events, cursor, service, watch, Halt::Each)
}

/// The same, where the rule answers false of each look at which calls that stop so don't: it isn't asked there, and the
/// calls before one at which they do are made at once.
pub(crate) fn go_to<F: Fn(u64) -> u64, G: Fn(Look) -> bool>(
    machine: &mut Machine,
    events: &[Event],
    cursor: &mut Cursor,
    service: &Service<F>,
    watch: &Watch<G>,
    halt: Halt,
) -> Result<Stop, AllocError>
    requires service { IsService (F.pre service.now) (F.post service.now) }
    requires watch { IsWatch (G.pre watch.now) (G.post watch.now) }
    requires stop { IsStopFor (G.post watch.now) halt }
    requires limits { KeepsLimits events.now }
    requires at { IsUpTo events.now cursor.old machine.old }
    ensures at { IsUpTo events.now cursor.new machine.new }
    ensures truthful { IsTrueFor (F.post service.now) machine.old.slots machine.old.journal
        → IsTrueFor (F.post service.now) machine.new.slots machine.new.journal }
    ensures slots { machine.new.slots ≡ machine.old.slots }
    ensures stopped { IfOk result (HasStopped (G.post watch.now) events.now machine.old machine.new) }
    ensures err { OnErr result (HasGone (G.post watch.now) machine.old machine.new) }
{
    let _journal = machine.journal();
    go_on(machine, events, cursor, service, watch, halt)
}

/// The same, where the events that are left keep what the machine asks.
fn go_on<F: Fn(u64) -> u64, G: Fn(Look) -> bool>(
    machine: &mut Machine,
    events: &[Event],
    cursor: &mut Cursor,
    service: &Service<F>,
    watch: &Watch<G>,
    halt: Halt,
) -> Result<Stop, AllocError>
    requires service { IsService (F.pre service.now) (F.post service.now) }
    requires watch { IsWatch (G.pre watch.now) (G.post watch.now) }
    requires stop { IsStopFor (G.post watch.now) halt }
    requires short { length events.now ≤ EVENT_LIMIT }
    requires in_range { All IsInRange events.now }
    requires at { IsAt events.now cursor.old machine.old }
    ensures at { IsAt events.now cursor.new machine.new }
    ensures truthful { IsTrueFor (F.post service.now) machine.old.slots machine.old.journal
        → IsTrueFor (F.post service.now) machine.new.slots machine.new.journal }
    ensures slots { machine.new.slots ≡ machine.old.slots }
    ensures stopped { IfOk result (HasStopped (G.post watch.now) events.now machine.old machine.new) }
    ensures err { OnErr result (HasGone (G.post watch.now) machine.old machine.new) }
{
    while (cursor.event as usize) < events.len() {
        if let Some(stop) = obey_orders(machine, events, cursor, service, watch, halt)? {
            return Ok(stop);
        }
        if !pass(machine, events, cursor) {
            return Ok(Stop::Finished);
        }
    }
    Ok(Stop::Finished)
}
