//! The calls of an event of orders, under a watch.
ghost use Rattle.std.specs.Prelude.{◌≡◌, ◌<◌, ◌≤◌, IfOk, OnErr, length, None};
ghost use Rattle.kdf_schedule.specs.Calls.{orders_in};
ghost use Rattle.kdf_service.specs.Rules.{IsService};
ghost use Rattle.kdf_theory.specs.Served.{IsTrueFor};
ghost use Rattle.kdf_watch.specs.Cursors.{event_at};
ghost use Rattle.kdf_watch.specs.Onward.{IsAt};
ghost use Rattle.kdf_watch.specs.Rules.{IsStopFor, IsWatch};
ghost use Rattle.kdf_watch.specs.Stopped.{HasGone, HasPaused};

use crate::{Called, Cursor, Look, Stop, Watch, call};
use kdf_director::{Halt, Machine};
use kdf_schedule::Event;
use kdf_service::Service;
use std::alloc::AllocError;

/// The orders of the event at the cursor that are left, until the watch answers true of a look, or no program is live.
/// It isn't asked where calls that stop so don't.
pub fn obey_orders<F: Fn(u64) -> u64, G: Fn(Look) -> bool>(
    machine: &mut Machine,
    events: &[Event],
    cursor: &mut Cursor,
    service: &Service<F>,
    watch: &Watch<G>,
    halt: Halt,
) -> Result<Option<Stop>, AllocError>
    requires service { IsService (F.pre service.now) (F.post service.now) }
    requires watch { IsWatch (G.pre watch.now) (G.post watch.now) }
    requires stop { IsStopFor (G.post watch.now) halt }
    requires more { cursor.old.event < length events.now }
    requires at { IsAt events.now cursor.old machine.old }
    ensures at { IsAt events.now cursor.new machine.new }
    ensures truthful { IsTrueFor (F.post service.now) machine.old.slots machine.old.journal
        → IsTrueFor (F.post service.now) machine.new.slots machine.new.journal }
    ensures slots { machine.new.slots ≡ machine.old.slots }
    ensures event { cursor.new.event ≡ cursor.old.event }
    ensures paused { IfOk result (HasPaused (G.post watch.now) events.now machine.old machine.new) }
    ensures all { IfOk result (λ stop. stop ≡ None →
        orders_in (event_at events.now cursor.new.event) ≤ cursor.new.calls) }
    ensures err { OnErr result (HasGone (G.post watch.now) machine.old machine.new) }
{
    let n = orders_of(events[cursor.event as usize]);
    while cursor.calls < n {
        match call(machine, &mut cursor.calls, n, service, watch, halt)? {
            Called::Seen(look) => {
                if watch.sees(look) {
                    return Ok(Some(Stop::Watched(look)));
                }
            }
            Called::Unseen => {}
            Called::Over => return Ok(Some(Stop::Finished)),
        }
    }
    Ok(None)
}

/// How many orders an event has.
fn orders_of(event: Event) -> u32
    ensures { result ≡ orders_in event }
{
    match event {
        Event::Orders(n) => n,
        _ => 0,
    }
}
