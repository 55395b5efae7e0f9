//! A run that tells where a program comes to a place.
ghost use Rattle.std.specs.Prelude.{◌≡◌, ◌≤◌, [], IfOk, OnOk, length, sum_by};
ghost use Rattle.std.specs.List.{All};
ghost use Rattle.kdf_schedule.specs.Calls.{order_count};
ghost use Rattle.kdf_schedule.specs.Events.{IsInRange};
ghost use Rattle.kdf_service.specs.Rules.{IsService};
ghost use Rattle.kdf_theory.specs.Follows.{IsRising, entries_in};
ghost use Rattle.kdf_theory.specs.Served.{IsJournalFor};
ghost use Rattle.kdf_theory.specs.MachineView.{ShowsSeen};
ghost use Rattle.kdf_watch.specs.Hits.{is_at};
ghost use Rattle.kdf_watch.specs.Stops.{stops_of};

use crate::{Cursor, Look, Stop, Watch, go_to};
use kdf_director::{EVENT_LIMIT, Halt, Machine};
use kdf_journal::CALL_LIMIT;
use kdf_schedule::Event;
use kdf_service::Service;
use std::alloc::{AllocError, Global};

/// Makes the calls of the schedule, as `follow` does, and tells the numbers of own orders of program `k` after which its next order is at
/// this place, rising.
pub fn stops_at<F: Fn(u64) -> u64>(
    alloc: Global,
    machine: &mut Machine,
    events: &[Event],
    service: &Service<F>,
    k: u8,
    at: u16,
) -> Result<Vec<u32>, AllocError>
    requires service { IsService (F.pre service.now) (F.post service.now) }
    requires fresh { machine.old.journal ≡ [] }
    requires short { length events.now ≤ EVENT_LIMIT }
    requires few { order_count events.now ≤ CALL_LIMIT }
    requires room { sum_by entries_in events.now ≤ machine.old.room }
    requires rises { IsRising 0 events.now }
    requires in_range { All IsInRange events.now }
    ensures slots { machine.new.slots ≡ machine.old.slots }
    ensures journal { OnOk result (IsJournalFor (F.post service.now)
        machine.new.slots events.now machine.new.journal) }
    ensures seen { OnOk result (ShowsSeen machine.new) }
    ensures numbers { IfOk result (λ numbers. numbers.items
        ≡ stops_of machine.new.slots machine.new.journal k at) }
{
    let mut cursor = Cursor { event: 0, calls: 0 };
    let mut numbers = Vec::new(alloc);
    let watch = Watch::new(
        move |look: Look| -> bool
            ensures { result ≡ is_at k at look }
        { look.p == k && look.at == at },
    );
    let halt = Halt::At { p: k, at };
    while let Stop::Watched(look) = go_to(machine, events, &mut cursor, service, &watch, halt)? {
        numbers.push(look.ran)?;
    }
    let _journal = machine.journal();
    Ok(numbers)
}
