//! The run of a schedule.
ghost use Rattle.std.specs.Prelude.{◌≡◌, ◌+◌, ◌<◌, ◌≤◌, [], ◌∷◌, OnOk, drop, length, sum_by, take, true};
ghost use Rattle.std.specs.List.{All};
ghost use Rattle.kdf_journal.specs.Counts.{calls, clock};
ghost use Rattle.kdf_journal.specs.Steps.{steps};
ghost use Rattle.kdf_schedule.specs.Calls.{calls_made, calls_of, orders_in, order_count};
ghost use Rattle.kdf_schedule.specs.Events.{IsInRange};
ghost use Rattle.kdf_course.specs.Follows.{Reaches};
ghost use Rattle.kdf_director.specs.Rows.{IsRow};
ghost use Rattle.kdf_theory.specs.Follows.{IsRising, entries_in, time_behind};
ghost use Rattle.kdf_theory.specs.Legal.{IsLegal};
ghost use Rattle.kdf_theory.specs.Next.{any_live, lone_dispatched};
ghost use Rattle.kdf_theory.specs.Served.{IsJournalFor, IsTrueFor};
ghost use Rattle.kdf_theory.specs.MachineView.{ShowsSeen};
ghost use Rattle.kdf_service.specs.Rules.{IsService};

use crate::Machine;
use kdf_journal::CALL_LIMIT;
use kdf_schedule::Event;
use kdf_service::Service;
use std::alloc::AllocError;

/// Makes the calls of the schedule, with the service that the programs may ask, and stops as soon as no program is
/// live.
///
/// The schedule has at most 20,000,000 orders, and the machine room for its other events; each of its moves is of 1 to
/// 4,096 words, it names devices below 16 and slots below 4 alone, and doesn't set the clock back. Where there is no
/// memory, it stops early.
pub fn follow<F: Fn(u64) -> u64>(
    machine: &mut Machine,
    events: &[Event],
    service: &Service<F>,
) -> Result<(), AllocError>
    requires service { IsService (F.pre service.now) (F.post service.now) }
    requires fresh { machine.old.journal ≡ [] }
    requires few { order_count events.now ≤ CALL_LIMIT }
    requires room { sum_by entries_in events.now ≤ machine.old.room }
    requires rises { IsRising 0 events.now }
    requires in_range { All IsInRange events.now }
    ensures slots { machine.new.slots ≡ machine.old.slots }
    ensures journal { OnOk result (IsJournalFor (F.post service.now)
        machine.new.slots events.now machine.new.journal) }
    ensures seen { OnOk result (ShowsSeen machine.new) }
    ensures room { OnOk result (machine.old.room ≤ machine.new.room + sum_by entries_in events.now) }
{
    follow_on(machine, events, 0, service)
}

/// Goes on with a schedule whose first events the machine has followed with this service, as `follow` would have. The
/// machine has room for the other events after them.
pub fn follow_on<F: Fn(u64) -> u64>(
    machine: &mut Machine,
    events: &[Event],
    first: usize,
    service: &Service<F>,
) -> Result<(), AllocError>
    requires service { IsService (F.pre service.now) (F.post service.now) }
    requires within { first ≤ length events.now }
    requires followed { IsJournalFor (F.post service.now) machine.old.slots (take first events.now)
        machine.old.journal }
    requires few { order_count events.now ≤ CALL_LIMIT }
    requires room { sum_by entries_in (drop first events.now) ≤ machine.old.room }
    requires rises { IsRising 0 events.now }
    requires in_range { All IsInRange events.now }
    ensures slots { machine.new.slots ≡ machine.old.slots }
    ensures journal { OnOk result (IsJournalFor (F.post service.now)
        machine.new.slots events.now machine.new.journal) }
    ensures seen { OnOk result (ShowsSeen machine.new) }
    ensures room { OnOk result (machine.old.room
        ≤ machine.new.room + sum_by entries_in (drop first events.now)) }
{
    follow_each(machine, &events[first..], service)?;
    Ok(())
}

/// Makes the calls of further events, and stops as soon as no program is live.
fn follow_each<F: Fn(u64) -> u64>(
    machine: &mut Machine,
    events: &[Event],
    service: &Service<F>,
) -> Result<(), AllocError>
    requires service { IsService (F.pre service.now) (F.post service.now) }
    requires truly { IsTrueFor (F.post service.now) machine.old.slots machine.old.journal }
    requires few { calls machine.old.journal + order_count events.now ≤ CALL_LIMIT }
    requires room { sum_by entries_in events.now ≤ machine.old.room }
    requires rises { IsRising (clock machine.old.journal) events.now }
    requires in_range { All IsInRange events.now }
    ensures slots { machine.new.slots ≡ machine.old.slots }
    ensures steps { OnOk result (Reaches (lone_dispatched machine.old.slots)
        (steps machine.old.journal) (calls_made events.now) (steps machine.new.journal)) }
    ensures legal { OnOk result (IsLegal machine.new.slots machine.new.journal) }
    ensures truly { OnOk result (IsTrueFor (F.post service.now) machine.new.slots machine.new.journal) }
    ensures seen { OnOk result (ShowsSeen machine.new) }
    ensures room { OnOk result (machine.old.room ≤ machine.new.room + sum_by entries_in events.now) }
{
    let mut made = 0;
    while made < events.len() {
        if !machine.is_any_live() {
            return Ok(());
        }
        let (event, count) = first_row(&events[made..]);
        make_calls(machine, event, service)?;
        made += count;
    }
    let _journal = machine.journal();
    Ok(())
}

/// The event whose calls those of the first events are, and how many events these are: the orders of lines in a row
/// are made at once.
fn first_row(events: &[Event]) -> (Event, usize)
    requires some { 0 < length events.now }
    requires few { order_count events.now ≤ CALL_LIMIT }
    requires in_range { All IsInRange events.now }
    ensures some { 0 < result.1 }
    ensures within { result.1 ≤ length events.now }
    ensures row { IsRow result.0 (take result.1 events.now) }
    ensures in_range { IsInRange result.0 }
{
    let mut orders = 0;
    for (i, event) in events.iter().enumerate() {
        match event {
            Event::Orders(n) => orders += n,
            other if i == 0 => return (*other, 1),
            _ => return (Event::Orders(orders), i),
        }
    }
    (Event::Orders(orders), events.len())
}

/// The calls of one event, or fewer where no program is live any more.
fn make_calls<F: Fn(u64) -> u64>(
    machine: &mut Machine,
    event: Event,
    service: &Service<F>,
) -> Result<(), AllocError>
    requires service { IsService (F.pre service.now) (F.post service.now) }
    requires live { any_live machine.old.slots machine.old.journal ≡ true }
    requires legal { IsLegal machine.old.slots machine.old.journal }
    requires truly { IsTrueFor (F.post service.now) machine.old.slots machine.old.journal }
    requires few { calls machine.old.journal + orders_in event ≤ CALL_LIMIT }
    requires room { entries_in event ≤ machine.old.room }
    requires rises { IsRising (clock machine.old.journal) (event ∷ []) }
    requires in_range { IsInRange event }
    ensures steps { OnOk result (Reaches (lone_dispatched machine.old.slots)
        (steps machine.old.journal) (calls_of event) (steps machine.new.journal)) }
    ensures truly { OnOk result (IsTrueFor (F.post service.now) machine.new.slots machine.new.journal) }
    ensures calls { OnOk result (calls machine.new.journal ≤ calls machine.old.journal + orders_in event) }
    ensures room { OnOk result (machine.new.room + entries_in event ≡ machine.old.room) }
    ensures time { OnOk result (clock machine.new.journal ≡ time_behind (clock machine.old.journal) event) }
    ensures slots { machine.new.slots ≡ machine.old.slots }
{
    match event {
        Event::Orders(n) => {
            machine.orders_with(n, service)?;
        }
        Event::Move(d, n) => machine.move_words(d, n),
        Event::End(d) => machine.end(d),
        Event::Clock(t) => machine.clock(t),
        Event::Swap(p, q) => machine.swap(p, q),
    }
    Ok(())
}
