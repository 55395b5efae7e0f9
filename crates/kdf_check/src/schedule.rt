//! The run of a schedule.
ghost use Rattle.std.specs.Prelude.{◌≡◌, ◌+◌, ◌*◌, ◌<◌, ◌≤◌, [], ◌∷◌, List, OnOk, length, replicate, true};
ghost use Rattle.std.specs.List.{All};
ghost use Rattle.kdf_journal.specs.Counts.{calls, calls_in, clock, moves, moves_in};
ghost use Rattle.kdf_journal.specs.Joined.{pushed};
ghost use Rattle.kdf_journal.specs.Steps.{steps};
ghost use Rattle.kdf_schedule.specs.Calls.{AnOrder, calls_made, calls_of, orders_in, order_count};
ghost use Rattle.kdf_schedule.specs.Events.{IsInRange};
ghost use Rattle.kdf_course.specs.Follows.{Reaches};
ghost use Rattle.kdf_transfer.specs.Slots.{Slot};
ghost use Rattle.kdf_theory.specs.Follows.{IsRising, time_behind};
ghost use Rattle.kdf_theory.specs.Next.{any_live, lone_dispatched};
ghost use Rattle.kdf_theory.specs.Served.{IsJournalFor};
ghost use Rattle.kdf_service.specs.Rules.{IsService};
ghost use Rattle.kdf_check.specs.Keeps.{Keeps};

use crate::next::is_any_on;
use crate::program::Program;
use crate::source::Source;
use crate::table::Table;
use crate::turns::advance;
use kdf_journal::{CALL_LIMIT, Entry, Journal, MOVE_LIMIT};
use kdf_schedule::Event;
use kdf_service::Service;
use std::alloc::AllocError;

/// Makes the calls of the job's schedule, with the service that the programs may ask, and stops as soon as no program is live. The journal is
/// then that of the slots under it.
pub fn follow<F: Fn(u64) -> u64>(
    source: Source,
    programs: &mut Vec<Option<Program>>,
    table: &mut Table,
    journal: &mut Journal,
    service: &Service<F>,
) -> Result<(), AllocError>
    ghost slots: { List Slot }
    requires service { IsService (F.pre service.now) (F.post service.now) }
    requires fresh { journal.old.entries ≡ [] }
    requires keeps { Keeps (F.post service.now) slots journal.old.entries table.old.places programs.old.items }
    requires few_events { length source.job.now.events.items ≤ 500000 }
    requires few { order_count source.job.now.events.items ≤ CALL_LIMIT }
    requires rises { IsRising 0 source.job.now.events.items }
    requires in_range { All IsInRange source.job.now.events.items }
    ensures { OnOk result (IsJournalFor (F.post service.now) slots source.entry.job.now.events.items
        journal.new.entries) }
{
    follow_each(programs, table, journal, &source.job.events, service)?;
    Ok(())
}

/// Makes the calls of events, and stops as soon as no program is live.
fn follow_each<F: Fn(u64) -> u64>(
    programs: &mut Vec<Option<Program>>,
    table: &mut Table,
    journal: &mut Journal,
    events: &[Event],
    service: &Service<F>,
) -> Result<(), AllocError>
    ghost slots: { List Slot }
    requires service { IsService (F.pre service.now) (F.post service.now) }
    requires keeps { Keeps (F.post service.now) slots journal.old.entries table.old.places programs.old.items }
    requires few { calls journal.old.entries + order_count events.now ≤ CALL_LIMIT }
    requires few_moves { moves journal.old.entries + 4096 * length events.now ≤ MOVE_LIMIT }
    requires rises { IsRising (clock journal.old.entries) events.now }
    requires in_range { All IsInRange events.now }
    ensures steps { OnOk result (Reaches (lone_dispatched slots) (steps journal.old.entries)
        (calls_made events.now) (steps journal.new.entries)) }
    ensures keeps { OnOk result (Keeps (F.post service.now) slots journal.new.entries table.new.places
        programs.new.items) }
{
    for event in events {
        if !is_any_on(programs) {
            return Ok(());
        }
        make_calls(programs, table, journal, *event, service)?;
    }
    Ok(())
}

/// The calls of one event, or fewer where no program is live any more.
fn make_calls<F: Fn(u64) -> u64>(
    programs: &mut Vec<Option<Program>>,
    table: &mut Table,
    journal: &mut Journal,
    event: Event,
    service: &Service<F>,
) -> Result<(), AllocError>
    ghost slots: { List Slot }
    requires service { IsService (F.pre service.now) (F.post service.now) }
    requires live { any_live slots journal.old.entries ≡ true }
    requires keeps { Keeps (F.post service.now) slots journal.old.entries table.old.places programs.old.items }
    requires few { calls journal.old.entries + orders_in event ≤ CALL_LIMIT }
    requires few_moves { moves journal.old.entries + 4096 ≤ MOVE_LIMIT }
    requires rises { IsRising (clock journal.old.entries) (event ∷ []) }
    requires in_range { IsInRange event }
    ensures steps { OnOk result (Reaches (lone_dispatched slots) (steps journal.old.entries)
        (calls_of event) (steps journal.new.entries)) }
    ensures keeps { OnOk result (Keeps (F.post service.now) slots journal.new.entries table.new.places
        programs.new.items) }
    ensures calls { OnOk result (calls journal.new.entries ≤ calls journal.old.entries + orders_in event) }
    ensures moves { OnOk result (moves journal.new.entries ≤ moves journal.old.entries + 4096) }
    ensures time { OnOk result (clock journal.new.entries ≡ time_behind (clock journal.old.entries) event) }
{
    match event {
        Event::Orders(n) => obey_orders(programs, table, journal, n, service),
        Event::Move(d, n) => enter_event(journal, Entry::Move { d, n }),
        Event::End(d) => {
            table.end(d);
            enter_event(journal, Entry::End { d })
        }
        Event::Clock(t) => enter_event(journal, Entry::Clock { t }),
        Event::Swap(p, q) => enter_event(journal, Entry::Swap { p, q }),
    }
}

/// Enters an event.
fn enter_event(journal: &mut Journal, entry: Entry) -> Result<(), AllocError>
    requires few_calls { calls journal.old.entries + calls_in entry ≤ CALL_LIMIT }
    requires few_moves { moves journal.old.entries + moves_in entry ≤ MOVE_LIMIT }
    ensures { OnOk result (journal.new.entries ≡ pushed journal.old.entries entry) }
{
    journal.reserve(1)?;
    journal.push(entry);
    Ok(())
}

/// So many orders, or fewer where no program is live any more.
fn obey_orders<F: Fn(u64) -> u64>(
    programs: &mut Vec<Option<Program>>,
    table: &mut Table,
    journal: &mut Journal,
    n: u32,
    service: &Service<F>,
) -> Result<(), AllocError>
    ghost slots: { List Slot }
    requires service { IsService (F.pre service.now) (F.post service.now) }
    requires keeps { Keeps (F.post service.now) slots journal.old.entries table.old.places programs.old.items }
    requires few { calls journal.old.entries + n ≤ CALL_LIMIT }
    requires few_moves { moves journal.old.entries ≤ MOVE_LIMIT }
    ensures steps { OnOk result (Reaches (lone_dispatched slots) (steps journal.old.entries)
        (replicate n AnOrder) (steps journal.new.entries)) }
    ensures keeps { OnOk result (Keeps (F.post service.now) slots journal.new.entries table.new.places
        programs.new.items) }
    ensures calls { OnOk result (calls journal.new.entries ≤ calls journal.old.entries + n) }
    ensures moves { OnOk result (moves journal.new.entries ≡ moves journal.old.entries) }
    ensures time { OnOk result (clock journal.new.entries ≡ clock journal.old.entries) }
{
    let mut made = 0;
    while made < n {
        let more = advance(programs, table, journal, service, n - made)?;
        if more == 0 {
            return Ok(());
        }
        made += more;
    }
    Ok(())
}
