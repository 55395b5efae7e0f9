//! An event whose orders are done.
ghost use Rattle.std.specs.Prelude.{◌≡◌, ◌<◌, ◌≤◌, [], ◌∷◌, true, false, length};
ghost use Rattle.std.specs.List.{All};
ghost use Rattle.kdf_journal.specs.Counts.{clock};
ghost use Rattle.kdf_schedule.specs.Calls.{orders_in};
ghost use Rattle.kdf_schedule.specs.Events.{IsInRange};
ghost use Rattle.kdf_processor.specs.Lone.{is_live};
ghost use Rattle.kdf_theory.specs.Follows.{IsRising, entries_in};
ghost use Rattle.kdf_theory.specs.Legal.{IsLegal};
ghost use Rattle.kdf_theory.specs.Next.{any_live, lives};
ghost use Rattle.kdf_watch.specs.Cursors.{event_at};
ghost use Rattle.kdf_watch.specs.Onward.{IsAt, passed};
ghost use Rattle.kdf_watch.specs.Entered.{HasEntered, HasPassed};

use crate::Cursor;
use kdf_director::{EVENT_LIMIT, Machine};
use kdf_processor::Life;
use kdf_schedule::Event;

/// The numbers of the slots.
const SLOTS: [u8; 4] = [0, 1, 2, 3];

/// Enters the event at the cursor, unless it is one of orders, which are done, and goes on to the next event, where a program is live; else
/// nothing changes.
pub fn pass(machine: &mut Machine, events: &[Event], cursor: &mut Cursor) -> bool
    requires short { length events.now ≤ EVENT_LIMIT }
    requires in_range { All IsInRange events.now }
    requires more { cursor.old.event < length events.now }
    requires at { IsAt events.now cursor.old machine.old }
    requires all { orders_in (event_at events.now cursor.old.event) ≤ cursor.old.calls }
    ensures passed { HasPassed events.now cursor.old machine.old cursor.new machine.new result }
{
    if !is_any_live(machine) {
        return false;
    }
    enter(machine, events[cursor.event as usize]);
    cursor.event += 1;
    cursor.calls = 0;
    true
}

/// Enters an event, unless it is one of orders.
fn enter(machine: &mut Machine, event: Event)
    requires room { entries_in event ≤ machine.old.room }
    requires rises { IsRising (clock machine.old.journal) (event ∷ []) }
    requires in_range { IsInRange event }
    ensures { HasEntered machine.old machine.new event }
{
    match event {
        Event::Orders(_) => {}
        Event::Move(d, n) => machine.move_words(d, n),
        Event::End(d) => machine.end(d),
        Event::Clock(t) => machine.clock(t),
        Event::Swap(p, q) => machine.swap(p, q),
    }
}

/// Whether a program is live.
#[tactic(auto, unfolding(kdf_course::specs::World::any_live))]
fn is_any_live(machine: &Machine) -> bool
    ensures live { result ≡ any_live machine.now.slots machine.now.journal }
    ensures legal { IsLegal machine.now.slots machine.now.journal }
{
    let _journal = machine.journal();
    SLOTS.iter().any(|p| lives(machine, *p))
}

/// Whether the program of a slot is.
fn lives(machine: &Machine, p: u8) -> bool
    ensures { result ≡ lives machine.now.slots machine.now.journal p }
{
    match machine.seen(p) {
        Some(registers) => is_on(registers.state),
        None => false,
    }
}

/// Whether a program runs.
fn is_on(life: Life) -> bool
    ensures { result ≡ is_live life }
{
    match life {
        Life::Live => true,
        Life::Ended | Life::Failed(_) => false,
    }
}
