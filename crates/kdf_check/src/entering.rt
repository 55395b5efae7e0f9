//! What is entered of the turn of a program.
ghost use Rattle.std.specs.Prelude.{◌≡◌, ◌+◌, ◌<◌, ◌≤◌};
ghost use Rattle.kdf_journal.specs.Counts.{calls, moves};
ghost use Rattle.kdf_journal.specs.declared.entry.Entry.TheVariants.{Ran};
ghost use Rattle.kdf_journal.specs.Joined.{pushed};
ghost use Rattle.kdf_journal.specs.Steps.{hold_entry};
ghost use Rattle.kdf_theory.specs.InARow.{ran_on};
ghost use Rattle.kdf_theory.specs.World.{hold_left};
ghost use Rattle.kdf_check.specs.Entered.{entered, with_entry, IsNote};

use kdf_journal::{CALL_LIMIT, Entry, Journal, MOVE_LIMIT};
use kdf_processor::{Need, Step};

/// Enters that program `p` obeyed so many orders of which nothing else is told, and how its turn after them ended; an entry tells of its order, if
/// that isn't quiet.
pub fn enter(journal: &mut Journal, p: u8, quiet: u32, step: Step, entry: Option<Entry>)
    requires room { 2 ≤ journal.old.spare }
    requires few_calls { calls journal.old.entries + quiet < CALL_LIMIT }
    requires few_moves { moves journal.old.entries ≤ MOVE_LIMIT }
    requires note { IsNote entry }
    ensures { journal.new.entries ≡ entered (ran_on journal.old.entries p quiet) p step entry }
{
    match step {
        Step::Held(need) => {
            enter_quiet(journal, p, quiet);
            journal.push(entry_of(p, need));
        }
        Step::Done => write(journal, p, quiet + 1, entry),
        Step::Fails(kind) => write(journal, p, quiet + 1, Some(Entry::Fail { p, kind })),
        Step::Ends => write(journal, p, quiet + 1, Some(Entry::Ended { p })),
    }
}

/// Enters that program `p` obeyed so many orders of which nothing else is told.
fn enter_quiet(journal: &mut Journal, p: u8, quiet: u32)
    requires room { 1 ≤ journal.old.spare }
    requires few_calls { calls journal.old.entries + quiet ≤ CALL_LIMIT }
    requires few_moves { moves journal.old.entries ≤ MOVE_LIMIT }
    ensures entries { journal.new.entries ≡ ran_on journal.old.entries p quiet }
    ensures spare { journal.old.spare ≤ journal.new.spare + 1 }
{
    if quiet > 0 {
        journal.push(Entry::Ran { p, n: quiet });
    }
}

/// Counts so many orders of program `p`, with the entry that tells of the last.
fn write(journal: &mut Journal, p: u8, n: u32, entry: Option<Entry>)
    requires room { 2 ≤ journal.old.spare }
    requires few_calls { calls journal.old.entries + n ≤ CALL_LIMIT }
    requires few_moves { moves journal.old.entries ≤ MOVE_LIMIT }
    requires note { IsNote entry }
    ensures { journal.new.entries
        ≡ with_entry (pushed journal.old.entries (Ran p n)) entry }
{
    journal.push(Entry::Ran { p, n });
    if let Some(entry) = entry {
        journal.push(entry);
    }
}

/// The entry of a hold by a need.
fn entry_of(p: u8, need: Need) -> Entry
    ensures { result ≡ hold_entry p need }
{
    match need {
        Need::Group(group) => Entry::Lov { p, group },
        Need::Device(d) => Entry::Busy { p, d },
        Need::Pool(kind) => Entry::Wait { p, kind },
    }
}

/// What holds a program whose turn ended so.
pub fn hold_left(step: Step) -> Option<Need>
    ensures { result ≡ hold_left step }
{
    match step {
        Step::Held(need) => Some(need),
        Step::Done | Step::Fails(_) | Step::Ends => None,
    }
}
