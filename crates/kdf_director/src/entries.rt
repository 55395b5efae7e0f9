//! What is entered of the turn of a program.
ghost use Rattle.std.specs.Prelude.{◌≡◌, ◌+◌, ◌<◌, ◌≤◌};
ghost use Rattle.kdf_journal.specs.declared.entry.Entry.TheVariants.{Ran};
ghost use Rattle.kdf_journal.specs.Counts.{calls, moves};
ghost use Rattle.kdf_journal.specs.Joined.{pushed};
ghost use Rattle.kdf_journal.specs.Steps.{added, noted, Holds};
ghost use Rattle.kdf_director.specs.Advance.{note_beside, note_told};
ghost use Rattle.kdf_yard.specs.Fields.Parts.{seat_of};
ghost use Rattle.kdf_director.specs.Runs.{held_after};
ghost use Rattle.kdf_theory.specs.InARow.{ran_on};
ghost use Rattle.kdf_director.specs.Fields.TurnTaken.{progress_of, step_told};
ghost use Rattle.kdf_theory.specs.World.{hold_left};

use crate::Progress;
use kdf_journal::{CALL_LIMIT, Entry, Journal, MOVE_LIMIT};
use kdf_processor::{Need, Step};
use kdf_yard::{Program, Remark};

/// Enters that a program obeyed so many orders of which nothing is noted, and how the turn after them ended, and tells
/// that. From now on the program is held by what held its last order, or by nothing.
#[inline(always)]
pub(crate) fn enter(
    journal: &mut Journal,
    program: &mut Program,
    quiet: u32,
    step: Step,
    note: Remark,
) -> Progress
    requires room { 2 ≤ journal.old.spare }
    requires few_calls { calls journal.old.entries + quiet < CALL_LIMIT }
    requires few_moves { moves journal.old.entries ≤ MOVE_LIMIT }
    ensures entries { journal.new.entries ≡ added (ran_on journal.old.entries program.old.p quiet)
        (step_told program.old.p program.old.registers.ran step note) }
    ensures spare { journal.old.spare ≤ journal.new.spare + 2 }
    ensures seat { seat_of program.new ≡ seat_of program.old }
    ensures hold { program.new.hold ≡ hold_left step }
    ensures answer { result ≡ progress_of program.old.p step }
{
    let p = program.p;
    match step {
        Step::Held(need) => {
            enter_quiet(journal, program, quiet);
            write_hold(journal, p, need);
            program.hold = Some(need);
            Progress::Held(p, need)
        }
        Step::Done | Step::Fails(_) | Step::Ends => {
            write(journal, p, quiet + 1, program.registers.ran, step, note);
            program.hold = None;
            Progress::Ran(p)
        }
    }
}

/// Enters that a program obeyed so many orders of which nothing is noted. Where it obeyed one, nothing holds it from
/// now on.
pub(crate) fn enter_quiet(journal: &mut Journal, program: &mut Program, quiet: u32)
    requires room { 1 ≤ journal.old.spare }
    requires few_calls { calls journal.old.entries + quiet ≤ CALL_LIMIT }
    requires few_moves { moves journal.old.entries ≤ MOVE_LIMIT }
    ensures entries { journal.new.entries ≡ ran_on journal.old.entries program.old.p quiet }
    ensures spare { journal.old.spare ≤ journal.new.spare + 1 }
    ensures seat { seat_of program.new ≡ seat_of program.old }
    ensures hold { program.new.hold ≡ held_after quiet program.old.hold }
{
    if quiet > 0 {
        journal.push(Entry::Ran {
            p: program.p,
            n: quiet,
        });
        program.hold = None;
    }
}

/// Counts so many orders of program `p`, the last of which is its own order `k` and ended so, with its note.
#[inline(always)]
fn write(journal: &mut Journal, p: u8, n: u32, k: u32, step: Step, note: Remark)
    requires room { 2 ≤ journal.old.spare }
    requires few_calls { calls journal.old.entries + n ≤ CALL_LIMIT }
    requires few_moves { moves journal.old.entries ≤ MOVE_LIMIT }
    ensures entries { journal.new.entries
        ≡ noted (pushed journal.old.entries (Ran p n)) p (note_told k step note) }
    ensures spare { journal.old.spare ≤ journal.new.spare + 2 }
{
    journal.push(Entry::Ran { p, n });
    match step {
        Step::Fails(kind) => journal.push(Entry::Fail { p, kind }),
        Step::Ends => journal.push(Entry::Ended { p }),
        Step::Done | Step::Held(_) => write_note(journal, p, k, note),
    }
}

/// Enters what was noted of the order just counted.
#[inline(always)]
fn write_note(journal: &mut Journal, p: u8, k: u32, note: Remark)
    requires room { 1 ≤ journal.old.spare }
    requires few_calls { calls journal.old.entries ≤ CALL_LIMIT }
    requires few_moves { moves journal.old.entries ≤ MOVE_LIMIT }
    ensures entries { journal.new.entries ≡ noted journal.old.entries p (note_beside k note) }
    ensures spare { journal.old.spare ≤ journal.new.spare + 1 }
{
    match note {
        Remark::Quiet => {}
        Remark::Began(d) => journal.push(Entry::Start { p, d, k }),
        Remark::Told(v) => journal.push(Entry::Answer { p, v }),
        Remark::Took(d) => journal.push(Entry::Take { p, d }),
        Remark::Gave(d) => journal.push(Entry::Give { p, d }),
    }
}

/// Enters that program `p` is held by a need.
#[inline(always)]
fn write_hold(journal: &mut Journal, p: u8, need: Need)
    requires room { 1 ≤ journal.old.spare }
    requires few_calls { calls journal.old.entries < CALL_LIMIT }
    requires few_moves { moves journal.old.entries ≤ MOVE_LIMIT }
    ensures entries { journal.new.entries ≡ added journal.old.entries (Holds p need) }
    ensures spare { journal.old.spare ≤ journal.new.spare + 1 }
{
    match need {
        Need::Group(group) => journal.push(Entry::Lov { p, group }),
        Need::Device(d) => journal.push(Entry::Busy { p, d }),
        Need::Pool(kind) => journal.push(Entry::Wait { p, kind }),
    }
}
