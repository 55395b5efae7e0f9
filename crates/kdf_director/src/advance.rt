//! Calls of a machine that are made at once: the orders of one program, or idle calls.
ghost use Rattle.std.specs.Prelude.{◌≡◌, ◌+◌, ◌<◌, ◌≤◌, if◌then◌else◌, false, length, slice_set, true, None, Ok, Some, IfOk, OnErr};
ghost use Rattle.kdf_journal.specs.declared.entry.Entry.TheVariants as entry;
ghost use Rattle.kdf_journal.specs.Counts.{calls, moves, priorities};
ghost use Rattle.kdf_journal.specs.Joined.{pushed};
ghost use Rattle.kdf_processor.specs.declared.step.Step.TheVariants.{Done};
ghost use Rattle.kdf_service.specs.Rules.{IsService};
ghost use Rattle.kdf_director.specs.declared.halt.Halt.TheVariants.{Each, Never};
ghost use Rattle.kdf_director.specs.declared.machine.Progress.TheVariants.{AllEnded, Idle};
ghost use Rattle.kdf_yard.specs.declared.remark.Remark.TheVariants.{Quiet};
ghost use Rattle.kdf_director.specs.Fields.Agrees.{IsReady};
ghost use Rattle.kdf_yard.specs.Fields.Parts.{seat_of};
ghost use Rattle.kdf_director.specs.Fields.Viewed.{shown_of};
ghost use Rattle.kdf_yard.specs.Fields.Yards.{any_in, first_in, hold_in, number_in, registers_in};
ghost use Rattle.kdf_yard.specs.Fields.Batches.{is_at};
ghost use Rattle.kdf_director.specs.Halts.{place_for, HasMadeSomePast, HasPassedButFewer};
ghost use Rattle.kdf_director.specs.Runs.{HasEntered};

use crate::entries::{enter, enter_quiet};
use crate::{Halt, Progress};
use kdf_journal::{CALL_LIMIT, Entry, Journal, MOVE_LIMIT};
use kdf_processor::Step;
use kdf_service::Service;
use kdf_yard::{Batch, Program, Remark, Yard};
use std::alloc::AllocError;

/// So many calls of a machine with a service, which leave room in the journal for so many events.
#[derive(Drop)]
pub struct Calls<'a, F: Fn(u64) -> u64> {
    pub service: &'a Service<F>,
    pub room: u32,
    pub most: u32,
}

/// Whether an order was obeyed of which nothing is noted, so that the same program is next.
#[inline(always)]
fn is_quiet(tried: &Result<(Step, Remark), AllocError>) -> bool
    ensures { result ≡ true → tried.now ≡ Ok (Done, Quiet) }
{
    matches!(tried, Ok((Step::Done, Remark::Quiet)))
}

/// Enters so many orders of a program of which nothing is noted, and how the turn after them ended, where it had
/// memory. Answers how many calls that were, and what the last did. It is inlined, so that what each order of a run
/// came to goes through no memory.
#[inline(always)]
fn enter_tried(
    journal: &mut Journal,
    program: &mut Program,
    quiet: u32,
    tried: Result<(Step, Remark), AllocError>,
) -> Result<(u32, Progress), AllocError>
    requires room { 2 ≤ journal.old.spare }
    requires few_calls { calls journal.old.entries + quiet < CALL_LIMIT }
    requires few_moves { moves journal.old.entries ≤ MOVE_LIMIT }
    ensures entered { HasEntered journal.old.entries program.old.p quiet program.old.registers.ran program.old.hold
        tried
        journal.new.entries program.new.hold result }
    ensures spare { journal.old.spare ≤ journal.new.spare + 2 }
    ensures seat { seat_of program.new ≡ seat_of program.old }
{
    match tried {
        Ok((step, note)) => Ok((quiet + 1, enter(journal, program, quiet, step, note))),
        Err(error) => {
            enter_quiet(journal, program, quiet);
            Err(error)
        }
    }
}

/// Enters so many orders of program `i` of which nothing is noted, and how the turn after them ended, where it had
/// memory. Answers how many calls that were, and what the last did. Nothing changes but what holds the program.
#[inline(always)]
fn enter_at(
    yard: &mut Yard,
    journal: &mut Journal,
    i: usize,
    quiet: u32,
    tried: Result<(Step, Remark), AllocError>,
) -> Result<(u32, Progress), AllocError>
    requires there { i < length yard.old.seats }
    requires room { 2 ≤ journal.old.spare }
    requires few_calls { calls journal.old.entries + quiet < CALL_LIMIT }
    requires few_moves { moves journal.old.entries ≤ MOVE_LIMIT }
    ensures entered { HasEntered journal.old.entries (number_in yard.old i) quiet (registers_in yard.old i).ran
        (hold_in yard.old i) tried
        journal.new.entries (hold_in yard.new i) result }
    ensures spare { journal.old.spare ≤ journal.new.spare + 2 }
    ensures rest { yard.new ≡ record yard.old { holds = slice_set yard.old.holds i (hold_in yard.new i) } }
{
    enter_tried(journal, &mut yard.programs[i], quiet, tried)
}

/// The place at which calls stop where program `i` comes to it, if there is one.
#[inline(always)]
fn place_of_halt(yard: &Yard, halt: Halt, i: usize) -> Option<u16>
    requires { i < length yard.now.seats }
    ensures { result ≡ place_for halt (number_in yard.now i) }
{
    halt.place(yard.programs[i].p)
}

/// Obeys orders of program `i`, which is next, up to one of which something is noted, that is held, that ends it or
/// after which calls stop, and at most so many. They are entered at once: while nothing is noted, no other program's
/// turn comes. Answers how many calls that were, and what the last did. At Err those that were obeyed are entered,
/// and the one that had no memory has changed nothing. It is inlined, so that what the loop reads stays at hand.
#[inline(always)]
fn take_turns<F: Fn(u64) -> u64>(
    yard: &mut Yard,
    journal: &mut Journal,
    due: &Calls<'_, F>,
    i: usize,
    halt: Halt,
) -> Result<(u32, Progress), AllocError>
    requires service { IsService (F.pre due.now.service.now) (F.post due.now.service.now) }
    requires ready { IsReady yard.old journal.old due.now.room }
    requires next { first_in yard.old (priorities journal.old.entries) ≡ Some i }
    requires some { 0 < due.now.most }
    requires few { calls journal.old.entries + due.now.most ≤ CALL_LIMIT }
    requires inside { halt ≡ Each → ⊥ }
    ensures ready { IsReady yard.new journal.new due.now.room }
    ensures made { IfOk result (λ x. HasMadeSomePast (F.post due.now.service.now) halt x.0
        (shown_of yard.old journal.old due.now.room) (shown_of yard.new journal.new due.now.room) x.1) }
    ensures within { IfOk result (λ x. x.0 ≤ due.now.most) }
    ensures err { OnErr result (HasPassedButFewer (F.post due.now.service.now) halt due.now.most
        (shown_of yard.old journal.old due.now.room) (shown_of yard.new journal.new due.now.room)) }
{
    journal.reserve(due.room + 2)?;
    let time = journal.clock();
    let place = place_of_halt(yard, halt, i);
    let mut quiet = 0;
    loop {
        let batch = Batch {
            i,
            time,
            journal,
            most: due.most - quiet,
            place,
        };
        let (more, tried) = yard.try_at(batch, due.service);
        quiet += more;
        if quiet + 1 < due.most && is_quiet(&tried) && !yard.is_at(place, i) {
            quiet += 1;
        } else {
            return enter_at(yard, journal, i, quiet, tried);
        }
    }
}

/// Enters that no program can go on, where one is live: so it is with all the calls that are left.
#[inline(always)]
fn wait(yard: &Yard, journal: &mut Journal, most: u32) -> (u32, Progress)
    requires room { 1 ≤ journal.old.spare }
    requires few_calls { calls journal.old.entries + most ≤ CALL_LIMIT }
    requires few_moves { moves journal.old.entries ≤ MOVE_LIMIT }
    ensures answer { result ≡ (if any_in yard.now then (most, Idle) else (1, AllEnded)) }
    ensures entries { journal.new.entries ≡ (if any_in yard.now
        then pushed journal.old.entries (entry.Idle most) else journal.old.entries) }
    ensures spare { journal.old.spare ≤ journal.new.spare + 1 }
{
    if yard.is_any_on() {
        journal.push(Entry::Idle { n: most });
        (most, Progress::Idle)
    } else {
        (1, Progress::AllEnded)
    }
}

/// Some of these calls, one at least: the orders of the program that is next, as far as it stays next and up to one
/// after which they stop, or all, where none can go on. Answers how many, and what the last did. At Err some are
/// made, and the one that had no memory has changed nothing.
#[inline(always)]
pub(crate) fn advance<F: Fn(u64) -> u64>(
    yard: &mut Yard,
    journal: &mut Journal,
    due: &Calls<'_, F>,
    halt: Halt,
) -> Result<(u32, Progress), AllocError>
    requires service { IsService (F.pre due.now.service.now) (F.post due.now.service.now) }
    requires ready { IsReady yard.old journal.old due.now.room }
    requires some { 0 < due.now.most }
    requires few { calls journal.old.entries + due.now.most ≤ CALL_LIMIT }
    requires inside { halt ≡ Each → ⊥ }
    ensures ready { IsReady yard.new journal.new due.now.room }
    ensures made { IfOk result (λ x. HasMadeSomePast (F.post due.now.service.now) halt x.0
        (shown_of yard.old journal.old due.now.room) (shown_of yard.new journal.new due.now.room) x.1) }
    ensures within { IfOk result (λ x. x.0 ≤ due.now.most) }
    ensures err { OnErr result (HasPassedButFewer (F.post due.now.service.now) halt due.now.most
        (shown_of yard.old journal.old due.now.room) (shown_of yard.new journal.new due.now.room)) }
{
    match yard.next_of(journal) {
        Some(i) => take_turns(yard, journal, due, i, halt),
        None => {
            journal.reserve(due.room + 2)?;
            Ok(wait(yard, journal, due.most))
        }
    }
}
