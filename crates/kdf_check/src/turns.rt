//! The programs of a job, followed run by run: the orders of one program, or idle calls.
ghost use Rattle.std.specs.Prelude.{◌≡◌, ◌+◌, ◌<◌, ◌≤◌, if◌then◌else◌, List, Some, true, false, IfOk, OnOk};
ghost use Rattle.std.specs.List.{list_any};
ghost use Rattle.kdf_journal.specs.Counts.{calls, moves};
ghost use Rattle.kdf_transfer.specs.Slots.{Slot};
ghost use Rattle.kdf_service.specs.Rules.{IsService};
ghost use Rattle.kdf_processor.specs.Ahead.{act_word};
ghost use Rattle.kdf_processor.specs.Outcome.{outcome};
ghost use Rattle.kdf_alone.specs.LonePort.{claims_of, stock_of, CanAsk};
ghost use Rattle.kdf_theory.specs.Next.{any_live, next};
ghost use Rattle.kdf_theory.specs.Asked.{HasAsked};
ghost use Rattle.kdf_theory.specs.InARow.{waited_on};
ghost use Rattle.kdf_theory.specs.ByJournal.{lone_world};
ghost use Rattle.kdf_check.specs.Around.{around_by};
ghost use Rattle.kdf_check.specs.CheckPort.{shown_by};
ghost use Rattle.kdf_check.specs.Keeps.{is_on, GoesOnFor, Keeps};
ghost use Rattle.kdf_check.specs.Tried.{IsPosed};
ghost use Rattle.kdf_check.specs.Turned.{AreTurned};

use crate::check_port::CheckPort;
use crate::entering::{enter, hold_left};
use crate::next::{is_any_on, next_of};
use crate::program::Program;
use crate::table::Table;
use crate::trying::try_orders;
use kdf_alone::LonePort;
use kdf_journal::{CALL_LIMIT, Entry, Journal, MOVE_LIMIT};
use kdf_processor::{Life, Port, Registers, asks_ahead, word_ahead};
use kdf_service::Service;
use kdf_word::Word;
use std::alloc::AllocError;

/// The word of which the next order of a program asks the service, by what stands around it. All is lent for that, and nothing changes.
fn word_asked(
    registers: &Registers,
    p: u8,
    bench: &mut LonePort,
    table: &mut Table,
    journal: &Journal,
) -> Option<Word>
    requires { registers.now.ran < u32.MAX }
    ensures asked { result ≡ act_word (outcome
        (shown_by p (around_by table.old.places journal.now.entries 0) (stock_of bench.old)) registers.now).act }
    ensures bench { bench.new ≡ bench.old }
    ensures table { table.new ≡ table.old }
{
    let order = registers.ran + 1;
    let desk = CheckPort::new(p, bench, table, journal, Word::default(), order);
    asks_ahead(registers, &desk)
}

/// What the service answers to the word of which the next order of a program asks it; None where that asks nothing. Most programs aren't
/// served: this stays out of the way of their orders.
#[inline(never)]
fn answer_if_asked<F: Fn(u64) -> u64>(
    registers: &Registers,
    p: u8,
    bench: &mut LonePort,
    table: &mut Table,
    journal: &Journal,
    service: &Service<F>,
) -> Option<Word>
    requires service { IsService (F.pre service.now) (F.post service.now) }
    requires ran { registers.now.ran < u32.MAX }
    ensures asked { HasAsked (F.post service.now) (act_word (outcome
        (shown_by p (around_by table.old.places journal.now.entries 0) (stock_of bench.old)) registers.now).act)
        result }
    ensures bench { bench.new ≡ bench.old }
    ensures table { table.new ≡ table.old }
{
    if word_ahead(registers).is_none() {
        return None;
    }
    let word = word_asked(registers, p, bench, table, journal)?;
    Some(service.ask(word))
}

/// What is heard of the service before the next order of a program. For one that isn't served this takes one test.
#[inline(always)]
fn service_answer<F: Fn(u64) -> u64>(
    registers: &Registers,
    p: u8,
    bench: &mut LonePort,
    table: &mut Table,
    journal: &Journal,
    service: &Service<F>,
) -> Option<Word>
    requires service { IsService (F.pre service.now) (F.post service.now) }
    requires ran { registers.now.ran < u32.MAX }
    ensures asked { HasAsked (F.post service.now) (act_word (outcome
        (shown_by p (around_by table.old.places journal.now.entries 0) (stock_of bench.old)) registers.now).act)
        result }
    ensures bench { bench.new ≡ bench.old }
    ensures table { table.new ≡ table.old }
{
    if bench.served() {
        answer_if_asked(registers, p, bench, table, journal, service)
    } else {
        None
    }
}

/// How many of so many orders of a program are tried with nothing heard between them. The service of one that is served may be heard before
/// each.
#[inline(always)]
fn batch_of(bench: &LonePort, most: u32) -> u32
    requires { 0 < most }
    ensures some { 0 < result }
    ensures few { result ≤ most }
    ensures served { (claims_of bench.now).served ≡ true → result ≡ 1 }
{
    if bench.served() { 1 } else { most }
}

/// Tries orders of the program whose turn it is, up to one of which an entry tells, that is held or that ends it, and at most so many, and enters how
/// they ended. If one asks the service, the answer is drawn before it. Answers how many calls that were.
fn turn<F: Fn(u64) -> u64>(
    program: &mut Program,
    table: &mut Table,
    journal: &mut Journal,
    service: &Service<F>,
    most: u32,
) -> Result<u32, AllocError>
    ghost slots: { List Slot }
    requires service { IsService (F.pre service.now) (F.post service.now) }
    requires next { next (lone_world slots journal.old.entries) slots journal.old.entries ≡ Some program.old.p }
    requires posed { IsPosed slots journal.old.entries program.old.p (around_by table.old.places journal.old.entries 0)
        program.old.registers program.old.bench }
    requires live { program.old.registers.state ≡ Life.Live }
    requires some { 0 < most }
    requires ran { program.old.registers.ran + most ≤ u32.MAX }
    requires asked { CanAsk program.old.bench }
    requires room { 2 ≤ journal.old.spare }
    requires few_calls { calls journal.old.entries + most ≤ CALL_LIMIT }
    requires few_moves { moves journal.old.entries ≤ MOVE_LIMIT }
    ensures turned { IfOk result (λ made. AreTurned (F.post service.now) slots made journal.old.entries program.old.p program.new
        table.new.places
        journal.new.entries) }
    ensures some { IfOk result (λ made. 0 < made) }
    ensures within { IfOk result (λ made. made ≤ most) }
{
    let p = program.p;
    let answer = service_answer(
        &program.registers,
        p,
        &mut program.bench,
        table,
        journal,
        service,
    );
    let heard = answer.unwrap_or(Word::default());
    let batch = batch_of(&program.bench, most);
    let (quiet, tried) = try_orders(
        &mut program.registers,
        p,
        &mut program.bench,
        table,
        journal,
        heard,
        batch,
    );
    let (ending, entry) = tried?;
    program.hold = hold_left(ending);
    enter(journal, p, quiet, ending, entry);
    Ok(quiet + 1)
}

/// Tries orders of program `p`, whose turn it is, as `turn` does.
fn take_turn<F: Fn(u64) -> u64>(
    programs: &mut Vec<Option<Program>>,
    table: &mut Table,
    journal: &mut Journal,
    p: u8,
    service: &Service<F>,
    most: u32,
) -> Result<u32, AllocError>
    ghost slots: { List Slot }
    requires service { IsService (F.pre service.now) (F.post service.now) }
    requires next { next (lone_world slots journal.old.entries) slots journal.old.entries ≡ Some p }
    requires keeps { Keeps (F.post service.now) slots journal.old.entries table.old.places programs.old.items }
    requires some { 0 < most }
    requires room { 2 ≤ journal.old.spare }
    requires few_calls { calls journal.old.entries + most ≤ CALL_LIMIT }
    requires few_moves { moves journal.old.entries ≤ MOVE_LIMIT }
    ensures goes_on { IfOk result (λ made. GoesOnFor (F.post service.now) slots made journal.old.entries journal.new.entries) }
    ensures some { IfOk result (λ made. 0 < made) }
    ensures within { IfOk result (λ made. made ≤ most) }
    ensures keeps { OnOk result (Keeps (F.post service.now) slots journal.new.entries table.new.places
        programs.new.items) }
{
    match &mut programs[usize::from(p)] {
        Some(program) => turn(program, table, journal, service, most),
        None => unreachable!(),
    }
}

/// Enters that no program can go on, where one is live: so it is with all the calls that are left. Answers how many these are; none, where none is
/// live.
fn wait(programs: &[Option<Program>], journal: &mut Journal, most: u32) -> u32
    requires some { 0 < most }
    requires room { 1 ≤ journal.old.spare }
    requires few_calls { calls journal.old.entries + most ≤ CALL_LIMIT }
    requires few_moves { moves journal.old.entries ≤ MOVE_LIMIT }
    ensures answer { result ≡ (if list_any is_on programs.now then most else 0) }
    ensures entries { journal.new.entries ≡ waited_on journal.old.entries result }
{
    if is_any_on(programs) {
        journal.push(Entry::Idle { n: most });
        most
    } else {
        0
    }
}

/// Some of these calls, one at least: the orders of the program whose turn it is, as far as it stays next, or all, where none can go on. Answers how
/// many; none, where none is live.
pub fn advance<F: Fn(u64) -> u64>(
    programs: &mut Vec<Option<Program>>,
    table: &mut Table,
    journal: &mut Journal,
    service: &Service<F>,
    most: u32,
) -> Result<u32, AllocError>
    ghost slots: { List Slot }
    requires service { IsService (F.pre service.now) (F.post service.now) }
    requires keeps { Keeps (F.post service.now) slots journal.old.entries table.old.places programs.old.items }
    requires some { 0 < most }
    requires few_calls { calls journal.old.entries + most ≤ CALL_LIMIT }
    requires few_moves { moves journal.old.entries ≤ MOVE_LIMIT }
    ensures goes_on { IfOk result (λ made. GoesOnFor (F.post service.now) slots made journal.old.entries journal.new.entries) }
    ensures none { IfOk result (λ made. made ≡ 0 → any_live slots journal.old.entries ≡ false) }
    ensures within { IfOk result (λ made. made ≤ most) }
    ensures keeps { OnOk result (Keeps (F.post service.now) slots journal.new.entries table.new.places
        programs.new.items) }
{
    journal.reserve(2)?;
    let priorities = journal.priorities();
    match next_of(table, journal, programs, &priorities) {
        Some(p) => take_turn(programs, table, journal, p, service, most),
        None => Ok(wait(programs, journal, most)),
    }
}
