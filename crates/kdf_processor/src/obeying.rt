//! Obeying one order over any port.
ghost use Rattle.std.specs.Prelude.{◌≡◌, ◌<◌, None, false, length};
ghost use Rattle.kdf_syllable.specs.Spelling.{IsOrder};
ghost use Rattle.kdf_transfer.specs.declared.wanted.Wanted.TheVariants.{Kinded};
ghost use Rattle.kdf_processor.specs.Claims.{free_for};
ghost use Rattle.kdf_processor.specs.Effect.{Nothing};
ghost use Rattle.kdf_processor.specs.Needs.{effect_needs, group_of};
ghost use Rattle.kdf_processor.specs.Outcome.{CameTo, outcome, counted};
ghost use Rattle.kdf_processor.specs.Plan.{planned, done_plan, planned_outcome, try_plan, try_change};
ghost use Rattle.kdf_processor.specs.Plan.{CanObey, IsAccess, IsSound, IsSettled, IsChange, HasOperands, below_top};
ghost use Rattle.kdf_processor.specs.Table.{with_nest};
ghost use Rattle.kdf_processor.specs.View.{first_pending};

use crate::acting::{
    ask_area, ask_busy, ask_service, ask_time, begin, count_orders, examine, give_back, pass,
    spool, take_number, take_pool,
};
use crate::change::change;
use crate::counting::count;
use crate::moves::{merged, pop_kept, push_fetched};
use crate::plan::{Access, Plan};
use crate::planning::{Planned, plan_next};
use crate::syllable_number::syllable_after;
use crate::waits::first_need;
use crate::{Failure, Life, Need, Port, Registers, Step};
use kdf_journal::Kind;
use kdf_syllable::Order;
use kdf_word::Word;

/// Fails.
fn fail(registers: &mut Registers, kind: Failure) -> Step
    requires { registers.old.ran < u32.MAX }
    ensures step { result ≡ Step.Fails kind }
    ensures registers { registers.new ≡ counted registers.old (Life.Failed kind) registers.old }
{
    registers.state = Life::Failed(kind);
    count(registers);
    Step::Fails(kind)
}

/// Takes the top, and ends the program.
fn end(registers: &mut Registers) -> Step
    requires ran { registers.old.ran < u32.MAX }
    requires there { 0 < length registers.old.nest }
    ensures step { result ≡ Step.Ends }
    ensures registers { registers.new
        ≡ counted registers.old Life.Ended (with_nest 1 (below_top registers.old.nest) registers.old) }
{
    registers.nest.pop();
    registers.at = syllable_after(registers.at, 1);
    registers.state = Life::Ended;
    count(registers);
    Step::Ends
}

/// Pushes what is fetched.
#[inline(always)]
fn fetch_word<P: Port>(registers: &mut Registers, port: &P, access: Access) -> Step
    requires ran { registers.old.ran < u32.MAX }
    requires access { IsAccess (P.shows port.now).claims access }
    requires room { length registers.old.nest < 16 }
    requires free { (P.shows port.now).is_out (group_of access.address) ≡ false }
    ensures step { result ≡ Step.Done }
    ensures registers { registers.new
        ≡ (done_plan (P.shows port.now) registers.old (Plan.Fetch access)).registers }
{
    match port.read(access.address) {
        Ok(word) => push_fetched(registers, access, word),
        Err(_) => unreachable!(),
    }
    count(registers);
    Step::Done
}

/// Takes the top, and keeps it.
#[inline(always)]
fn keep_word<P: Port>(registers: &mut Registers, port: &mut P, access: Access) -> Step
    requires ran { registers.old.ran < u32.MAX }
    requires access { IsAccess (P.shows port.old).claims access }
    requires there { 0 < length registers.old.nest }
    requires free { (P.shows port.old).is_out (group_of access.address) ≡ false }
    requires room { P.room port.old (done_plan (P.shows port.old) registers.old (Plan.Keep access)).act }
    ensures { CameTo P.acts (done_plan (P.shows port.old) registers.old (Plan.Keep access))
        port.old port.new registers.new result }
{
    let top = pop_kept(registers, access);
    let word = merged(port, access, top);
    let _ = port.write(access.address, word);
    count(registers);
    Step::Done
}

/// Carries out a plan none of whose needs is pending.
#[inline(always)]
fn carry_out<P: Port>(registers: &mut Registers, port: &mut P, plan: Plan) -> Step
    requires ran { registers.old.ran < u32.MAX }
    requires sound { IsSound (P.shows port.old).claims plan }
    requires settled { IsSettled plan }
    requires operands { HasOperands registers.old.nest plan }
    requires free { first_pending (P.shows port.old) (effect_needs (P.shows port.old).mine
        (planned (P.shows port.old).claims plan registers.old)) ≡ None }
    requires room { P.room port.old (done_plan (P.shows port.old) registers.old plan).act }
    ensures { CameTo P.acts (done_plan (P.shows port.old) registers.old plan)
        port.old port.new registers.new result }
{
    match plan {
        Plan::Fail(kind) => fail(registers, kind),
        Plan::End => end(registers),
        Plan::Fetch(access) => fetch_word(registers, port, access),
        Plan::Keep(access) => keep_word(registers, port, access),
        Plan::Count => count_orders(registers),
        Plan::Begin(beginning) => begin(registers, port, beginning),
        Plan::Examine { device, what } => examine(registers, port, device, what),
        Plan::Await { .. } => pass(registers),
        Plan::AskBusy { device } => ask_busy(registers, port, device),
        Plan::AskArea { first, last } => ask_area(registers, port, first, last),
        Plan::AskTime => ask_time(registers, port),
        Plan::AskService { word } => ask_service(registers, port, word),
        Plan::GiveBack { device } => give_back(registers, port, device),
        Plan::Spool {
            stream,
            first,
            last,
        } => spool(registers, port, stream, first, last),
        Plan::ClaimLabel { .. } | Plan::ClaimKind { .. } => unreachable!(),
    }
}

/// Fails, or waits for the program's transfers.
fn fail_or_wait<P: Port>(registers: &mut Registers, port: &P, kind: Failure) -> Step
    requires { registers.old.ran < u32.MAX }
    ensures { CameTo P.acts (try_plan (P.shows port.now) registers.old (Plan.Fail kind))
        port.now port.now registers.new result }
{
    match first_need(port, &Plan::Fail(kind)) {
        Some(need) => Step::Held(need),
        None => fail(registers, kind),
    }
}

/// Claims a tape by its label, or fails where there is none.
fn obey_label<P: Port>(registers: &mut Registers, port: &mut P, label: Word) -> Step
    requires ran { registers.old.ran < u32.MAX }
    requires operands { 1 < length registers.old.nest }
    requires room { P.room port.old
        (try_plan (P.shows port.old) registers.old (Plan.ClaimLabel label)).act }
    ensures { CameTo P.acts (try_plan (P.shows port.old) registers.old (Plan.ClaimLabel label))
        port.old port.new registers.new result }
{
    match port.claim_label(label) {
        Some(device) => {
            take_number(registers, device);
            count(registers);
            Step::Done
        }
        None => fail_or_wait(registers, port, Failure::Claim),
    }
}

/// Takes a device of a kind from the pool, waits for one, or fails where the program has them all.
fn obey_pool<P: Port>(registers: &mut Registers, port: &mut P, kind: Kind) -> Step
    requires ran { registers.old.ran < u32.MAX }
    requires operands { 1 < length registers.old.nest }
    requires none { free_for (Kinded kind) (P.shows port.old).claims ≡ None }
    requires room { P.room port.old
        (try_plan (P.shows port.old) registers.old (Plan.ClaimKind kind)).act }
    ensures { CameTo P.acts (try_plan (P.shows port.old) registers.old (Plan.ClaimKind kind))
        port.old port.new registers.new result }
{
    if !port.may_take(kind) {
        return fail_or_wait(registers, port, Failure::Claim);
    }
    if !port.pool_free(kind) {
        return Step::Held(Need::Pool(kind));
    }
    take_pool(registers, port, kind)
}

/// Claims a device of a kind, or takes one from the pool where the program has none of its own.
fn obey_kind<P: Port>(registers: &mut Registers, port: &mut P, kind: Kind) -> Step
    requires ran { registers.old.ran < u32.MAX }
    requires operands { 1 < length registers.old.nest }
    requires room { P.room port.old
        (try_plan (P.shows port.old) registers.old (Plan.ClaimKind kind)).act }
    ensures { CameTo P.acts (try_plan (P.shows port.old) registers.old (Plan.ClaimKind kind))
        port.old port.new registers.new result }
{
    match port.claim_kind(kind) {
        Some(device) => {
            take_number(registers, device);
            count(registers);
            Step::Done
        }
        None => obey_pool(registers, port, kind),
    }
}

/// Obeys an order that changes registers alone.
#[inline(always)]
fn obey_change<P: Port>(registers: &mut Registers, port: &P, order: Order) -> Step
    requires live { registers.old.state ≡ Life.Live }
    requires ran { registers.old.ran < u32.MAX }
    requires order { IsOrder order }
    requires change { IsChange order }
    ensures { CameTo P.acts (try_change (P.shows port.now) registers.old order)
        port.now port.now registers.new result }
{
    let ran = registers.ran;
    match change(registers, order) {
        Ok(()) => {
            registers.ran = ran + 1;
            registers.state = Life::Live;
            Step::Done
        }
        Err(kind) => fail_or_wait(registers, port, kind),
    }
}

/// Obeys an order as it is planned.
#[inline(always)]
pub fn obey_planned<P: Port>(registers: &mut Registers, port: &mut P, planned: Planned) -> Step
    requires live { registers.old.state ≡ Life.Live }
    requires ran { registers.old.ran < u32.MAX }
    requires can { CanObey (P.shows port.old) registers.old planned }
    requires room { P.room port.old (planned_outcome (P.shows port.old) registers.old planned).act }
    ensures { CameTo P.acts (planned_outcome (P.shows port.old) registers.old planned)
        port.old port.new registers.new result }
{
    match planned {
        Planned::Held(need) => Step::Held(need),
        Planned::Change(order) => obey_change(registers, port, order),
        Planned::Label(label) => obey_label(registers, port, label),
        Planned::Kind(kind) => obey_kind(registers, port, kind),
        Planned::Act(plan) => carry_out(registers, port, plan),
    }
}

/// Obeys the next order of a live program, or answers what holds it up and changes nothing.
pub fn obey<P: Port>(registers: &mut Registers, port: &mut P) -> Step
    requires live { registers.old.state ≡ Life.Live }
    requires ran { registers.old.ran < u32.MAX }
    requires room { P.room port.old (outcome (P.shows port.old) registers.old).act }
    ensures step { result ≡ (outcome (P.shows port.old) registers.old).step }
    ensures registers { registers.new ≡ (outcome (P.shows port.old) registers.old).registers }
    ensures acted { P.acts port.old (outcome (P.shows port.old) registers.old).act port.new }
    ensures unchanged { (outcome (P.shows port.old) registers.old).act ≡ Nothing
        → port.new ≡ port.old }
{
    let planned = plan_next(registers, port);
    obey_planned(registers, port, planned)
}
