//! Trying orders at a check port.
ghost use Rattle.std.specs.Prelude.{◌≡◌, ◌+◌, ◌<◌, ◌≤◌, None, IfNone, IfOk, IfSome, OnErr};
ghost use Rattle.kdf_processor.specs.Buffered.{Agrees};
ghost use Rattle.kdf_alone.specs.LonePort.{stock_of, CanAsk};
ghost use Rattle.kdf_check.specs.Around.{around_by};
ghost use Rattle.kdf_check.specs.Batches.{HasBatch, HasStopped, HasTried};
ghost use Rattle.kdf_check.specs.CheckPort.{around_of, shown, SameDesk, SameOrder};

use crate::check_port::CheckPort;
use crate::table::Table;
use kdf_alone::LonePort;
use kdf_journal::{Entry, Journal};
use kdf_processor::{Buffer, Life, Registers, Step, no_word, obey_at_once, obey_in_general};
use kdf_word::Word;
use std::alloc::AllocError;

/// Obeys the next order of a live program the quick way, or answers None and changes nothing. It is inlined in the loop over the orders.
#[inline(always)]
fn obey_at_hand(
    registers: &mut Registers,
    desk: &mut CheckPort<'_>,
    held: &mut Buffer,
) -> Option<()>
    requires ran { registers.old.ran < u32.MAX }
    requires asked { CanAsk desk.old.bench.now }
    requires order { desk.old.order ≡ registers.old.ran + 1 }
    requires quiet { desk.old.entry ≡ None }
    requires agrees { Agrees (shown desk.old) held.old }
    ensures tried { IfSome result (λ _. HasTried desk.old.p (around_of desk.old) registers.old desk.old.bench.now
        registers.new desk.new.bench.now desk.new.table.now.places Step.Done desk.new.entry) }
    ensures left { IfNone result ((registers.new ≡ registers.old) × (desk.new ≡ desk.old)) }
    ensures same { SameOrder desk.old desk.new }
    ensures agrees { Agrees (shown desk.new) held.new }
{
    obey_at_once(registers, desk, held)
}

/// Obeys the next order of a live program the general way, or finds what holds it up.
#[inline(always)]
fn obey_next(
    registers: &mut Registers,
    desk: &mut CheckPort<'_>,
    held: &mut Buffer,
) -> Result<Step, AllocError>
    requires live { registers.old.state ≡ Life.Live }
    requires ran { registers.old.ran < u32.MAX }
    requires asked { CanAsk desk.old.bench.now }
    requires order { desk.old.order ≡ registers.old.ran + 1 }
    requires quiet { desk.old.entry ≡ None }
    ensures tried { IfOk result (λ step. HasTried desk.old.p (around_of desk.old) registers.old desk.old.bench.now
        registers.new desk.new.bench.now desk.new.table.now.places step desk.new.entry) }
    ensures err { OnErr result ((registers.new ≡ registers.old)
        × (stock_of desk.new.bench.now ≡ stock_of desk.old.bench.now)) }
    ensures same { SameOrder desk.old desk.new }
    ensures agrees { Agrees (shown desk.new) held.new }
{
    let step = obey_in_general(registers, desk, held)?;
    Ok(step)
}

/// Obeys orders of a live program up to one of which an entry tells, that is held or that ends it, and at most so many. Answers how many were
/// obeyed before the last, and how the last ended, with its entry. At Err that had no memory, and has changed nothing. It is inlined where the
/// check port is made: passed on by its address, that would be read anew by each order.
#[inline(always)]
fn obey_quiet(
    registers: &mut Registers,
    desk: &mut CheckPort<'_>,
    most: u32,
) -> (u32, Result<(Step, Option<Entry>), AllocError>)
    requires live { registers.old.state ≡ Life.Live }
    requires some { 0 < most }
    requires ran { registers.old.ran + most ≤ u32.MAX }
    requires asked { CanAsk desk.old.bench.now }
    requires order { desk.old.order ≡ registers.old.ran + 1 }
    requires quiet { desk.old.entry ≡ None }
    ensures tried { IfOk result.1 (λ x. HasBatch desk.old.p (around_of desk.old) result.0 registers.old desk.old.bench.now
        registers.new desk.new.bench.now desk.new.table.now.places x.0 x.1) }
    ensures err { OnErr result.1 (HasStopped desk.old.p (around_of desk.old) result.0 registers.old desk.old.bench.now
        registers.new desk.new.bench.now) }
    ensures within { result.0 < most }
    ensures same { SameDesk desk.old desk.new }
{
    let mut done = 0;
    let mut held = no_word();
    loop {
        match obey_at_hand(registers, desk, &mut held) {
            Some(()) => {
                if done + 1 == most || !desk.is_quiet() {
                    return (done, Ok((Step::Done, desk.entry())));
                }
                done += 1;
                desk.pass();
            }
            None => match obey_next(registers, desk, &mut held) {
                Ok(Step::Done) => {
                    if done + 1 == most || !desk.is_quiet() {
                        return (done, Ok((Step::Done, desk.entry())));
                    }
                    done += 1;
                    desk.pass();
                }
                Ok(step) => return (done, Ok((step, desk.entry()))),
                Err(error) => return (done, Err(error)),
            },
        }
    }
}

/// Tries orders of a live program by what stands around it, as `obey_quiet` does.
#[inline(always)]
pub fn try_orders(
    registers: &mut Registers,
    p: u8,
    bench: &mut LonePort,
    table: &mut Table,
    journal: &Journal,
    heard: Word,
    most: u32,
) -> (u32, Result<(Step, Option<Entry>), AllocError>)
    requires live { registers.old.state ≡ Life.Live }
    requires some { 0 < most }
    requires ran { registers.old.ran + most ≤ u32.MAX }
    requires asked { CanAsk bench.old }
    ensures tried { IfOk result.1 (λ x. HasBatch p (around_by table.old.places journal.now.entries heard) result.0
        registers.old bench.old registers.new bench.new table.new.places x.0 x.1) }
    ensures err { OnErr result.1 (HasStopped p (around_by table.old.places journal.now.entries heard) result.0
        registers.old bench.old registers.new bench.new) }
    ensures within { result.0 < most }
{
    let order = registers.ran + 1;
    let mut desk = CheckPort::new(p, bench, table, journal, heard, order);
    obey_quiet(registers, &mut desk, most)
}
