//! OUT, by the number on top.
ghost use Rattle.std.specs.Prelude.{◌≡◌, ◌==◌, ◌||◌, ◌<◌, length, true};
ghost use Rattle.kdf_qstore.specs.Triples.{triple_of};
ghost use Rattle.kdf_processor.specs.Claims.{kind_numbered};
ghost use Rattle.kdf_processor.specs.Effect.{Returning};
ghost use Rattle.kdf_processor.specs.Plan.{IsPlanOf, below_two, below_top};
ghost use Rattle.kdf_processor.specs.State.{is_pooled};
ghost use Rattle.kdf_processor.specs.Table.{effect, guarded, spools, out_effect, with_nest};
ghost use Rattle.kdf_processor.specs.declared.registers.Registers.{Registers};

use crate::claims::is_within;
use crate::plan::Plan;
use crate::{Failure, Port, Registers};
use kdf_journal::Kind;
use kdf_qstore::Triple;
use kdf_syllable::Order;
use kdf_word::Word;

/// Texts are spooled to so many streams.
const STREAMS: u16 = 8;

/// OUT.
#[tactic(auto, unfolding(crate::specs::Table::out_effect, crate::specs::Table::guarded))]
pub fn plan_out<P: Port>(registers: &Registers, port: &P) -> Plan
    ensures { IsPlanOf (P.shows port.now).claims registers.now
        (effect (P.shows port.now).claims registers.now (Order.Plain 0x21)) result }
{
    if registers.nest.depth() == 0 {
        return Plan::Fail(Failure::Nouv);
    }
    let number = registers.nest.peek(0).bits();
    match number {
        0 => Plan::End,
        3 => Plan::Count,
        4 | 5 | 6 | 8 => plan_with_operand(registers, port, number),
        9 => Plan::AskTime,
        64 => plan_asking_service(registers, port),
        _ => Plan::Fail(Failure::Out),
    }
}

/// The calls that take a word below their number.
#[tactic(auto, unfolding(crate::specs::Table::out_effect, crate::specs::Table::guarded))]
fn plan_with_operand<P: Port>(registers: &Registers, port: &P, number: u64) -> Plan
    requires there { 0 < length registers.now.nest }
    requires number { (number == 4 || number == 5 || number == 6 || number == 8) ≡ true }
    ensures { IsPlanOf (P.shows port.now).claims registers.now
        (guarded (P.shows port.now).claims (out_effect (P.shows port.now).claims registers.now
        number (below_top registers.now.nest))) result }
{
    if registers.nest.depth() == 1 {
        return Plan::Fail(Failure::Nouv);
    }
    let operand = registers.nest.peek(1);
    match number {
        4 => Plan::ClaimLabel { label: operand },
        5 => match kind_numbered(operand) {
            Some(kind) => Plan::ClaimKind { kind },
            None => Plan::Fail(Failure::Out),
        },
        6 => plan_giving_back(port, operand),
        _ => plan_spooling(port, operand),
    }
}

/// Asking the service, where the program is served, for its answer to the word below the number.
#[tactic(auto, unfolding(crate::specs::Table::out_effect, crate::specs::Table::guarded))]
fn plan_asking_service<P: Port>(registers: &Registers, port: &P) -> Plan
    requires there { 0 < length registers.now.nest }
    ensures { IsPlanOf (P.shows port.now).claims registers.now
        (guarded (P.shows port.now).claims (out_effect (P.shows port.now).claims registers.now
        64 (below_top registers.now.nest))) result }
{
    if !port.served() {
        return Plan::Fail(Failure::Out);
    }
    if registers.nest.depth() == 1 {
        return Plan::Fail(Failure::Nouv);
    }
    Plan::AskService {
        word: registers.nest.peek(1),
    }
}

/// The kind of device that a word numbers.
fn kind_numbered(number: Word) -> Option<Kind>
    ensures { result ≡ kind_numbered number }
{
    match number.bits() {
        1 => Some(Kind::Tp),
        2 => Some(Kind::Tr),
        3 => Some(Kind::Lp),
        4 => Some(Kind::Cr),
        _ => None,
    }
}

/// Giving back the device that a word numbers.
#[tactic(auto, unfolding(crate::specs::Table::guarded))]
fn plan_giving_back<P: Port>(port: &P, number: Word) -> Plan
    ensures { (r : Registers) → 1 < length r.nest → IsPlanOf (P.shows port.now).claims r
        (guarded (P.shows port.now).claims (Returning (is_pooled (P.shows port.now).claims number)
        number (with_nest 1 (below_two r.nest) r)))
        result }
{
    match u8::try_from(number.bits()) {
        Ok(device) if port.held(u16::from(device)).is_some() => Plan::GiveBack { device },
        _ => Plan::Fail(Failure::Claim),
    }
}

/// Spooling the area that a word names as a Q-store, to the stream that its counter numbers.
#[tactic(auto, unfolding(crate::specs::Table::guarded))]
fn plan_spooling<P: Port>(port: &P, word: Word) -> Plan
    ensures { (r : Registers) → 1 < length r.nest → IsPlanOf (P.shows port.now).claims r
        (guarded (P.shows port.now).claims (spools r (below_two r.nest) (triple_of word))) result }
{
    let Triple { c, i, m } = Triple::of(word);
    if c >= STREAMS {
        return Plan::Fail(Failure::Out);
    }
    if !is_within(port.size(), i, m) {
        return Plan::Fail(Failure::Liv);
    }
    Plan::Spool {
        stream: c as u8,
        first: i,
        last: m,
    }
}
