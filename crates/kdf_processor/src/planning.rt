//! The next order, planned: what it comes to, as far as it is known before it is obeyed.
ghost use Rattle.std.specs.Prelude.{◌≡◌, ◌∷◌, []};
ghost use Rattle.kdf_decode.specs.Decoding.{first_decoded};
ghost use Rattle.kdf_syllable.specs.Spelling.{IsOrder};
ghost use Rattle.kdf_processor.specs.Ahead.{act_word, word_ahead};
ghost use Rattle.kdf_processor.specs.Outcome.{outcome};
ghost use Rattle.kdf_processor.specs.Plan.{CanObey, HasOperands, IsSettled, IsSound, done_plan, planned_outcome, try_decoded, try_order, try_plan};
ghost use Rattle.kdf_processor.specs.View.{View};
ghost use Rattle.kdf_processor.specs.declared.registers.Registers.{Registers};

use crate::fetch::{Fetched, fetch_order};
use crate::plan::{Plan, plan_of};
use crate::waits::first_need;
use crate::{Failure, Need, Port, Registers};
use kdf_decode::decode;
use kdf_journal::Kind;
use kdf_syllable::Order;
use kdf_word::Word;

/// What the next order comes to, as far as it is known before it is obeyed.
#[derive(Clone, Copy)]
pub enum Planned {
    /// It is held up by this.
    Held(Need),
    /// It changes registers alone, or fails.
    Change(Order),
    /// It claims the tape with this label, or fails.
    Label(Word),
    /// It claims a device of this kind, takes one from the pool, or fails.
    Kind(Kind),
    /// It does this, and none of its needs is pending.
    Act(Plan),
}

/// A plan of which it is settled whether it fails: held up, or to be carried out.
#[inline(always)]
fn plan_settled<P: Port>(registers: &Registers, port: &P, plan: Plan) -> Planned
    requires sound { IsSound (P.shows port.now).claims plan }
    requires settled { IsSettled plan }
    requires operands { HasOperands registers.now.nest plan }
    ensures outcome { try_plan (P.shows port.now) registers.now plan
        ≡ planned_outcome (P.shows port.now) registers.now result }
    ensures can { CanObey (P.shows port.now) registers.now result }
{
    let _ = registers;
    match first_need(port, &plan) {
        Some(need) => Planned::Held(need),
        None => Planned::Act(plan),
    }
}

/// A plan: a claim, which is settled when it is obeyed, or one that is settled.
#[inline(always)]
fn plan_act<P: Port>(registers: &Registers, port: &P, plan: Plan) -> Planned
    requires sound { IsSound (P.shows port.now).claims plan }
    requires operands { HasOperands registers.now.nest plan }
    ensures outcome { try_plan (P.shows port.now) registers.now plan
        ≡ planned_outcome (P.shows port.now) registers.now result }
    ensures can { CanObey (P.shows port.now) registers.now result }
{
    match plan {
        Plan::ClaimLabel { label } => Planned::Label(label),
        Plan::ClaimKind { kind } => Planned::Kind(kind),
        _ => plan_settled(registers, port, plan),
    }
}

/// An order that was decoded.
#[inline(always)]
fn plan_order<P: Port>(registers: &Registers, port: &P, order: Order) -> Planned
    requires { IsOrder order }
    ensures outcome { try_order (P.shows port.now) registers.now order
        ≡ planned_outcome (P.shows port.now) registers.now result }
    ensures can { CanObey (P.shows port.now) registers.now result }
{
    match plan_of(registers, port, order) {
        Some(plan) => plan_act(registers, port, plan),
        None => Planned::Change(order),
    }
}

/// The order that three syllables begin with, or the failure where there is none.
#[inline(always)]
fn plan_spelt<P: Port>(registers: &Registers, port: &P, first: u8, second: u8, third: u8) -> Planned
    ensures outcome { try_decoded (P.shows port.now) registers.now (first_decoded (first ∷ second ∷ third ∷ []))
        ≡ planned_outcome (P.shows port.now) registers.now result }
    ensures can { CanObey (P.shows port.now) registers.now result }
{
    match decode(&[first, second, third]) {
        Ok(order) => plan_order(registers, port, order),
        Err(_) => plan_settled(registers, port, Plan::Fail(Failure::Liv)),
    }
}

/// The next order, fetched, decoded and planned, and its needs looked at: nothing is done yet.
#[inline(never)]
pub fn plan_next<P: Port>(registers: &Registers, port: &P) -> Planned
    ensures outcome { outcome (P.shows port.now) registers.now
        ≡ planned_outcome (P.shows port.now) registers.now result }
    ensures can { CanObey (P.shows port.now) registers.now result }
{
    match fetch_order(port, registers.at) {
        Fetched::Held(group) => Planned::Held(Need::Group(group)),
        Fetched::Bad => plan_settled(registers, port, Plan::Fail(Failure::Liv)),
        Fetched::Spelt {
            first,
            second,
            third,
        } => plan_spelt(registers, port, first, second, third),
    }
}

/// The word of which a settled plan asks the service.
fn asked_by(plan: Plan) -> Option<Word>
    requires { IsSettled plan }
    ensures { (v : View) (r : Registers) → result ≡ act_word (done_plan v r plan).act }
{
    match plan {
        Plan::AskService { word } => Some(word),
        _ => None,
    }
}

/// The word of which the next order asks the service; None where it asks nothing, or one of its needs is pending.
pub fn asks_ahead<P: Port>(registers: &Registers, port: &P) -> Option<Word>
    ensures { result ≡ act_word (outcome (P.shows port.now) registers.now).act }
{
    match plan_next(registers, port) {
        Planned::Act(plan) => asked_by(plan),
        Planned::Held(_) | Planned::Change(_) | Planned::Label(_) | Planned::Kind(_) => None,
    }
}

/// The word of which the next order may ask the service, as its registers tell: the one below the number 64. An order that asks it asks of this
/// word.
#[inline(always)]
pub fn word_ahead(registers: &Registers) -> Option<Word>
    ensures { result ≡ word_ahead registers.now.nest }
{
    if registers.nest.depth() < 2 {
        return None;
    }
    match registers.nest.peek(0).bits() {
        64 => Some(registers.nest.peek(1)),
        _ => None,
    }
}
