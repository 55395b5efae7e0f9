//! Memory, taken before an order is obeyed.
ghost use Rattle.std.specs.Prelude.{◌≡◌, ◌<◌, IfNone, IfOk, IfSome, OnOk, OnErr};
ghost use Rattle.kdf_processor.specs.Buffered.{Agrees, IsWritten};
ghost use Rattle.kdf_processor.specs.Outcome.{outcome};
ghost use Rattle.kdf_processor.specs.Plan.{CanObey, IsSettled, done_plan, planned_outcome};
ghost use Rattle.kdf_processor.specs.Room.{WithRoom};
ghost use Rattle.kdf_processor.specs.View.{View};
ghost use Rattle.kdf_processor.specs.declared.registers.Registers.{Registers};

use crate::buffer::no_word;
use crate::obeying::obey_planned;
use crate::plan::{Beginning, Plan};
use crate::planning::{Planned, plan_next};
use crate::quick::obey_quickly;
use crate::{Buffer, Life, Registers, Reserve, Step};
use std::alloc::AllocError;

/// Obeys the next order of a live program, all its memory being taken first, or answers what holds it up and changes nothing.
/// At Err nothing but spare memory has changed.
#[inline(always)]
pub fn obey_with_room<P: Reserve>(
    registers: &mut Registers,
    port: &mut P,
) -> Result<Step, AllocError>
    requires live { registers.old.state ≡ Life.Live }
    requires ran { registers.old.ran < u32.MAX }
    requires ready { P.ready port.old }
    ensures obeyed { IfOk result (λ step. WithRoom P.keeps P.acts
        (outcome (P.shows port.old) registers.old) port.old port.new registers.new step) }
    ensures err { OnErr result ((registers.new ≡ registers.old) × P.keeps port.old port.new) }
{
    let mut held = no_word();
    obey_buffered(registers, port, &mut held)
}

/// The same, where the word that syllables were fetched from last is at hand: it is kept for those of the next order.
/// It is inlined in the loop over the orders, so what it answers goes through no memory.
#[inline(always)]
pub fn obey_buffered<P: Reserve>(
    registers: &mut Registers,
    port: &mut P,
    held: &mut Buffer,
) -> Result<Step, AllocError>
    requires live { registers.old.state ≡ Life.Live }
    requires ran { registers.old.ran < u32.MAX }
    requires ready { P.ready port.old }
    requires agrees { Agrees (P.shows port.old) held.old }
    ensures obeyed { IfOk result (λ step. WithRoom P.keeps P.acts
        (outcome (P.shows port.old) registers.old) port.old port.new registers.new step) }
    ensures err { OnErr result ((registers.new ≡ registers.old) × P.keeps port.old port.new) }
    ensures agrees { Agrees (P.shows port.new) held.new }
{
    match obey_quickly(registers, port, held) {
        Some(()) => Ok(Step::Done),
        None => {
            *held = no_word();
            obey_any(registers, port)
        }
    }
}

/// Obeys the next order the quick way, or answers None and changes nothing: then it is for `obey_in_general`. It is inlined in the loop
/// over the orders.
#[inline(always)]
pub fn obey_at_once<P: Reserve>(
    registers: &mut Registers,
    port: &mut P,
    held: &mut Buffer,
) -> Option<()>
    requires ran { registers.old.ran < u32.MAX }
    requires ready { P.ready port.old }
    requires agrees { Agrees (P.shows port.old) held.old }
    ensures obeyed { IfSome result (λ _. WithRoom P.keeps P.acts
        (outcome (P.shows port.old) registers.old) port.old port.new registers.new Step.Done) }
    ensures left { IfNone result ((registers.new ≡ registers.old) × (port.new ≡ port.old)) }
    ensures agrees { Agrees (P.shows port.new) held.new }
    ensures wrote { IfSome result (λ _. IsWritten P.acts port.old port.new) }
{
    obey_quickly(registers, port, held)
}

/// Obeys the next order the general way, as `obey_buffered` does. No word is at hand after it.
#[inline(always)]
pub fn obey_in_general<P: Reserve>(
    registers: &mut Registers,
    port: &mut P,
    held: &mut Buffer,
) -> Result<Step, AllocError>
    requires live { registers.old.state ≡ Life.Live }
    requires ran { registers.old.ran < u32.MAX }
    requires ready { P.ready port.old }
    ensures obeyed { IfOk result (λ step. WithRoom P.keeps P.acts
        (outcome (P.shows port.old) registers.old) port.old port.new registers.new step) }
    ensures err { OnErr result ((registers.new ≡ registers.old) × P.keeps port.old port.new) }
    ensures agrees { Agrees (P.shows port.new) held.new }
{
    *held = no_word();
    obey_any(registers, port)
}

/// Obeys any order so. Few come here: this stays out of the way of the others.
#[inline(never)]
fn obey_any<P: Reserve>(registers: &mut Registers, port: &mut P) -> Result<Step, AllocError>
    requires live { registers.old.state ≡ Life.Live }
    requires ran { registers.old.ran < u32.MAX }
    requires ready { P.ready port.old }
    ensures obeyed { IfOk result (λ step. WithRoom P.keeps P.acts
        (outcome (P.shows port.old) registers.old) port.old port.new registers.new step) }
    ensures err { OnErr result ((registers.new ≡ registers.old) × P.keeps port.old port.new) }
{
    let planned = plan_next(registers, port);
    reserve_for(port, &planned)?;
    let step = obey_planned(registers, port, planned);
    Ok(step)
}

/// Takes the memory that an order wants, as it is planned.
#[inline(always)]
fn reserve_for<P: Reserve>(port: &mut P, planned: &Planned) -> Result<(), AllocError>
    requires ready { P.ready port.old }
    ensures keeps { P.keeps port.old port.new }
    ensures shows { P.shows port.new ≡ P.shows port.old }
    ensures room { OnOk result ((v : View) (r : Registers) → CanObey v r planned.now
        → P.room port.new (planned_outcome v r planned.now).act) }
{
    match *planned {
        Planned::Act(plan) => reserve_plan(port, plan),
        Planned::Kind(_) => port.reserve_stint(),
        Planned::Held(_) | Planned::Change(_) | Planned::Label(_) => Ok(()),
    }
}

/// Takes the memory that a settled plan wants.
#[inline(always)]
fn reserve_plan<P: Reserve>(port: &mut P, plan: Plan) -> Result<(), AllocError>
    requires ready { P.ready port.old }
    ensures keeps { P.keeps port.old port.new }
    ensures shows { P.shows port.new ≡ P.shows port.old }
    ensures room { OnOk result ((v : View) (r : Registers) → IsSettled plan → P.room port.new (done_plan v r plan).act) }
{
    match plan {
        Plan::Begin(
            Beginning {
                device,
                order,
                first,
                last,
            },
        ) => port.reserve_transfer(device, order, first, last),
        Plan::Spool { first, last, .. } => port.reserve_text(first, last),
        _ => Ok(()),
    }
}
