//! What an order would do, found without doing it.
ghost use Rattle.std.specs.Prelude.{◌≡◌, IfSome, IfNone};
ghost use Rattle.kdf_syllable.specs.Spelling.{IsOrder, IsQ};
ghost use Rattle.kdf_processor.specs.Effect.{of_change};
ghost use Rattle.kdf_processor.specs.Plan.{IsPlanOf, IsHalf, IsChange};
ghost use Rattle.kdf_processor.specs.Table.{effect, change_of, guarded, moves};

use crate::access::{direct_access, indirect_access};
use crate::outs::plan_out;
use crate::queries::plan_query;
use crate::transfers::plan_transfer;
use crate::{Failure, Port, Registers, Test};
use kdf_journal::Kind;
use kdf_nest::DEPTH;
use kdf_syllable::Order;
use kdf_transfer::TransferOrder;
use kdf_word::Word;

/// A word of the store that an order fetches or keeps, or a half of it.
#[derive(Clone, Copy)]
pub struct Access {
    /// How many syllables the order has.
    pub size: u16,
    pub address: u16,
    pub half: Option<u8>,
    /// The order has the suffix Q, and counts Qq on.
    pub u: bool,
    pub q: u8,
}

/// A transfer that an order begins, by the device's number and the area in addresses of the program.
#[derive(Clone, Copy)]
pub struct Beginning {
    pub device: u8,
    pub order: TransferOrder,
    pub first: u16,
    pub last: u16,
}

/// What an order does that isn't a change of registers alone.
#[derive(Clone, Copy)]
pub enum Plan {
    /// It fails.
    Fail(Failure),
    /// It ends the program, and takes the top.
    End,
    /// It pushes what is fetched.
    Fetch(Access),
    /// It takes the top, and keeps it.
    Keep(Access),
    /// It puts the number of orders obeyed in place of the top.
    Count,
    /// It begins a transfer.
    Begin(Beginning),
    /// It sets TR by a test of a device.
    Examine { device: u8, what: Test },
    /// It waits for the end of a device's transfer.
    Await { device: u8 },
    /// It sets TR where a device has a transfer.
    AskBusy { device: u8 },
    /// It sets TR where a group of an area is locked out.
    AskArea { first: u16, last: u16 },
    /// It puts the time in place of the top.
    AskTime,
    /// It puts the service's answer to a word in place of two words.
    AskService { word: Word },
    /// It claims a tape, if there is one to be claimed, and puts its number in place of two words.
    ClaimLabel { label: Word },
    /// It claims a device, or takes one from the pool, if there is one to be had, and puts its number in place of two words.
    ClaimKind { kind: Kind },
    /// It gives a device back, and takes two words.
    GiveBack { device: u8 },
    /// It spools a text, and takes two words.
    Spool { stream: u8, first: u16, last: u16 },
}

/// A fetch of a word or a half, or a store where `t` is true.
#[tactic(auto, unfolding(crate::specs::Table::guarded))]
#[inline(always)]
fn plan_move<P: Port>(registers: &Registers, port: &P, t: bool, access: Access) -> Plan
    requires half { IsHalf access.half }
    requires q { IsQ access.q }
    ensures { IsPlanOf (P.shows port.now).claims registers.now
        (guarded (P.shows port.now).claims
        (moves t registers.now access.size access.address access.half access.u access.q)) result }
{
    let depth = registers.nest.depth();
    if t && depth == 0 || !t && depth == DEPTH {
        return Plan::Fail(Failure::Nouv);
    }
    if access.address >= port.size() {
        return Plan::Fail(Failure::Liv);
    }
    if t {
        Plan::Keep(access)
    } else {
        Plan::Fetch(access)
    }
}

/// A store order.
#[tactic(auto, unfolding(crate::specs::Table::direct_effect))]
#[inline(always)]
fn plan_direct<P: Port>(registers: &Registers, port: &P, t: bool, u: bool, q: u8, a: u16) -> Plan
    requires { IsQ q }
    ensures { IsPlanOf (P.shows port.now).claims registers.now
        (effect (P.shows port.now).claims registers.now (Order.Direct t u q a)) result }
{
    let access = direct_access(registers, u, q, a);
    plan_move(registers, port, t, access)
}

/// MkMq and =MkMq.
#[tactic(auto, unfolding(crate::specs::Table::indirect_effect))]
#[inline(always)]
fn plan_indirect<P: Port>(registers: &Registers, port: &P, code: u8, k: u8, q: u8) -> Plan
    requires k { IsQ k }
    requires q { IsQ q }
    ensures { IsPlanOf (P.shows port.now).claims registers.now
        (effect (P.shows port.now).claims registers.now (Order.Indirect code k q)) result }
{
    let access = indirect_access(registers, code, k, q);
    plan_move(registers, port, code / 8 % 2 == 1, access)
}

/// The plan of an order, or none where it changes registers alone.
#[inline(always)]
pub fn plan_of<P: Port>(registers: &Registers, port: &P, order: Order) -> Option<Plan>
    requires { IsOrder order }
    ensures plan { IfSome result (IsPlanOf (P.shows port.now).claims registers.now
        (effect (P.shows port.now).claims registers.now order)) }
    ensures change { IfNone result (
        effect (P.shows port.now).claims registers.now order
        ≡ of_change (change_of registers.now order)) }
    ensures quiet { IfNone result (IsChange order) }
{
    match order {
        Order::Plain { code: 0x21 } => Some(plan_out(registers, port)),
        Order::Indirect { code, k, q } => Some(plan_indirect(registers, port, code, k, q)),
        Order::Direct { t, u, q, a } => Some(plan_direct(registers, port, t, u, q, a)),
        Order::Device { code, q } => Some(plan_transfer(registers, port, code, q)),
        Order::Query { b, q } => Some(plan_query(registers, port, b, q)),
        _ => None,
    }
}
