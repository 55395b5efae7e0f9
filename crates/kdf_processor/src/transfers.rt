//! The orders that begin a transfer.
ghost use Rattle.std.specs.Prelude.{◌≡◌, ◌≤◌, Some};
ghost use Rattle.kdf_syllable.specs.Spelling.{IsOrder};
ghost use Rattle.kdf_processor.specs.Plan.{IsPlanOf};
ghost use Rattle.kdf_processor.specs.Table.{effect, transfer_of};

use crate::claims::{is_of, is_within};
use crate::plan::{Beginning, Plan};
use crate::{Failure, Port, Registers};
use kdf_syllable::Order;
use kdf_transfer::TransferOrder;

/// Which transfer a code begins; the skips pass so many blocks.
#[tactic(auto, unfolding(crate::specs::Table::transfer_of))]
fn order_of(code: u8, blocks: u16) -> TransferOrder
    requires least { 0x70 ≤ code }
    requires greatest { code ≤ 0x7D }
    ensures { transfer_of code blocks ≡ Some result }
{
    match code {
        0x70 => TransferOrder::Prq,
        0x71 => TransferOrder::Preq,
        0x72 => TransferOrder::Pwq,
        0x73 => TransferOrder::Pweq,
        0x74 => TransferOrder::Crq,
        0x75 => TransferOrder::Lpq,
        0x76 => TransferOrder::Lpeq,
        0x77 => TransferOrder::Mfrq,
        0x78 => TransferOrder::Mbrq,
        0x79 => TransferOrder::Mwq,
        0x7a => TransferOrder::Mlwq,
        0x7b => TransferOrder::Mrwdq,
        0x7c => TransferOrder::Mfskq(blocks),
        _ => TransferOrder::Mbskq(blocks),
    }
}

/// An order that begins a transfer on the device C, over the area from I to M.
#[tactic(auto, unfolding(crate::specs::Table::guarded))]
pub fn plan_transfer<P: Port>(registers: &Registers, port: &P, code: u8, q: u8) -> Plan
    requires { IsOrder (Order.Device code q) }
    ensures { IsPlanOf (P.shows port.now).claims registers.now
        (effect (P.shows port.now).claims registers.now (Order.Device code q)) result }
{
    let triple = registers.q.triple(q);
    let order = order_of(code, triple.m);
    if !is_of(order.kind(), port.held(triple.c)) {
        return Plan::Fail(Failure::Claim);
    }
    if order.has_area() && !is_within(port.size(), triple.i, triple.m) {
        return Plan::Fail(Failure::Liv);
    }
    Plan::Begin(Beginning {
        device: triple.c as u8,
        order,
        first: triple.i,
        last: triple.m,
    })
}
