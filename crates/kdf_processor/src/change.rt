//! The orders that change registers alone.
ghost use Rattle.kdf_syllable.specs.Spelling.{IsOrder};
ghost use Rattle.kdf_processor.specs.Effect.{Comes};
ghost use Rattle.kdf_processor.specs.Plan.{IsChange};
ghost use Rattle.kdf_processor.specs.Table.{change_of};

use crate::copies::copy;
use crate::exit::exit;
use crate::jump::jump;
use crate::plain::plain;
use crate::push::set;
use crate::shift::shift;
use crate::single::single;
use crate::{Failure, Registers};
use kdf_syllable::Order;

/// An order that changes registers alone, or fails and changes nothing. The order isn't counted.
#[inline(always)]
pub fn change(registers: &mut Registers, order: Order) -> Result<(), Failure>
    requires order { IsOrder order }
    requires change { IsChange order }
    ensures { Comes (change_of registers.old order) registers.old registers.new result }
{
    match order {
        Order::Plain { code } => plain(registers, code),
        Order::Single { code, q } => single(registers, code, q),
        Order::Copies { code, q, k } => copy(registers, code, q, k),
        Order::Shift { code, by } => shift(registers, code, by),
        Order::Jump { c, target } => jump(registers, c, target),
        Order::Exit { n } => exit(registers, n),
        Order::Set { constant } => set(registers, constant),
        Order::Indirect { .. } | Order::Direct { .. } => unreachable!(),
        Order::Device { .. } | Order::Query { .. } => unreachable!(),
    }
}
