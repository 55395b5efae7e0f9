//! Jumps.
ghost use Rattle.std.specs.Prelude.{◌≡◌};
ghost use Rattle.kdf_syllable.specs.declared.order.Order.TheVariants as order;
ghost use Rattle.kdf_syllable.specs.Spelling.{IsOrder};
ghost use Rattle.kdf_processor.specs.Effect.{Comes};
ghost use Rattle.kdf_processor.specs.Table.{jump_row, goes};

use crate::conditions::decide;
use crate::syllable_number::syllable_after;
use crate::{Failure, Registers};

/// A jump on the condition `c`. The one that is always taken comes first: most loops end with it.
#[tactic(auto, unfolding(crate::specs::Table::decision))]
#[inline(always)]
pub fn jump(registers: &mut Registers, c: u8, target: u16) -> Result<(), Failure>
    requires { IsOrder (order.Jump c target) }
    ensures { Comes (jump_row registers.old c target) registers.old registers.new result }
{
    if c == 0x20 {
        go(registers, true, target);
        return Ok(());
    }
    let jumps = decide(registers, c)?;
    go(registers, jumps, target);
    Ok(())
}

/// Goes to the target, or on after the jump.
#[inline(always)]
fn go(registers: &mut Registers, jumps: bool, target: u16)
    ensures { registers.new ≡ goes registers.old jumps target }
{
    registers.at = if jumps {
        6 * (target % 8192) + target / 8192
    } else {
        syllable_after(registers.at, 3)
    };
}
