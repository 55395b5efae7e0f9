//! The orders of one syllable, other than OUT.
ghost use Rattle.std.specs.Prelude.{◌≢◌};
ghost use Rattle.kdf_syllable.specs.declared.order.Order.TheVariants as order;
ghost use Rattle.kdf_syllable.specs.Spelling.{IsOrder};
ghost use Rattle.kdf_processor.specs.Effect.{Comes};
ghost use Rattle.kdf_processor.specs.Table.{plain_row, link_row, keep_link_row};

use crate::arithmetic::plain_arithmetic;
use crate::q_store::low;
use crate::syllable_number::syllable_after;
use crate::{Failure, Registers};
use kdf_nest::DEPTH;
use kdf_word::Word;

/// An order of one syllable other than OUT.
#[tactic(auto, unfolding(crate::specs::Table::plain_row))]
#[inline(always)]
pub fn plain(registers: &mut Registers, code: u8) -> Result<(), Failure>
    requires order { IsOrder (order.Plain code) }
    requires not_out { code ≢ 0x21 }
    ensures { Comes (plain_row registers.old code) registers.old registers.new result }
{
    match code {
        0x01 => {
            registers.at = syllable_after(registers.at, 1);
            Ok(())
        }
        0x1d => link(registers),
        0x1e => keep_link(registers),
        _ => plain_arithmetic(registers, code),
    }
}

/// LINK.
fn link(registers: &mut Registers) -> Result<(), Failure>
    ensures { Comes
        (link_row registers.old registers.old.links) registers.old registers.new result }
{
    if registers.links.depth() == 0 || registers.nest.depth() == DEPTH {
        return Err(Failure::Nouv);
    }
    let link = registers.links.pop();
    registers.nest.push(Word::new(u64::from(link)));
    registers.at = syllable_after(registers.at, 1);
    Ok(())
}

/// =LINK.
fn keep_link(registers: &mut Registers) -> Result<(), Failure>
    ensures { Comes (keep_link_row registers.old) registers.old registers.new result }
{
    if registers.nest.depth() == 0 || registers.links.depth() == DEPTH {
        return Err(Failure::Nouv);
    }
    let word = registers.nest.pop();
    registers.links.push(low(word));
    registers.at = syllable_after(registers.at, 1);
    Ok(())
}
