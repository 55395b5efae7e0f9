//! The return from a subroutine.
ghost use Rattle.kdf_processor.specs.Effect.{Comes};
ghost use Rattle.kdf_processor.specs.Table.{exit_row};

use crate::syllable_number::syllable_after;
use crate::{Failure, Registers};

/// EXIT.
#[tactic(auto, unfolding(crate::specs::Table::exit_row))]
pub fn exit(registers: &mut Registers, n: u8) -> Result<(), Failure>
    ensures { Comes
        (exit_row registers.old n registers.old.links) registers.old registers.new result }
{
    if registers.links.depth() == 0 {
        return Err(Failure::Nouv);
    }
    if registers.links.peek(0) / 8192 >= 6 {
        return Err(Failure::Reset);
    }
    let link = registers.links.pop();
    registers.at = syllable_after(6 * (link % 8192) + link / 8192, 3 * u16::from(n));
    Ok(())
}
