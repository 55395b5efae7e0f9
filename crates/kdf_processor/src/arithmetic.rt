//! The orders of arithmetic, over registers.
ghost use Rattle.std.specs.Prelude.{◌≡◌, OnErr, OnOk};
ghost use Rattle.kdf_arith.specs.declared.order.ArithOrder.TheVariants as arithmetic;
ghost use Rattle.kdf_arith.specs.Arith.{arith_result, IsPlainCode, IsShiftCode};
ghost use Rattle.kdf_processor.specs.Effect.{Comes};
ghost use Rattle.kdf_processor.specs.Table.{arith_changes, syllable_after};

use crate::syllable_number::syllable_after;
use crate::{Failure, Registers};
use kdf_arith::{Nouv, obey_plain, obey_shift};

/// An order of arithmetic of one syllable.
#[inline(always)]
pub fn plain_arithmetic(registers: &mut Registers, code: u8) -> Result<(), Failure>
    requires { IsPlainCode code }
    ensures { Comes
        (arith_changes 1 registers.old (arith_result (arithmetic.Plain code) registers.old.nest registers.old.flags))
        registers.old registers.new result }
{
    let obeyed = obey_plain(&mut registers.nest, &mut registers.flags, code);
    settle(registers, 1, obeyed)
}

/// A shift by `n` places.
#[inline(always)]
pub fn shift_arithmetic(registers: &mut Registers, code: u8, n: i16) -> Result<(), Failure>
    requires { IsShiftCode code }
    ensures { Comes
        (arith_changes 2 registers.old (arith_result (arithmetic.Shift code n) registers.old.nest registers.old.flags))
        registers.old registers.new result }
{
    let obeyed = obey_shift(&mut registers.nest, &mut registers.flags, code, n);
    settle(registers, 2, obeyed)
}

/// Goes on after an order of so many syllables that was obeyed, or fails.
#[inline(always)]
fn settle(registers: &mut Registers, size: u16, obeyed: Result<(), Nouv>) -> Result<(), Failure>
    ensures ok { OnOk obeyed ((result ≡ Ok tt)
        × (registers.new ≡ record registers.old { at = syllable_after registers.old.at size })) }
    ensures err { OnErr obeyed ((result ≡ Err Failure.Nouv) × (registers.new ≡ registers.old)) }
{
    match obeyed {
        Ok(()) => {
            registers.at = syllable_after(registers.at, size);
            Ok(())
        }
        Err(_) => Err(Failure::Nouv),
    }
}
