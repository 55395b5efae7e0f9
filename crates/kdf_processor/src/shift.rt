//! The shifts.
ghost use Rattle.std.specs.Prelude.{◌≡◌};
ghost use Rattle.kdf_syllable.specs.declared.order.Order.TheVariants as order;
ghost use Rattle.kdf_syllable.specs.Spelling.{IsOrder, IsAmount};
ghost use Rattle.kdf_arith.specs.Arith.{arith_result};
ghost use Rattle.kdf_arith.specs.declared.order.ArithOrder.TheVariants as arithmetic;
ghost use Rattle.kdf_processor.specs.Effect.{Comes};
ghost use Rattle.kdf_processor.specs.Table.{arith_changes, places_of};

use crate::arithmetic::shift_arithmetic;
use crate::{Failure, Registers};
use kdf_qstore::Part;
use kdf_syllable::Amount;

/// How far a shift goes to the left, and to the right where it is negative.
fn places(registers: &Registers, by: Amount) -> i16
    requires { IsAmount by }
    ensures { result ≡ places_of registers.now by }
{
    match by {
        Amount::Fixed { n } => i16::from(n),
        Amount::Count { q } => registers.q.part(q, Part::C).cast_signed(),
    }
}

/// A shift.
pub fn shift(registers: &mut Registers, code: u8, by: Amount) -> Result<(), Failure>
    requires { IsOrder (order.Shift code by) }
    ensures { Comes
        (arith_changes 2 registers.old
        (arith_result (arithmetic.Shift code (places_of registers.old by)) registers.old.nest registers.old.flags))
        registers.old registers.new result }
{
    let n = places(registers, by);
    shift_arithmetic(registers, code, n)
}
