//! Counting orders.
ghost use Rattle.std.specs.Prelude.{◌≡◌, ◌<◌};
ghost use Rattle.kdf_processor.specs.Outcome.{counted};

use crate::Registers;

/// Counts an order.
#[inline(always)]
pub fn count(registers: &mut Registers)
    requires { registers.old.ran < u32.MAX }
    ensures { registers.new ≡ counted registers.old registers.old.state registers.old }
{
    registers.ran += 1;
}
