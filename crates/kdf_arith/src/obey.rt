//! Any order of arithmetic.
ghost use Rattle.std.specs.Prelude.{◌≡◌, ◌≢◌, Some, None, OnOk, OnErr};
ghost use Rattle.std.specs.Int.{IsInRange};
ghost use Rattle.kdf_arith.specs.declared.order.ArithOrder.TheVariants.{Plain, Shift};
ghost use Rattle.kdf_arith.specs.Arith.{arith_result, plain, to_tr, IsArithOrder, IsPlainCode, IsShiftCode};
ghost use Rattle.kdf_arith.specs.Outcome.{Makes, Obeys};

use crate::operands::take_one;
use crate::shifts::obey_shifts;
use crate::values::{
    abs, cont, divi, frb, minus, minus_d, neg, negd, plus, plus_d, stretch, tob, xd,
};
use crate::words::obey_words;
use crate::{ArithOrder, Flags, Nouv};
use kdf_nest::Nest;

/// Obeys an order of arithmetic.
///
/// # Errors
/// Nouv where the nest has fewer words than the order needs, or would have more than sixteen. Then nothing has changed.
#[tactic(auto, unfolding(crate::specs::Arith::arith_result))]
pub fn obey_arith(nest: &mut Nest, flags: &mut Flags, order: ArithOrder) -> Result<(), Nouv>
    requires { IsArithOrder order }
    ensures ok { OnOk result
        (arith_result order nest.old flags.old ≡ Some (record { nest = nest.new; flags = flags.new })) }
    ensures err { OnErr result (arith_result order nest.old flags.old ≡ None) }
    ensures same_nest { OnErr result (nest.new ≡ nest.old) }
    ensures same_flags { OnErr result (flags.new ≡ flags.old) }
{
    match order {
        ArithOrder::Plain { code } => obey_plain(nest, flags, code),
        ArithOrder::Shift { code, n } => obey_shift(nest, flags, code, n),
    }
}

/// Obeys an order of one syllable by its code. It is inlined in the loop over the orders of a program.
///
/// # Errors
/// As those of `obey_arith`.
#[tactic(auto, unfolding(crate::specs::Arith::arith_result))]
#[inline(always)]
pub fn obey_plain(nest: &mut Nest, flags: &mut Flags, code: u8) -> Result<(), Nouv>
    requires { IsPlainCode code }
    ensures { Obeys (arith_result (Plain code)) nest.old flags.old nest.new flags.new result }
{
    match code {
        0x1f => set_tr(nest, flags),
        0x20 => {
            flags.v = false;
            Ok(())
        }
        _ => {
            let overflow = obey_row(nest, code)?;
            flags.note(overflow);
            Ok(())
        }
    }
}

/// Obeys a shift by its code and how far it goes.
///
/// # Errors
/// As those of `obey_arith`.
#[tactic(auto, unfolding(crate::specs::Arith::arith_result))]
pub fn obey_shift(nest: &mut Nest, flags: &mut Flags, code: u8, n: i16) -> Result<(), Nouv>
    requires { IsShiftCode code }
    ensures { Obeys (arith_result (Shift code n)) nest.old flags.old nest.new flags.new result }
{
    let overflow = obey_shifts(nest, code, n)?;
    flags.note(overflow);
    Ok(())
}

/// =TR.
#[inline(always)]
fn set_tr(nest: &mut Nest, flags: &mut Flags) -> Result<(), Nouv>
    ensures { Obeys to_tr nest.old flags.old nest.new flags.new result }
{
    let a = take_one(nest)?;
    flags.tr = a.bits() >= 1 << 47;
    Ok(())
}

/// An order that changes no flag but V, which it tells whether it sets.
#[inline(always)]
fn obey_row(nest: &mut Nest, code: u8) -> Result<bool, Nouv>
    requires codes { IsInRange 0x02 0x1C code }
    requires some { code ≢ 0x13 }
    ensures { Makes (plain code nest.old) nest.old nest.new result }
{
    match code {
        0x0f => neg(nest),
        0x10 => abs(nest),
        0x11 => plus(nest),
        0x12 => minus(nest),
        0x14 => xd(nest),
        0x15 => cont(nest),
        0x16 => stretch(nest),
        0x17 => plus_d(nest),
        0x18 => minus_d(nest),
        0x19 => negd(nest),
        0x1a => divi(nest),
        0x1b => tob(nest),
        0x1c => frb(nest),
        _ => {
            obey_words(nest, code)?;
            Ok(false)
        }
    }
}
