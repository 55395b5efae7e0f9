//! The orders that take words as values. Each tells whether it sets V. The short ones are inlined in the loop over the
//! orders of a program. The long ones are calls, so that no short one saves registers for them.
#![tactic(auto, unfolding(crate::specs::Rows::arith_row))]

ghost use Rattle.std.specs.Prelude.{◌≡◌, ◌≤◌, ◌∷◌, length};
ghost use Rattle.kdf_word.specs.Doubles.{upper_of, lower_of};
ghost use Rattle.kdf_arith.specs.Arith.{plain};
ghost use Rattle.kdf_arith.specs.Outcome.{Makes};

use crate::Nouv;
use crate::digits::{from_binary, to_binary};
use crate::division::divide;
use crate::operands::{need_room, take_four, take_one, take_two};
use kdf_nest::Nest;
use kdf_word::{Double, Word};

/// Puts a double value on top.
#[tactic(auto)]
pub(crate) fn push_double(nest: &mut Nest, value: Double)
    requires { length nest.old ≤ 14 }
    ensures { nest.new ≡ upper_of value ∷ lower_of value ∷ nest.old }
{
    let (n1, n2) = value.words();
    nest.push(n2);
    nest.push(n1);
}

/// NEG.
#[inline(always)]
pub(crate) fn neg(nest: &mut Nest) -> Result<bool, Nouv>
    ensures { Makes (plain 0x0F nest.old) nest.old nest.new result }
{
    let a = take_one(nest)?;
    let (negative, overflow) = a.neg();
    nest.push(negative);
    Ok(overflow)
}

/// ABS.
#[inline(always)]
pub(crate) fn abs(nest: &mut Nest) -> Result<bool, Nouv>
    ensures { Makes (plain 0x10 nest.old) nest.old nest.new result }
{
    let a = take_one(nest)?;
    let (absolute, overflow) = a.abs();
    nest.push(absolute);
    Ok(overflow)
}

/// +.
#[inline(always)]
pub(crate) fn plus(nest: &mut Nest) -> Result<bool, Nouv>
    ensures { Makes (plain 0x11 nest.old) nest.old nest.new result }
{
    let (a, b) = take_two(nest)?;
    let (sum, overflow) = b.add(a);
    nest.push(sum);
    Ok(overflow)
}

/// -.
#[inline(always)]
pub(crate) fn minus(nest: &mut Nest) -> Result<bool, Nouv>
    ensures { Makes (plain 0x12 nest.old) nest.old nest.new result }
{
    let (a, b) = take_two(nest)?;
    let (difference, overflow) = b.sub(a);
    nest.push(difference);
    Ok(overflow)
}

/// XD.
#[inline(never)]
pub(crate) fn xd(nest: &mut Nest) -> Result<bool, Nouv>
    ensures { Makes (plain 0x14 nest.old) nest.old nest.new result }
{
    let (a, b) = take_two(nest)?;
    let (product, overflow) = Double::times(b, a);
    push_double(nest, product);
    Ok(overflow)
}

/// CONT.
#[inline(never)]
pub(crate) fn cont(nest: &mut Nest) -> Result<bool, Nouv>
    ensures { Makes (plain 0x15 nest.old) nest.old nest.new result }
{
    let (a, b) = take_two(nest)?;
    let (word, overflow) = Double::of(a, b).contract();
    nest.push(word);
    Ok(overflow)
}

/// STR. A word always fits a double value.
#[inline(never)]
pub(crate) fn stretch(nest: &mut Nest) -> Result<bool, Nouv>
    ensures { Makes (plain 0x16 nest.old) nest.old nest.new result }
{
    need_room(nest, 1)?;
    let a = take_one(nest)?;
    push_double(nest, Double::stretch(a));
    Ok(false)
}

/// +D.
#[inline(never)]
pub(crate) fn plus_d(nest: &mut Nest) -> Result<bool, Nouv>
    ensures { Makes (plain 0x17 nest.old) nest.old nest.new result }
{
    let (a, b, c, d) = take_four(nest)?;
    let (sum, overflow) = Double::of(c, d).add(Double::of(a, b));
    push_double(nest, sum);
    Ok(overflow)
}

/// -D.
#[inline(never)]
pub(crate) fn minus_d(nest: &mut Nest) -> Result<bool, Nouv>
    ensures { Makes (plain 0x18 nest.old) nest.old nest.new result }
{
    let (a, b, c, d) = take_four(nest)?;
    let (difference, overflow) = Double::of(c, d).sub(Double::of(a, b));
    push_double(nest, difference);
    Ok(overflow)
}

/// NEGD.
#[inline(never)]
pub(crate) fn negd(nest: &mut Nest) -> Result<bool, Nouv>
    ensures { Makes (plain 0x19 nest.old) nest.old nest.new result }
{
    let (a, b) = take_two(nest)?;
    let (negative, overflow) = Double::of(a, b).neg();
    push_double(nest, negative);
    Ok(overflow)
}

/// DIVI. Where the divisor is 0, V is set and both words stay.
#[inline(never)]
pub(crate) fn divi(nest: &mut Nest) -> Result<bool, Nouv>
    ensures { Makes (plain 0x1A nest.old) nest.old nest.new result }
{
    let (a, b) = take_two(nest)?;
    if a.bits() == 0 {
        nest.push(b);
        nest.push(a);
        return Ok(true);
    }
    let (quotient, remainder) = divide(b, a);
    let (quotient, overflow) = Word::put(i128::from(quotient));
    nest.push(quotient);
    nest.push(Word::of(remainder));
    Ok(overflow)
}

/// TOB.
#[inline(never)]
pub(crate) fn tob(nest: &mut Nest) -> Result<bool, Nouv>
    ensures { Makes (plain 0x1B nest.old) nest.old nest.new result }
{
    let (a, b) = take_two(nest)?;
    let (word, overflow) = Word::put(i128::from(to_binary(a, b)));
    nest.push(word);
    Ok(overflow)
}

/// FRB.
#[inline(never)]
pub(crate) fn frb(nest: &mut Nest) -> Result<bool, Nouv>
    ensures { Makes (plain 0x1C nest.old) nest.old nest.new result }
{
    let (a, b) = take_two(nest)?;
    let (word, rest) = from_binary(a, b);
    nest.push(word);
    Ok(rest != 0)
}
