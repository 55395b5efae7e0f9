//! The orders that move words of the nest and combine their bits. None of them changes a flag. The short ones are
//! inlined in the loop over the orders of a program, the long ones are calls.
#![tactic(auto, unfolding(crate::specs::Rows::arith_row))]

ghost use Rattle.std.specs.Int.{IsInRange};
ghost use Rattle.kdf_arith.specs.Arith.{plain};
ghost use Rattle.kdf_arith.specs.Outcome.{Leaves};

use crate::Nouv;
use crate::operands::{need_room, take_four, take_one, take_three, take_two};
use kdf_nest::Nest;
use kdf_word::Word;

/// The bits of a word.
const ALL: u64 = (1 << 48) - 1;

/// An order with a code from 02 to 0E.
#[tactic(auto)]
#[inline(always)]
pub(crate) fn obey_words(nest: &mut Nest, code: u8) -> Result<(), Nouv>
    requires { IsInRange 0x02 0x0E code }
    ensures { Leaves (plain code nest.old) nest.old nest.new result }
{
    match code {
        0x02 => erase(nest),
        0x03 => dup(nest),
        0x04 => dupd(nest),
        0x05 => rev(nest),
        0x06 => revd(nest),
        0x07 => cab(nest),
        0x08 => perm(nest),
        0x09 => zero(nest),
        0x0a => and(nest),
        0x0b => or(nest),
        0x0c => not(nest),
        0x0d => nev(nest),
        _ => bits(nest),
    }
}

/// ERASE.
#[inline(always)]
fn erase(nest: &mut Nest) -> Result<(), Nouv>
    ensures { Leaves (plain 0x02 nest.old) nest.old nest.new result }
{
    take_one(nest)?;
    Ok(())
}

/// DUP.
#[inline(always)]
fn dup(nest: &mut Nest) -> Result<(), Nouv>
    ensures { Leaves (plain 0x03 nest.old) nest.old nest.new result }
{
    need_room(nest, 1)?;
    let a = take_one(nest)?;
    nest.push(a);
    nest.push(a);
    Ok(())
}

/// DUPD.
#[inline(never)]
fn dupd(nest: &mut Nest) -> Result<(), Nouv>
    ensures { Leaves (plain 0x04 nest.old) nest.old nest.new result }
{
    need_room(nest, 2)?;
    let (a, b) = take_two(nest)?;
    nest.push(b);
    nest.push(a);
    nest.push(b);
    nest.push(a);
    Ok(())
}

/// REV.
#[inline(always)]
fn rev(nest: &mut Nest) -> Result<(), Nouv>
    ensures { Leaves (plain 0x05 nest.old) nest.old nest.new result }
{
    let (a, b) = take_two(nest)?;
    nest.push(a);
    nest.push(b);
    Ok(())
}

/// REVD.
#[inline(never)]
fn revd(nest: &mut Nest) -> Result<(), Nouv>
    ensures { Leaves (plain 0x06 nest.old) nest.old nest.new result }
{
    let (a, b, c, d) = take_four(nest)?;
    nest.push(b);
    nest.push(a);
    nest.push(d);
    nest.push(c);
    Ok(())
}

/// CAB.
#[inline(never)]
fn cab(nest: &mut Nest) -> Result<(), Nouv>
    ensures { Leaves (plain 0x07 nest.old) nest.old nest.new result }
{
    let (a, b, c) = take_three(nest)?;
    nest.push(b);
    nest.push(a);
    nest.push(c);
    Ok(())
}

/// PERM.
#[inline(never)]
fn perm(nest: &mut Nest) -> Result<(), Nouv>
    ensures { Leaves (plain 0x08 nest.old) nest.old nest.new result }
{
    let (a, b, c) = take_three(nest)?;
    nest.push(a);
    nest.push(c);
    nest.push(b);
    Ok(())
}

/// ZERO.
#[inline(always)]
fn zero(nest: &mut Nest) -> Result<(), Nouv>
    ensures { Leaves (plain 0x09 nest.old) nest.old nest.new result }
{
    need_room(nest, 1)?;
    nest.push(Word::default());
    Ok(())
}

/// AND.
#[inline(always)]
fn and(nest: &mut Nest) -> Result<(), Nouv>
    ensures { Leaves (plain 0x0A nest.old) nest.old nest.new result }
{
    let (a, b) = take_two(nest)?;
    nest.push(Word::new(b.bits() & a.bits()));
    Ok(())
}

/// OR.
#[inline(always)]
fn or(nest: &mut Nest) -> Result<(), Nouv>
    ensures { Leaves (plain 0x0B nest.old) nest.old nest.new result }
{
    let (a, b) = take_two(nest)?;
    nest.push(Word::new(b.bits() | a.bits()));
    Ok(())
}

/// NOT.
#[inline(always)]
fn not(nest: &mut Nest) -> Result<(), Nouv>
    ensures { Leaves (plain 0x0C nest.old) nest.old nest.new result }
{
    let a = take_one(nest)?;
    nest.push(Word::new(ALL - a.bits()));
    Ok(())
}

/// NEV.
#[inline(always)]
fn nev(nest: &mut Nest) -> Result<(), Nouv>
    ensures { Leaves (plain 0x0D nest.old) nest.old nest.new result }
{
    let (a, b) = take_two(nest)?;
    nest.push(Word::new(b.bits() ^ a.bits()));
    Ok(())
}

/// BITS.
#[inline(never)]
fn bits(nest: &mut Nest) -> Result<(), Nouv>
    ensures { Leaves (plain 0x0E nest.old) nest.old nest.new result }
{
    let a = take_one(nest)?;
    nest.push(Word::new(u64::from(a.bits().count_ones())));
    Ok(())
}
