//! The conditions of jumps.
ghost use Rattle.std.specs.Prelude.{◌≡◌, ◌≤◌, ◌==◌, false};
ghost use Rattle.std.specs.Int.{IsInRange};
ghost use Rattle.kdf_processor.specs.Effect.{Decided, Decides, IsUncounted};
ghost use Rattle.kdf_processor.specs.Jumps.{has_sign, is_so};
ghost use Rattle.kdf_processor.specs.Table.{decision, by_top, by_two, with_link, with_v, with_tr};

use crate::{Failure, Registers};
use kdf_nest::DEPTH;
use kdf_qstore::Part;
use kdf_word::Word;

/// What a jump tests of the word on top.
#[derive(Clone, Copy)]
pub enum Sign {
    Zero,
    NotZero,
    Positive,
    Negative,
    NotNegative,
    NotPositive,
}

/// Whether a jump on the condition `c` is taken. Whether or not it is, the operand is erased, the
/// flag cleared and the link pushed.
#[inline(always)]
pub fn decide(registers: &mut Registers, c: u8) -> Result<bool, Failure>
    requires { c ≤ 0x31 }
    ensures { Decides (decision registers.old c) registers.old registers.new result }
{
    match c {
        0x00..=0x20 => Ok(decide_by_counter(registers, c)),
        0x21..=0x23 => decide_by_two(registers, c),
        0x24..=0x29 => decide_by_top(registers, c),
        0x2a..=0x2d => Ok(decide_by_flag(registers, c)),
        _ => Ok(decide_by_depth(registers, c)),
    }
}

/// JrCqZ, JrCqNZ and Jr.
#[tactic(auto, unfolding(crate::specs::Table::decision))]
#[inline(always)]
fn decide_by_counter(registers: &Registers, c: u8) -> bool
    requires { c ≤ 0x20 }
    ensures { decision registers.now c ≡ Decided result registers.now }
{
    match c {
        0x00..=0x0f => registers.q.part(c, Part::C) == 0,
        0x10..=0x1f => registers.q.part(c - 0x10, Part::C) != 0,
        _ => true,
    }
}

/// JSr, Jr= and Jr#.
#[tactic(auto, unfolding(crate::specs::Table::decision))]
fn decide_by_two(registers: &mut Registers, c: u8) -> Result<bool, Failure>
    requires { IsInRange 0x21 0x23 c }
    ensures { Decides (decision registers.old c) registers.old registers.new result }
{
    match c {
        0x21 => push_link(registers),
        0x22 => compare(registers, true),
        _ => compare(registers, false),
    }
}

/// Jr=Z, Jr#Z, JrGTZ, JrLTZ, JrGEZ and JrLEZ.
#[tactic(auto, unfolding(crate::specs::Table::decision))]
fn decide_by_top(registers: &mut Registers, c: u8) -> Result<bool, Failure>
    requires { IsInRange 0x24 0x29 c }
    ensures { Decides (decision registers.old c) registers.old registers.new result }
{
    match c {
        0x24 => test_top(registers, Sign::Zero),
        0x25 => test_top(registers, Sign::NotZero),
        0x26 => test_top(registers, Sign::Positive),
        0x27 => test_top(registers, Sign::Negative),
        0x28 => test_top(registers, Sign::NotNegative),
        _ => test_top(registers, Sign::NotPositive),
    }
}

/// JrV, JrNV, JrTR and JrNTR.
#[tactic(auto, unfolding(crate::specs::Table::decision))]
fn decide_by_flag(registers: &mut Registers, c: u8) -> bool
    requires { IsInRange 0x2A 0x2D c }
    ensures decision { decision registers.old c ≡ Decided result registers.new }
    ensures uncounted { IsUncounted registers.old registers.new }
{
    match c {
        0x2a => take_v(registers),
        0x2b => !take_v(registers),
        0x2c => take_tr(registers),
        _ => !take_tr(registers),
    }
}

/// JrEN, JrNEN, JrEJ and JrNEJ.
#[tactic(auto, unfolding(crate::specs::Table::decision))]
fn decide_by_depth(registers: &Registers, c: u8) -> bool
    requires { IsInRange 0x2E 0x31 c }
    ensures { decision registers.now c ≡ Decided result registers.now }
{
    match c {
        0x2e => registers.nest.depth() == 0,
        0x2f => registers.nest.depth() != 0,
        0x30 => registers.links.depth() == 0,
        _ => registers.links.depth() != 0,
    }
}

/// Pushes the place of the order itself as a link, or fails where there is no room.
fn push_link(registers: &mut Registers) -> Result<bool, Failure>
    ensures { Decides (with_link registers.old) registers.old registers.new result }
{
    if registers.links.depth() == DEPTH {
        return Err(Failure::Nouv);
    }
    let at = registers.at;
    registers.links.push(8192 * (at % 6) + at / 6);
    Ok(true)
}

/// Erases the top, and tells whether it comes out as is wanted: equal to the word below, or not.
fn compare(registers: &mut Registers, wanted: bool) -> Result<bool, Failure>
    ensures { Decides (by_two registers.old (λ n1 n2. is_so wanted (n1 == n2)))
        registers.old registers.new result }
{
    if registers.nest.depth() < 2 {
        return Err(Failure::Nouv);
    }
    let top = registers.nest.pop();
    let same = top.bits() == registers.nest.peek(0).bits();
    Ok(if wanted { same } else { !same })
}

/// Erases the top, and tells whether it had this sign.
fn test_top(registers: &mut Registers, sign: Sign) -> Result<bool, Failure>
    ensures { Decides (by_top registers.old (has_sign sign)) registers.old registers.new result }
{
    if registers.nest.depth() == 0 {
        return Err(Failure::Nouv);
    }
    let word = registers.nest.pop();
    Ok(has_sign(word, sign))
}

/// Whether a word has this sign.
fn has_sign(word: Word, sign: Sign) -> bool
    ensures { result ≡ has_sign sign word }
{
    let bits = word.bits();
    let is_negative = bits >= 1 << 47;
    match sign {
        Sign::Zero => bits == 0,
        Sign::NotZero => bits != 0,
        Sign::Positive => bits != 0 && !is_negative,
        Sign::Negative => is_negative,
        Sign::NotNegative => !is_negative,
        Sign::NotPositive => bits == 0 || is_negative,
    }
}

/// Clears V, and tells whether it was set.
fn take_v(registers: &mut Registers) -> bool
    ensures value { result ≡ registers.old.flags.v }
    ensures cleared { registers.new ≡ with_v false registers.old }
{
    std::mem::take(&mut registers.flags.v)
}

/// Clears TR, and tells whether it was set.
fn take_tr(registers: &mut Registers) -> bool
    ensures value { result ≡ registers.old.flags.tr }
    ensures cleared { registers.new ≡ with_tr false registers.old }
{
    std::mem::take(&mut registers.flags.tr)
}
