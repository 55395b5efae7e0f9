//! The words that an order takes from the nest.
ghost use Rattle.std.specs.Prelude.{◌+◌, ◌<◌, ◌≤◌, [], ◌∷◌, length, OnOk, OnErr};
ghost use Rattle.kdf_arith.specs.Outcome.{Takes};

use crate::Nouv;
use kdf_nest::{DEPTH, Nest};
use kdf_word::Word;

/// Takes the top, a.
#[inline(always)]
pub(crate) fn take_one(nest: &mut Nest) -> Result<Word, Nouv>
    ensures { Takes 1 (λ a. a ∷ []) nest.old nest.new result }
{
    if nest.depth() < 1 {
        return Err(Nouv);
    }
    Ok(nest.pop())
}

/// Takes a and b, the top first.
#[inline(always)]
pub(crate) fn take_two(nest: &mut Nest) -> Result<(Word, Word), Nouv>
    ensures { Takes 2 (λ w. w.0 ∷ w.1 ∷ []) nest.old nest.new result }
{
    if nest.depth() < 2 {
        return Err(Nouv);
    }
    Ok(nest.pop_two())
}

/// Takes a, b and c, the top first.
pub(crate) fn take_three(nest: &mut Nest) -> Result<(Word, Word, Word), Nouv>
    ensures { Takes 3 (λ w. w.0 ∷ w.1 ∷ w.2 ∷ []) nest.old nest.new result }
{
    if nest.depth() < 3 {
        return Err(Nouv);
    }
    let a = nest.pop();
    let b = nest.pop();
    let c = nest.pop();
    Ok((a, b, c))
}

/// Takes a, b, c and d, the top first.
pub(crate) fn take_four(nest: &mut Nest) -> Result<(Word, Word, Word, Word), Nouv>
    ensures { Takes 4 (λ w. w.0 ∷ w.1 ∷ w.2 ∷ w.3 ∷ []) nest.old nest.new result }
{
    if nest.depth() < 4 {
        return Err(Nouv);
    }
    let a = nest.pop();
    let b = nest.pop();
    let c = nest.pop();
    let d = nest.pop();
    Ok((a, b, c, d))
}

/// Tells whether so many words more have room.
#[inline(always)]
pub(crate) fn need_room(nest: &Nest, more: usize) -> Result<(), Nouv>
    requires { more ≤ 2 }
    ensures ok { OnOk result (length nest.now + more ≤ 16) }
    ensures err { OnErr result (16 < length nest.now + more) }
    ensures most { length nest.now ≤ 16 }
{
    if nest.depth() + more > DEPTH {
        return Err(Nouv);
    }
    Ok(())
}
