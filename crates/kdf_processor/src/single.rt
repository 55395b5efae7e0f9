//! The orders on one Q-store.
ghost use Rattle.std.specs.Prelude.{◌≡◌};
ghost use Rattle.std.specs.Int.{IsInRange};
ghost use Rattle.kdf_syllable.specs.declared.order.Order.TheVariants as order;
ghost use Rattle.kdf_syllable.specs.Spelling.{IsOrder, IsQ};
ghost use Rattle.kdf_qstore.specs.Triples.{triple_at};
ghost use Rattle.kdf_processor.specs.Effect.{Comes, Going, IsUncounted};
ghost use Rattle.kdf_processor.specs.Table.{from_top, sets_q, short_loop, single_row};

use crate::push::push;
use crate::q_store::{brought, changed, from_top, leave};
use crate::syllable_number::syllable_after;
use crate::{Failure, Registers};

/// An order on Qq.
#[tactic(auto, unfolding(crate::specs::Table::single_row))]
#[inline(always)]
pub fn single(registers: &mut Registers, code: u8, q: u8) -> Result<(), Failure>
    requires { IsOrder (order.Single code q) }
    ensures { Comes
        (single_row registers.old code q (triple_at registers.old.q q)) registers.old registers.new result }
{
    let triple = registers.q.triple(q);
    match code {
        0x6f => {
            loop_back(registers, triple.c);
            Ok(())
        }
        0x50..=0x53 => push(registers, 2, brought(code, triple)),
        0x54..=0x5e => set(registers, code, q),
        _ => {
            leave(registers, q, changed(code, triple));
            Ok(())
        }
    }
}

/// Sets Qq by the top, which is erased.
fn set(registers: &mut Registers, code: u8, q: u8) -> Result<(), Failure>
    requires code { IsInRange 0x54 0x5E code }
    requires q { IsQ q }
    ensures { Comes
        (sets_q registers.old q (λ n1. from_top code n1 (triple_at registers.old.q q)))
        registers.old registers.new result }
{
    if registers.nest.depth() == 0 {
        return Err(Failure::Nouv);
    }
    let word = registers.nest.pop();
    let triple = from_top(code, word, registers.q.triple(q));
    leave(registers, q, triple);
    Ok(())
}

/// JCqNZS: to syllable 0 of the word before, where Cq isn't 0.
#[inline(always)]
fn loop_back(registers: &mut Registers, counter: u16)
    ensures row { short_loop registers.old counter ≡ Going registers.new }
    ensures uncounted { IsUncounted registers.old registers.new }
{
    registers.at = if counter == 0 {
        syllable_after(registers.at, 2)
    } else {
        6 * ((registers.at / 6 + 8191) % 8192)
    };
}
