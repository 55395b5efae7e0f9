//! The copies of parts of one Q-store to another.
ghost use Rattle.std.specs.Prelude.{◌≡◌};
ghost use Rattle.kdf_syllable.specs.declared.order.Order.TheVariants as order;
ghost use Rattle.kdf_syllable.specs.Spelling.{IsOrder};
ghost use Rattle.kdf_qstore.specs.Triples.{triple_at};
ghost use Rattle.std.specs.Int.{IsInRange};
ghost use Rattle.kdf_processor.specs.Effect.{Comes};
ghost use Rattle.kdf_processor.specs.Table.{changes_q, copied};

use crate::q_store::leave;
use crate::{Failure, Registers};
use kdf_qstore::Triple;

/// What a copy makes of the parts of its second Q-store.
#[tactic(auto, unfolding(crate::specs::Table::copied))]
fn copied(code: u8, from: Triple, to: Triple) -> Triple
    requires { IsInRange 0x63 0x69 code }
    ensures { result ≡ copied code from to }
{
    match code {
        0x63 => Triple { m: from.m, ..to },
        0x64 => Triple { i: from.i, ..to },
        0x65 => Triple { c: to.c, ..from },
        0x66 => Triple { c: from.c, ..to },
        0x67 => Triple { i: to.i, ..from },
        0x68 => Triple { m: to.m, ..from },
        _ => from,
    }
}

/// A copy of parts of Qq to Qk.
pub fn copy(registers: &mut Registers, code: u8, q: u8, k: u8) -> Result<(), Failure>
    requires { IsOrder (order.Copies code q k) }
    ensures { Comes
        (changes_q registers.old k
        (copied code (triple_at registers.old.q q) (triple_at registers.old.q k)))
        registers.old registers.new result }
{
    let triple = copied(code, registers.q.triple(q), registers.q.triple(k));
    leave(registers, k, triple);
    Ok(())
}
