//! Which word of the store an order fetches or keeps.
ghost use Rattle.std.specs.Prelude.{◌≡◌, Bool};
ghost use Rattle.kdf_syllable.specs.Spelling.{IsQ};
ghost use Rattle.kdf_processor.specs.Plan.{IsHalf};
ghost use Rattle.kdf_processor.specs.Table.{direct_effect, has_bit, indirect_effect, moves};

use crate::Registers;
use crate::plan::Access;
use kdf_qstore::Part;

/// What a store order fetches or keeps.
#[tactic(auto, unfolding(crate::specs::Table::direct_effect))]
#[inline(always)]
pub fn direct_access(registers: &Registers, u: bool, q: u8, a: u16) -> Access
    requires q { IsQ q }
    ensures effect { (t : Bool) → direct_effect registers.now t u q a
        ≡ moves t registers.now result.size result.address result.half result.u result.q }
    ensures half { IsHalf result.half }
    ensures same_q { IsQ result.q }
{
    Access {
        size: 3,
        address: a.wrapping_add(registers.q.part(q, Part::M)),
        half: None,
        u,
        q,
    }
}

/// What MkMq and =MkMq fetch or keep.
#[tactic(auto, unfolding(crate::specs::Table::indirect_effect))]
#[inline(always)]
pub fn indirect_access(registers: &Registers, code: u8, k: u8, q: u8) -> Access
    requires k { IsQ k }
    requires q { IsQ q }
    ensures effect { indirect_effect registers.now code k q
        ≡ moves (has_bit 8 code) registers.now result.size result.address result.half result.u result.q }
    ensures half { IsHalf result.half }
    ensures same_q { IsQ result.q }
{
    let modifier = registers.q.part(q, Part::M);
    let (step, half) = if code / 2 % 2 == 1 {
        (modifier / 2, Some((modifier % 2) as u8))
    } else {
        (modifier, None)
    };
    let base = registers.q.part(k, Part::M);
    let sum = u32::from(base) + u32::from(step) + u32::from(code % 2);
    Access {
        size: 2,
        address: (sum % (1 << 16)) as u16,
        half,
        u: code / 4 % 2 == 1,
        q,
    }
}
