//! How orders are spelt.
ghost use Rattle.std.specs.Prelude.{◌≡◌, ◌-◌, length, take, drop, replicate};
ghost use Rattle.std.specs.Int.{IsInRange};
ghost use Rattle.kdf_syllable.specs.Spelling.{IsOrder, spelling, size_of_first};

use crate::order::Order;
use crate::syllables::Syllables;

/// The first syllable of the tests of devices.
const QUERY: u8 = 0x7e;

/// To this the condition of a jump is added.
const JUMP: u8 = 0x80;

/// The first syllable of the return from a subroutine.
const EXIT: u8 = 0xb2;

/// The 24 bits of the fetch from address 0.
const DIRECT: u32 = 0xc0_0000;

/// The 24 bits that bring the constant 0.
const SET: u32 = 0xe0_0000;

/// The syllables of an order whose fields are in their ranges.
#[tactic(auto, unfolding(crate::specs::Spelling::spelling))]
pub fn encode(order: &Order) -> Syllables
    requires { IsOrder order.now }
    ensures size { result.size ≡ length (spelling order.now) }
    ensures within { IsInRange 1 3 result.size }
    ensures spelling { take result.size result.bytes ≡ spelling order.now }
    ensures rest { drop result.size result.bytes ≡ replicate (3 - result.size) 0 }
{
    match *order {
        Order::Plain { code } => Syllables::one(code),
        Order::Indirect { code, k, q } => Syllables::two(code, 16 * k + q),
        Order::Single { code, q } | Order::Device { code, q } => Syllables::two(code, 16 * q),
        Order::Copies { code, q, k } => Syllables::two(code, 16 * q + k),
        Order::Shift { code, by } => Syllables::two(code, by.syllable()),
        Order::Query { b, q } => Syllables::two(QUERY, 16 * q + b),
        Order::Jump { c, target } => {
            let [high, low] = target.to_be_bytes();
            Syllables::three(JUMP + c, high, low)
        }
        Order::Exit { n } => Syllables::three(EXIT, 0, n),
        Order::Direct { t, u, q, a } => Syllables::of_bits(
            DIRECT
                + (u32::from(t) << 20)
                + (u32::from(u) << 19)
                + (u32::from(q) << 15)
                + u32::from(a),
        ),
        Order::Set { constant } => Syllables::of_bits(SET + u32::from(constant)),
    }
}

/// How many syllables an order has, 1 to 3.
#[tactic(auto, unfolding(crate::specs::Spelling::spelling))]
pub fn size(order: &Order) -> u8
    ensures value { result ≡ length (spelling order.now) }
    ensures within { IsInRange 1 3 result }
{
    match order {
        Order::Plain { .. } => 1,
        Order::Indirect { .. }
        | Order::Single { .. }
        | Order::Copies { .. }
        | Order::Shift { .. }
        | Order::Device { .. }
        | Order::Query { .. } => 2,
        Order::Jump { .. } | Order::Exit { .. } | Order::Direct { .. } | Order::Set { .. } => 3,
    }
}

/// How many syllables an order has that begins with this one, as the two highest bits say.
pub fn size_of_first(byte: u8) -> u8
    ensures value { result ≡ size_of_first byte }
    ensures within { IsInRange 1 3 result }
{
    match byte {
        0..64 => 1,
        64..128 => 2,
        128.. => 3,
    }
}
