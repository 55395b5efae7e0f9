//! Examples of the rows at the ends of their operands, and of the orders at a place, each computed from the
//! definitions, as the contract of a function that does nothing.
#![tactic(auto, unfolding(crate::specs::Table::plain_row, crate::specs::Table::out_effect, crate::specs::Table::single_row, crate::specs::Table::brought, crate::specs::Table::from_top, crate::specs::Table::changed, crate::specs::Table::copied, crate::specs::Table::indirect_effect, crate::specs::Table::direct_effect, crate::specs::Table::decision, crate::specs::Table::exit_row, crate::specs::Table::guarded, kdf_decode::specs::Decoding::decoded, kdf_arith::specs::Arith::arith_result, kdf_arith::specs::Rows::arith_row, kdf_arith::specs::Shifts::shift_row))]

pub mod acts;
pub mod calls;
pub mod pool;
pub mod queries;
pub mod transfers;
pub mod waits;

ghost use Rattle.std.specs.Prelude.{◌≡◌, ◌+◌, ◌-◌, ◌*◌, ◌^◌, [], ◌∷◌, replicate, true, false, Some, None, pos, negsuc};
ghost use Rattle.kdf_syllable.specs.declared.amount.Amount.TheVariants.{Fixed, Count};
ghost use Rattle.kdf_syllable.specs.declared.order.Order.TheVariants as order;
ghost use Rattle.kdf_journal.specs.declared.failure.Failure.TheVariants.{Liv, Nouv, Out, Reset};
ghost use Rattle.kdf_journal.specs.declared.need.Need.TheVariants.{Group};
ghost use Rattle.kdf_processor.specs.Effect.{Going, Refused, Nothing, Writes};
ghost use Rattle.kdf_processor.specs.Examples.{parts, linked, counted, single, leaves, moving, copy, makes, jump, taken, passed, word, obeyed, does, ends, fails};
ghost use Rattle.kdf_processor.specs.Needs.{fetch_needs, order_at};
ghost use Rattle.kdf_processor.specs.Table.{change_of, with_v, with_tr};

/// Orders of one syllable. The syllable after the last of word 8191 is the first of word 0.
pub fn one_syllable()
    ensures dummy { change_of (linked 49151 (5 ∷ []) []) (order.Plain 0x01)
        ≡ Going (linked 0 (5 ∷ []) []) }
    ensures sum { change_of (linked 60 (1 ∷ 2 ∷ 3 ∷ []) []) (order.Plain 0x11)
        ≡ Going (linked 61 (3 ∷ 3 ∷ []) []) }
    ensures sum_of_one { change_of (linked 60 (1 ∷ []) []) (order.Plain 0x11) ≡ Refused Nouv }
    ensures link { change_of (linked 60 (5 ∷ []) (65535 ∷ 7 ∷ [])) (order.Plain 0x1D)
        ≡ Going (linked 61 (65535 ∷ 5 ∷ []) (7 ∷ [])) }
    ensures no_link { change_of (linked 60 (5 ∷ []) []) (order.Plain 0x1D) ≡ Refused Nouv }
    ensures no_room { change_of (linked 60 (replicate 16 5) (7 ∷ [])) (order.Plain 0x1D)
        ≡ Refused Nouv }
    ensures keep_link { change_of (linked 60 (0xabcd12349876 ∷ 5 ∷ []) (7 ∷ [])) (order.Plain 0x1E)
        ≡ Going (linked 61 (5 ∷ []) (0x9876 ∷ 7 ∷ [])) }
    ensures no_word { change_of (linked 60 [] (7 ∷ [])) (order.Plain 0x1E) ≡ Refused Nouv }
    ensures no_place { change_of (linked 60 (5 ∷ []) (replicate 16 7)) (order.Plain 0x1E)
        ≡ Refused Nouv }
{}

/// OUT of 0 takes its number and ends the program. No other number is one of OUT.
pub fn outs()
    ensures nought { obeyed (linked 60 (0 ∷ 5 ∷ []) (7 ∷ [])) (order.Plain 0x21)
        ≡ ends (linked 61 (5 ∷ []) (7 ∷ [])) }
    ensures around { obeyed (linked 49151 (0 ∷ []) []) (order.Plain 0x21) ≡ ends (linked 0 [] []) }
    ensures one { obeyed (linked 60 (1 ∷ 5 ∷ []) []) (order.Plain 0x21)
        ≡ fails (linked 60 (1 ∷ 5 ∷ []) []) Out }
    ensures minus_one { obeyed (linked 60 ((2 ^ 48 - 1) ∷ []) []) (order.Plain 0x21)
        ≡ fails (linked 60 ((2 ^ 48 - 1) ∷ []) []) Out }
    ensures no_number { obeyed (linked 60 [] []) (order.Plain 0x21) ≡ fails (linked 60 [] []) Nouv }
{}

/// A part comes to the nest with its sign extended. Q0 is zero.
pub fn brought()
    ensures all { single 0x50 [] (parts 1 65535 2)
        ≡ leaves (0x0001ffff0002 ∷ []) (parts 1 65535 2) }
    ensures c { single 0x51 (5 ∷ []) (parts 65535 1 2)
        ≡ leaves ((2 ^ 48 - 1) ∷ 5 ∷ []) (parts 65535 1 2) }
    ensures i { single 0x52 [] (parts 1 32768 2)
        ≡ leaves ((2 ^ 48 - 32768) ∷ []) (parts 1 32768 2) }
    ensures m { single 0x53 [] (parts 1 2 32767) ≡ leaves (32767 ∷ []) (parts 1 2 32767) }
    ensures nought { change_of (counted 60 [] (parts 1 2 3)) (order.Single 0x50 0)
        ≡ leaves (0 ∷ []) (parts 1 2 3) }
    ensures no_room { single 0x51 (replicate 16 0) (parts 1 2 3) ≡ Refused Nouv }
{}

/// A part is set from the low 16 bits. What is set in Q0 is lost.
pub fn set()
    ensures all { single 0x54 (0x0003fffeffff ∷ 9 ∷ []) (parts 1 2 4)
        ≡ leaves (9 ∷ []) (parts 3 65534 65535) }
    ensures c { single 0x55 (0x0003fffeffff ∷ []) (parts 1 2 4) ≡ leaves [] (parts 65535 2 4) }
    ensures i { single 0x56 (0x0003fffeffff ∷ []) (parts 1 2 4) ≡ leaves [] (parts 1 65535 4) }
    ensures m { single 0x57 (0x0003fffeffff ∷ []) (parts 1 2 4) ≡ leaves [] (parts 1 2 65535) }
    ensures nought { change_of (counted 60 (5 ∷ []) (parts 1 2 3)) (order.Single 0x54 0)
        ≡ leaves [] (parts 1 2 3) }
    ensures no_word { single 0x57 [] (parts 1 2 4) ≡ Refused Nouv }
{}

/// No sum of a part carries over to another.
pub fn added()
    ensures all { single 0x58 (0x0003fffeffff ∷ 9 ∷ []) (parts 65535 2 4)
        ≡ leaves (9 ∷ []) (parts 2 0 3) }
    ensures c { single 0x59 (0x0003fffeffff ∷ []) (parts 1 2 4) ≡ leaves [] (parts 0 2 4) }
    ensures i { single 0x5A (0x0003fffeffff ∷ []) (parts 1 2 4) ≡ leaves [] (parts 1 1 4) }
    ensures m { single 0x5B (0x0003fffeffff ∷ []) (parts 1 2 4) ≡ leaves [] (parts 1 2 3) }
    ensures reset_c { single 0x5C (0x0003fffeffff ∷ []) (parts 7 8 9)
        ≡ leaves [] (parts 65535 1 0) }
    ensures reset_i { single 0x5D (0x0003fffeffff ∷ []) (parts 7 8 9)
        ≡ leaves [] (parts 0 65535 0) }
    ensures reset_m { single 0x5E (0x0003fffeffff ∷ []) (parts 7 8 9)
        ≡ leaves [] (parts 0 1 65535) }
    ensures no_word { single 0x5B [] (parts 1 2 4) ≡ Refused Nouv }
    ensures no_word_reset { single 0x5C [] (parts 1 2 4) ≡ Refused Nouv }
{}

/// NCq, DCq, M+Iq, M-Iq. JCqNZS in word 0 goes to word 8191.
pub fn counts()
    ensures minus_nought { single 0x5F [] (parts 0 2 3) ≡ leaves [] (parts 0 2 3) }
    ensures minus_one { single 0x5F [] (parts 1 2 3) ≡ leaves [] (parts 65535 2 3) }
    ensures down { single 0x60 [] (parts 0 2 3) ≡ leaves [] (parts 65535 2 3) }
    ensures up { single 0x61 [] (parts 1 3 65534) ≡ leaves [] (parts 1 3 1) }
    ensures below { single 0x62 [] (parts 1 3 2) ≡ leaves [] (parts 1 3 65535) }
    ensures no_loop { single 0x6F [] (parts 0 1 1) ≡ leaves [] (parts 0 1 1) }
    ensures loops { change_of (counted 65 [] (parts 65535 0 0)) (order.Single 0x6F 1)
        ≡ Going (counted 54 [] (parts 65535 0 0)) }
    ensures around { change_of (counted 5 [] (parts 1 0 0)) (order.Single 0x6F 1)
        ≡ Going (counted 49146 [] (parts 1 0 0)) }
{}

/// The parts that are named are copied.
pub fn copies()
    ensures m { copy 0x63 ≡ makes (parts 3 4 5) }
    ensures i { copy 0x64 ≡ makes (parts 3 2 6) }
    ensures im { copy 0x65 ≡ makes (parts 3 2 5) }
    ensures c { copy 0x66 ≡ makes (parts 1 4 6) }
    ensures cm { copy 0x67 ≡ makes (parts 1 4 5) }
    ensures ci { copy 0x68 ≡ makes (parts 1 2 6) }
    ensures all { copy 0x69 ≡ makes (parts 1 2 5) }
    ensures of_nought { change_of (moving 60 [] (parts 3 4 6)) (order.Copies 0x67 0 2)
        ≡ makes (parts 0 4 0) }
    ensures to_nought { change_of (moving 60 [] (parts 3 4 6)) (order.Copies 0x69 1 0)
        ≡ makes (parts 3 4 6) }
{}

/// A shift by a number, and by a counter as a signed number.
pub fn shifts()
    ensures left { change_of (counted 60 (3 ∷ []) (parts 1 2 3)) (order.Shift 0x6A (Fixed (pos 1)))
        ≡ leaves (6 ∷ []) (parts 1 2 3) }
    ensures right { change_of (counted 60 (3 ∷ []) (parts 1 2 3)) (order.Shift 0x6B (Fixed (negsuc 0)))
        ≡ leaves (1 ∷ []) (parts 1 2 3) }
    ensures by_counter { change_of (counted 60 (3 ∷ []) (parts 65535 2 3)) (order.Shift 0x6B (Count 1))
        ≡ leaves (1 ∷ []) (parts 65535 2 3) }
    ensures by_nought { change_of (counted 60 (3 ∷ []) (parts 1 2 3)) (order.Shift 0x6B (Count 0))
        ≡ leaves (3 ∷ []) (parts 1 2 3) }
    ensures beyond { change_of (counted 60 (2 ^ 46 ∷ []) (parts 1 2 3)) (order.Shift 0x6A (Count 1))
        ≡ Going (with_v true (counted 62 (2 ^ 47 ∷ []) (parts 1 2 3))) }
    ensures no_word { change_of (counted 60 (3 ∷ []) (parts 1 2 3)) (order.Shift 0x6D (Fixed (pos 1)))
        ≡ Refused Nouv }
{}

/// A half is that of which the last bit of Mq tells. The suffix Q steps the second Q-store.
pub fn fetches()
    ensures whole { obeyed (moving 60 (1 ∷ []) (parts 9 4 3)) (order.Indirect 0x40 1 2)
        ≡ does (moving 62 (word 8 ∷ 1 ∷ []) (parts 9 4 3)) Nothing }
    ensures next { obeyed (moving 60 [] (parts 9 4 3)) (order.Indirect 0x41 1 2)
        ≡ does (moving 62 (word 9 ∷ []) (parts 9 4 3)) Nothing }
    ensures first_half { obeyed (moving 60 [] (parts 9 4 6)) (order.Indirect 0x42 1 2)
        ≡ does (moving 62 ((2 ^ 24 * 8) ∷ []) (parts 9 4 6)) Nothing }
    ensures other_half { obeyed (moving 60 [] (parts 9 4 7)) (order.Indirect 0x42 1 2)
        ≡ does (moving 62 ((2 ^ 24 * 7) ∷ []) (parts 9 4 7)) Nothing }
    ensures next_half { obeyed (moving 60 [] (parts 9 4 6)) (order.Indirect 0x43 1 2)
        ≡ does (moving 62 ((2 ^ 24 * 9) ∷ []) (parts 9 4 6)) Nothing }
    ensures stepped { obeyed (moving 60 [] (parts 0 4 3)) (order.Indirect 0x44 1 2)
        ≡ does (moving 62 (word 8 ∷ []) (parts 65535 4 7)) Nothing }
    ensures next_stepped { obeyed (moving 60 [] (parts 9 4 3)) (order.Indirect 0x45 1 2)
        ≡ does (moving 62 (word 9 ∷ []) (parts 8 4 7)) Nothing }
    ensures half_stepped { obeyed (moving 60 [] (parts 9 4 7)) (order.Indirect 0x46 1 2)
        ≡ does (moving 62 ((2 ^ 24 * 7) ∷ []) (parts 8 4 11)) Nothing }
    ensures all { obeyed (moving 60 [] (parts 9 4 6)) (order.Indirect 0x47 1 2)
        ≡ does (moving 62 ((2 ^ 24 * 9) ∷ []) (parts 8 4 10)) Nothing }
    ensures around { obeyed (moving 60 [] (parts 9 4 65535)) (order.Indirect 0x40 1 2)
        ≡ does (moving 62 (word 4 ∷ []) (parts 9 4 65535)) Nothing }
    ensures of_nought { obeyed (moving 60 [] (parts 9 4 3)) (order.Indirect 0x44 1 0)
        ≡ does (moving 62 (word 5 ∷ []) (parts 9 4 3)) Nothing }
    ensures outside { obeyed (moving 60 [] (parts 9 4 59)) (order.Indirect 0x40 1 2)
        ≡ fails (moving 60 [] (parts 9 4 59)) Liv }
    ensures no_room { obeyed (moving 60 (replicate 16 0) (parts 9 4 59)) (order.Indirect 0x44 1 2)
        ≡ fails (moving 60 (replicate 16 0) (parts 9 4 59)) Nouv }
{}

/// A half is kept from the first half of the top.
pub fn stores()
    ensures whole { obeyed (moving 60 (word 50 ∷ 1 ∷ []) (parts 9 4 3)) (order.Indirect 0x48 1 2)
        ≡ does (moving 62 (1 ∷ []) (parts 9 4 3)) (Writes 8 (word 50)) }
    ensures next { obeyed (moving 60 (word 50 ∷ []) (parts 9 4 3)) (order.Indirect 0x49 1 2)
        ≡ does (moving 62 [] (parts 9 4 3)) (Writes 9 (word 50)) }
    ensures first_half { obeyed (moving 60 ((word 50 + 1) ∷ []) (parts 9 4 6)) (order.Indirect 0x4A 1 2)
        ≡ does (moving 62 [] (parts 9 4 6)) (Writes 8 (word 50)) }
    ensures other_half { obeyed (moving 60 (word 50 ∷ []) (parts 9 4 7)) (order.Indirect 0x4A 1 2)
        ≡ does (moving 62 [] (parts 9 4 7)) (Writes 8 (2 ^ 24 * 8 + 50)) }
    ensures next_half { obeyed (moving 60 (word 50 ∷ []) (parts 9 4 7)) (order.Indirect 0x4B 1 2)
        ≡ does (moving 62 [] (parts 9 4 7)) (Writes 9 (2 ^ 24 * 9 + 50)) }
    ensures stepped { obeyed (moving 60 (word 50 ∷ []) (parts 0 4 3)) (order.Indirect 0x4C 1 2)
        ≡ does (moving 62 [] (parts 65535 4 7)) (Writes 8 (word 50)) }
    ensures next_stepped { obeyed (moving 60 (word 50 ∷ []) (parts 9 4 3)) (order.Indirect 0x4D 1 2)
        ≡ does (moving 62 [] (parts 8 4 7)) (Writes 9 (word 50)) }
    ensures half_stepped { obeyed (moving 60 (word 50 ∷ []) (parts 9 4 7)) (order.Indirect 0x4E 1 2)
        ≡ does (moving 62 [] (parts 8 4 11)) (Writes 8 (2 ^ 24 * 8 + 50)) }
    ensures all { obeyed (moving 60 (word 50 ∷ []) (parts 9 4 7)) (order.Indirect 0x4F 1 2)
        ≡ does (moving 62 [] (parts 8 4 11)) (Writes 9 (2 ^ 24 * 9 + 50)) }
    ensures outside { obeyed (moving 60 (1 ∷ []) (parts 9 4 59)) (order.Indirect 0x4C 1 2)
        ≡ fails (moving 60 (1 ∷ []) (parts 9 4 59)) Liv }
    ensures no_word { obeyed (moving 60 [] (parts 9 4 59)) (order.Indirect 0x48 1 2)
        ≡ fails (moving 60 [] (parts 9 4 59)) Nouv }
{}

/// The store orders, and SET with the sign of its constant extended.
pub fn direct()
    ensures fetched { obeyed (moving 60 [] (parts 9 4 3)) (order.Direct false false 0 63)
        ≡ does (moving 63 (word 63 ∷ []) (parts 9 4 3)) Nothing }
    ensures modified { obeyed (moving 60 [] (parts 9 4 3)) (order.Direct false false 2 8)
        ≡ does (moving 63 (word 11 ∷ []) (parts 9 4 3)) Nothing }
    ensures around { obeyed (moving 60 [] (parts 9 4 65535)) (order.Direct false false 2 8)
        ≡ does (moving 63 (word 7 ∷ []) (parts 9 4 65535)) Nothing }
    ensures stepped { obeyed (moving 60 [] (parts 9 4 65535)) (order.Direct false true 2 8)
        ≡ does (moving 63 (word 7 ∷ []) (parts 8 4 3)) Nothing }
    ensures kept { obeyed (moving 60 (word 50 ∷ 1 ∷ []) (parts 9 4 3)) (order.Direct true true 2 8)
        ≡ does (moving 63 (1 ∷ []) (parts 8 4 7)) (Writes 11 (word 50)) }
    ensures of_nought { obeyed (moving 60 (1 ∷ []) (parts 9 4 3)) (order.Direct true true 0 8)
        ≡ does (moving 63 [] (parts 9 4 3)) (Writes 8 1) }
    ensures outside { obeyed (moving 60 (1 ∷ []) (parts 9 4 3)) (order.Direct true true 2 61)
        ≡ fails (moving 60 (1 ∷ []) (parts 9 4 3)) Liv }
    ensures no_word { obeyed (moving 60 [] (parts 9 4 3)) (order.Direct true false 0 64)
        ≡ fails (moving 60 [] (parts 9 4 3)) Nouv }
    ensures no_room { obeyed (moving 60 (replicate 16 0) (parts 9 4 3)) (order.Direct false false 0 64)
        ≡ fails (moving 60 (replicate 16 0) (parts 9 4 3)) Nouv }
    ensures constant { change_of (linked 60 [] []) (order.Set 32767)
        ≡ Going (linked 63 (32767 ∷ []) []) }
    ensures negative { change_of (linked 60 (1 ∷ []) []) (order.Set 32768)
        ≡ Going (linked 63 ((2 ^ 48 - 32768) ∷ 1 ∷ []) []) }
    ensures no_room_for_constant { change_of (linked 60 (replicate 16 0) []) (order.Set 0)
        ≡ Refused Nouv }
{}

/// Jumps by a counter, always, and by two words. JSr pushes its own place.
pub fn jumps()
    ensures zero { jump 0x01 (counted 60 [] (parts 0 1 1)) ≡ taken (counted 60 [] (parts 0 1 1)) }
    ensures one { jump 0x01 (counted 60 [] (parts 1 0 0)) ≡ passed (counted 60 [] (parts 1 0 0)) }
    ensures not_zero { jump 0x11 (counted 60 [] (parts 0 1 1))
        ≡ passed (counted 60 [] (parts 0 1 1)) }
    ensures not_one { jump 0x11 (counted 60 [] (parts 1 0 0))
        ≡ taken (counted 60 [] (parts 1 0 0)) }
    ensures nought { jump 0x00 (counted 60 [] (parts 1 1 1)) ≡ taken (counted 60 [] (parts 1 1 1)) }
    ensures not_nought { jump 0x10 (counted 60 [] (parts 1 1 1))
        ≡ passed (counted 60 [] (parts 1 1 1)) }
    ensures always { jump 0x20 (linked 60 [] []) ≡ taken (linked 60 [] []) }
    ensures with_link { jump 0x21 (linked 64 [] (7 ∷ []))
        ≡ taken (linked 64 [] ((8192 * 4 + 10) ∷ 7 ∷ [])) }
    ensures no_place { jump 0x21 (linked 64 [] (replicate 16 7)) ≡ Refused Nouv }
    ensures equal { jump 0x22 (linked 60 (5 ∷ 5 ∷ 6 ∷ []) []) ≡ taken (linked 60 (5 ∷ 6 ∷ []) []) }
    ensures different { jump 0x22 (linked 60 (5 ∷ 6 ∷ []) []) ≡ passed (linked 60 (6 ∷ []) []) }
    ensures not_equal { jump 0x23 (linked 60 (5 ∷ 5 ∷ []) []) ≡ passed (linked 60 (5 ∷ []) []) }
    ensures not_different { jump 0x23 (linked 60 (5 ∷ 6 ∷ []) []) ≡ taken (linked 60 (6 ∷ []) []) }
    ensures one_word { jump 0x22 (linked 60 (5 ∷ []) []) ≡ Refused Nouv }
    ensures one_word_too { jump 0x23 (linked 60 (5 ∷ []) []) ≡ Refused Nouv }
{}

/// Jumps by the sign of the top, which is erased: of 0, of 1, and of -1.
pub fn signs()
    ensures zero { (jump 0x24 (linked 60 (0 ∷ []) []) ≡ taken (linked 60 [] []))
        × (jump 0x24 (linked 60 (1 ∷ []) []) ≡ passed (linked 60 [] []))
        × (jump 0x24 (linked 60 ((2 ^ 48 - 1) ∷ []) []) ≡ passed (linked 60 [] [])) }
    ensures not_zero { (jump 0x25 (linked 60 (0 ∷ []) []) ≡ passed (linked 60 [] []))
        × (jump 0x25 (linked 60 (1 ∷ []) []) ≡ taken (linked 60 [] []))
        × (jump 0x25 (linked 60 ((2 ^ 48 - 1) ∷ []) []) ≡ taken (linked 60 [] [])) }
    ensures positive { (jump 0x26 (linked 60 (0 ∷ []) []) ≡ passed (linked 60 [] []))
        × (jump 0x26 (linked 60 (1 ∷ []) []) ≡ taken (linked 60 [] []))
        × (jump 0x26 (linked 60 ((2 ^ 48 - 1) ∷ []) []) ≡ passed (linked 60 [] [])) }
    ensures negative { (jump 0x27 (linked 60 (0 ∷ []) []) ≡ passed (linked 60 [] []))
        × (jump 0x27 (linked 60 (1 ∷ []) []) ≡ passed (linked 60 [] []))
        × (jump 0x27 (linked 60 (2 ^ 47 ∷ []) []) ≡ taken (linked 60 [] [])) }
    ensures not_negative { (jump 0x28 (linked 60 (0 ∷ []) []) ≡ taken (linked 60 [] []))
        × (jump 0x28 (linked 60 ((2 ^ 47 - 1) ∷ []) []) ≡ taken (linked 60 [] []))
        × (jump 0x28 (linked 60 (2 ^ 47 ∷ []) []) ≡ passed (linked 60 [] [])) }
    ensures not_positive { (jump 0x29 (linked 60 (0 ∷ []) []) ≡ taken (linked 60 [] []))
        × (jump 0x29 (linked 60 (1 ∷ []) []) ≡ passed (linked 60 [] []))
        × (jump 0x29 (linked 60 ((2 ^ 48 - 1) ∷ []) []) ≡ taken (linked 60 [] [])) }
    ensures no_word { (jump 0x24 (linked 60 [] []) ≡ Refused Nouv)
        × (jump 0x29 (linked 60 [] []) ≡ Refused Nouv) }
{}

/// A flag that a jump tests is cleared, whether or not the jump is taken.
pub fn flags()
    ensures v { jump 0x2A (with_v true (linked 60 [] [])) ≡ taken (linked 60 [] []) }
    ensures no_v { jump 0x2A (linked 60 [] []) ≡ passed (linked 60 [] []) }
    ensures not_v { jump 0x2B (with_v true (linked 60 [] [])) ≡ passed (linked 60 [] []) }
    ensures not_no_v { jump 0x2B (linked 60 [] []) ≡ taken (linked 60 [] []) }
    ensures tr { jump 0x2C (with_v true (with_tr true (linked 60 [] [])))
        ≡ taken (with_v true (linked 60 [] [])) }
    ensures no_tr { jump 0x2C (linked 60 [] []) ≡ passed (linked 60 [] []) }
    ensures not_tr { jump 0x2D (with_tr true (linked 60 [] [])) ≡ passed (linked 60 [] []) }
    ensures not_no_tr { jump 0x2D (with_v true (linked 60 [] []))
        ≡ taken (with_v true (linked 60 [] [])) }
{}

/// Jumps by the depths of the two nests.
pub fn depths()
    ensures empty { jump 0x2E (linked 60 [] (7 ∷ [])) ≡ taken (linked 60 [] (7 ∷ [])) }
    ensures words { jump 0x2E (linked 60 (0 ∷ []) []) ≡ passed (linked 60 (0 ∷ []) []) }
    ensures not_empty { jump 0x2F (linked 60 [] (7 ∷ [])) ≡ passed (linked 60 [] (7 ∷ [])) }
    ensures not_words { jump 0x2F (linked 60 (0 ∷ []) []) ≡ taken (linked 60 (0 ∷ []) []) }
    ensures no_links { jump 0x30 (linked 60 (0 ∷ []) []) ≡ taken (linked 60 (0 ∷ []) []) }
    ensures links { jump 0x30 (linked 60 [] (0 ∷ [])) ≡ passed (linked 60 [] (0 ∷ [])) }
    ensures not_no_links { jump 0x31 (linked 60 (0 ∷ []) []) ≡ passed (linked 60 (0 ∷ []) []) }
    ensures not_links { jump 0x31 (linked 60 [] (0 ∷ [])) ≡ taken (linked 60 [] (0 ∷ [])) }
{}

/// EXIT goes on half words after the link, around the end of the store. A link of syllable 6 or 7 is none.
pub fn exits()
    ensures back { change_of (linked 60 [] ((8192 * 3 + 2) ∷ 7 ∷ [])) (order.Exit 0)
        ≡ Going (linked 15 [] (7 ∷ [])) }
    ensures behind { change_of (linked 60 [] ((8192 * 3 + 2) ∷ [])) (order.Exit 1)
        ≡ Going (linked 18 [] []) }
    ensures around { change_of (linked 60 [] ((8192 * 5 + 8191) ∷ [])) (order.Exit 255)
        ≡ Going (linked 764 [] []) }
    ensures six { change_of (linked 60 [] ((8192 * 6) ∷ [])) (order.Exit 0) ≡ Refused Reset }
    ensures seven { change_of (linked 60 [] (65535 ∷ [])) (order.Exit 1) ≡ Refused Reset }
    ensures no_link { change_of (linked 60 (5 ∷ []) []) (order.Exit 0) ≡ Refused Nouv }
{}

/// The order at a place stands in one word or across two, of which the last is followed by the first. Where the
/// store ends before the order does, or no order is spelt there, there is none.
pub fn places()
    ensures one { order_at 2 (λ _. 0x09d0001f6010) 6 ≡ Some (order.Plain 0x09) }
    ensures two { order_at 2 (λ _. 0x09d0001f6010) 4 ≡ Some (order.Single 0x60 1) }
    ensures three { order_at 2 (λ _. 0x09d0001f6010) 1 ≡ Some (order.Direct true false 0 31) }
    ensures last { order_at 2 (λ _. 0x09d0001f6010) 11 ≡ Some (order.Plain 0x10) }
    ensures across { order_at 2 (λ _. 0x0109210101e0) 5 ≡ Some (order.Set 0x0109) }
    ensures around { order_at 8192 (λ _. 0x0109210101e0) 49151 ≡ Some (order.Set 0x0109) }
    ensures cut { order_at 2 (λ _. 0x0109210101e0) 11 ≡ None }
    ensures outside { order_at 2 (λ _. 0x0109210101e0) 12 ≡ None }
    ensures no_order { order_at 2 (λ _. 0x0009210101e0) 0 ≡ None }
{}

/// The fetch needs the group of each syllable that is in the store.
pub fn groups()
    ensures one { fetch_needs 64 (λ _. 0x09d0001f6010) 192 ≡ Group 1 ∷ [] }
    ensures two { fetch_needs 64 (λ _. 0x09d0001f6010) 190 ≡ Group 0 ∷ Group 0 ∷ [] }
    ensures across { fetch_needs 64 (λ _. 0x0109210101e0) 191 ≡ Group 0 ∷ Group 1 ∷ Group 1 ∷ [] }
    ensures cut { fetch_needs 32 (λ _. 0x0109210101e0) 191 ≡ Group 0 ∷ [] }
    ensures outside { fetch_needs 31 (λ _. 0x0109210101e0) 191 ≡ [] }
{}
