//! Examples of each row, at the ends of its operands too, each computed from the table, as the contract
//! of a function that does nothing.
#![tactic(auto, unfolding(crate::specs::Arith::arith_result, crate::specs::Rows::arith_row, crate::specs::Shifts::shift_row, crate::specs::Digits::to_binary, crate::specs::Digits::from_binary))]

ghost use Rattle.std.specs.Prelude.{◌≡◌, ◌-◌, ◌^◌, [], ◌∷◌, None, pos, negsuc, replicate, true, false};
ghost use Rattle.kdf_arith.specs.declared.order.ArithOrder.TheVariants.{Plain};
ghost use Rattle.kdf_arith.specs.Arith.{arith_result};
ghost use Rattle.kdf_arith.specs.Examples.{least, greatest, minus, overflow, tested, obeyed, shifted, leaves, overflows, leaves_so};

/// ERASE, DUP, DUPD and ZERO.
pub fn copies()
    ensures erase { obeyed 0x02 (1 ∷ 2 ∷ []) ≡ leaves (2 ∷ []) }
    ensures erase_last { obeyed 0x02 (1 ∷ []) ≡ leaves [] }
    ensures erase_none { obeyed 0x02 [] ≡ None }
    ensures dup { obeyed 0x03 (1 ∷ 2 ∷ []) ≡ leaves (1 ∷ 1 ∷ 2 ∷ []) }
    ensures dup_of_fifteen { obeyed 0x03 (replicate 15 5) ≡ leaves (replicate 16 5) }
    ensures dup_none { obeyed 0x03 [] ≡ None }
    ensures dup_no_room { obeyed 0x03 (replicate 16 5) ≡ None }
    ensures dupd { obeyed 0x04 (1 ∷ 2 ∷ 3 ∷ []) ≡ leaves (1 ∷ 2 ∷ 1 ∷ 2 ∷ 3 ∷ []) }
    ensures dupd_of_fourteen { obeyed 0x04 (replicate 14 5) ≡ leaves (replicate 16 5) }
    ensures dupd_one { obeyed 0x04 (1 ∷ []) ≡ None }
    ensures dupd_no_room { obeyed 0x04 (replicate 15 5) ≡ None }
    ensures zero { obeyed 0x09 (1 ∷ []) ≡ leaves (0 ∷ 1 ∷ []) }
    ensures zero_first { obeyed 0x09 [] ≡ leaves (0 ∷ []) }
    ensures zero_no_room { obeyed 0x09 (replicate 16 5) ≡ None }
{}

/// REV, REVD, CAB and PERM.
pub fn exchanges()
    ensures rev { obeyed 0x05 (1 ∷ 2 ∷ 3 ∷ []) ≡ leaves (2 ∷ 1 ∷ 3 ∷ []) }
    ensures rev_two { obeyed 0x05 (minus 1 ∷ 0 ∷ []) ≡ leaves (0 ∷ minus 1 ∷ []) }
    ensures rev_one { obeyed 0x05 (1 ∷ []) ≡ None }
    ensures revd { obeyed 0x06 (1 ∷ 2 ∷ 3 ∷ 4 ∷ 5 ∷ []) ≡ leaves (3 ∷ 4 ∷ 1 ∷ 2 ∷ 5 ∷ []) }
    ensures revd_three { obeyed 0x06 (1 ∷ 2 ∷ 3 ∷ []) ≡ None }
    ensures cab { obeyed 0x07 (1 ∷ 2 ∷ 3 ∷ 4 ∷ []) ≡ leaves (3 ∷ 1 ∷ 2 ∷ 4 ∷ []) }
    ensures cab_two { obeyed 0x07 (2 ∷ 1 ∷ []) ≡ None }
    ensures perm { obeyed 0x08 (1 ∷ 2 ∷ 3 ∷ 4 ∷ []) ≡ leaves (2 ∷ 3 ∷ 1 ∷ 4 ∷ []) }
    ensures perm_two { obeyed 0x08 (2 ∷ 1 ∷ []) ≡ None }
{}

/// AND, OR, NOT and NEV.
pub fn bits()
    ensures and { obeyed 0x0A (10 ∷ 12 ∷ 3 ∷ []) ≡ leaves (8 ∷ 3 ∷ []) }
    ensures and_all { obeyed 0x0A (minus 1 ∷ 12 ∷ []) ≡ leaves (12 ∷ []) }
    ensures and_one { obeyed 0x0A (10 ∷ []) ≡ None }
    ensures or { obeyed 0x0B (10 ∷ 12 ∷ 3 ∷ []) ≡ leaves (14 ∷ 3 ∷ []) }
    ensures or_all { obeyed 0x0B (least ∷ greatest ∷ []) ≡ leaves (minus 1 ∷ []) }
    ensures or_one { obeyed 0x0B (10 ∷ []) ≡ None }
    ensures not { obeyed 0x0C (5 ∷ 2 ∷ []) ≡ leaves (minus 6 ∷ 2 ∷ []) }
    ensures not_all { obeyed 0x0C (minus 1 ∷ []) ≡ leaves (0 ∷ []) }
    ensures not_nought { obeyed 0x0C (0 ∷ []) ≡ leaves (minus 1 ∷ []) }
    ensures not_none { obeyed 0x0C [] ≡ None }
    ensures nev { obeyed 0x0D (10 ∷ 12 ∷ 3 ∷ []) ≡ leaves (6 ∷ 3 ∷ []) }
    ensures nev_all { obeyed 0x0D (minus 1 ∷ minus 1 ∷ []) ≡ leaves (0 ∷ []) }
    ensures nev_one { obeyed 0x0D (10 ∷ []) ≡ None }
{}

/// BITS.
pub fn ones()
    ensures five { obeyed 0x0E (5 ∷ []) ≡ leaves (2 ∷ []) }
    ensures nought { obeyed 0x0E (0 ∷ []) ≡ leaves (0 ∷ []) }
    ensures first { obeyed 0x0E (least ∷ []) ≡ leaves (1 ∷ []) }
    ensures all { obeyed 0x0E (minus 1 ∷ []) ≡ leaves (48 ∷ []) }
    ensures none { obeyed 0x0E [] ≡ None }
{}

/// NEG and ABS. The least value has no opposite.
pub fn signs()
    ensures neg { obeyed 0x0F (5 ∷ 2 ∷ []) ≡ leaves (minus 5 ∷ 2 ∷ []) }
    ensures neg_negative { obeyed 0x0F (minus 5 ∷ []) ≡ leaves (5 ∷ []) }
    ensures neg_nought { obeyed 0x0F (0 ∷ []) ≡ leaves (0 ∷ []) }
    ensures neg_least { obeyed 0x0F (least ∷ []) ≡ overflows (least ∷ []) }
    ensures neg_none { obeyed 0x0F [] ≡ None }
    ensures abs { obeyed 0x10 (5 ∷ 2 ∷ []) ≡ leaves (5 ∷ 2 ∷ []) }
    ensures abs_negative { obeyed 0x10 (minus 1 ∷ []) ≡ leaves (1 ∷ []) }
    ensures abs_least { obeyed 0x10 (least ∷ []) ≡ overflows (least ∷ []) }
    ensures abs_none { obeyed 0x10 [] ≡ None }
{}

/// + and - set V by the signs, and by no carry.
pub fn sums()
    ensures plus { obeyed 0x11 (minus 7 ∷ 5 ∷ 3 ∷ []) ≡ leaves (minus 2 ∷ 3 ∷ []) }
    ensures carry { obeyed 0x11 (minus 1 ∷ 1 ∷ []) ≡ leaves (0 ∷ []) }
    ensures below_least { obeyed 0x11 (minus 1 ∷ least ∷ []) ≡ overflows (greatest ∷ []) }
    ensures plus_one_word { obeyed 0x11 (1 ∷ []) ≡ None }
    ensures difference { obeyed 0x12 (5 ∷ 3 ∷ 4 ∷ []) ≡ leaves (minus 2 ∷ 4 ∷ []) }
    ensures above_greatest { obeyed 0x12 (minus 1 ∷ greatest ∷ []) ≡ overflows (least ∷ []) }
    ensures minus_one_word { obeyed 0x12 (1 ∷ []) ≡ None }
{}

/// XD. The least value by itself doesn't fit.
pub fn products()
    ensures small { obeyed 0x14 (5 ∷ 3 ∷ 4 ∷ []) ≡ leaves (0 ∷ 15 ∷ 4 ∷ []) }
    ensures negative { obeyed 0x14 (minus 5 ∷ 3 ∷ []) ≡ leaves (minus 1 ∷ 0o3777777777777761 ∷ []) }
    ensures least_by_least { obeyed 0x14 (least ∷ least ∷ []) ≡ overflows (least ∷ 0 ∷ []) }
    ensures one_word { obeyed 0x14 (5 ∷ []) ≡ None }
{}

/// CONT, to which D0 of the lower word doesn't count, and STR.
pub fn lengths()
    ensures cont { obeyed 0x15 (0 ∷ 5 ∷ 3 ∷ []) ≡ leaves (5 ∷ 3 ∷ []) }
    ensures cont_first { obeyed 0x15 (0 ∷ minus 1 ∷ []) ≡ leaves (greatest ∷ []) }
    ensures cont_negative { obeyed 0x15 (minus 1 ∷ minus 15 ∷ []) ≡ leaves (minus 15 ∷ []) }
    ensures cont_beyond { obeyed 0x15 (1 ∷ 0 ∷ []) ≡ overflows (least ∷ []) }
    ensures cont_one { obeyed 0x15 (5 ∷ []) ≡ None }
    ensures stretch { obeyed 0x16 (3 ∷ 2 ∷ []) ≡ leaves (0 ∷ 3 ∷ 2 ∷ []) }
    ensures stretch_least { obeyed 0x16 (least ∷ []) ≡ leaves (minus 1 ∷ 0 ∷ []) }
    ensures stretch_none { obeyed 0x16 [] ≡ None }
    ensures stretch_no_room { obeyed 0x16 (replicate 16 0) ≡ None }
{}

/// +D, -D and NEGD carry from the lower word to the upper.
pub fn double_sums()
    ensures plus { obeyed 0x17 (0 ∷ 1 ∷ 0 ∷ greatest ∷ 5 ∷ []) ≡ leaves (1 ∷ 0 ∷ 5 ∷ []) }
    ensures above_greatest { obeyed 0x17 (0 ∷ 1 ∷ greatest ∷ greatest ∷ [])
        ≡ overflows (least ∷ 0 ∷ []) }
    ensures plus_three_words { obeyed 0x17 (3 ∷ 2 ∷ 1 ∷ []) ≡ None }
    ensures difference { obeyed 0x18 (0 ∷ 2 ∷ 0 ∷ 1 ∷ []) ≡ leaves (minus 1 ∷ greatest ∷ []) }
    ensures below_least { obeyed 0x18 (0 ∷ 1 ∷ least ∷ 0 ∷ [])
        ≡ overflows (greatest ∷ greatest ∷ []) }
    ensures minus_three_words { obeyed 0x18 (3 ∷ 2 ∷ 1 ∷ []) ≡ None }
    ensures negative { obeyed 0x19 (0 ∷ 1 ∷ 3 ∷ []) ≡ leaves (minus 1 ∷ greatest ∷ 3 ∷ []) }
    ensures of_least { obeyed 0x19 (least ∷ 0 ∷ []) ≡ overflows (least ∷ 0 ∷ []) }
    ensures one_word { obeyed 0x19 (5 ∷ []) ≡ None }
{}

/// DIVI rounds down. A divisor 0 sets V and leaves both words.
pub fn divisions()
    ensures positive { obeyed 0x1A (2 ∷ 7 ∷ 3 ∷ []) ≡ leaves (1 ∷ 3 ∷ 3 ∷ []) }
    ensures by_positive { obeyed 0x1A (2 ∷ minus 7 ∷ []) ≡ leaves (1 ∷ minus 4 ∷ []) }
    ensures by_negative { obeyed 0x1A (minus 2 ∷ 7 ∷ []) ≡ leaves (minus 1 ∷ minus 4 ∷ []) }
    ensures two_negatives { obeyed 0x1A (minus 2 ∷ minus 7 ∷ []) ≡ leaves (minus 1 ∷ 3 ∷ []) }
    ensures least_by_minus_one { obeyed 0x1A (minus 1 ∷ least ∷ []) ≡ overflows (0 ∷ least ∷ []) }
    ensures by_nought { obeyed 0x1A (0 ∷ 7 ∷ []) ≡ overflows (0 ∷ 7 ∷ []) }
    ensures one_word { obeyed 0x1A (2 ∷ []) ≡ None }
{}

/// TOB is exact. FRB takes its number without a sign, and passes over a radix 0.
pub fn characters()
    ensures tob { obeyed 0x1B (0o1212121212121212 ∷ 0o0102030405060710 ∷ 3 ∷ [])
        ≡ leaves (12345678 ∷ 3 ∷ []) }
    ensures tob_beyond { obeyed 0x1B (minus 1 ∷ minus 1 ∷ []) ≡ overflows (252158292852480 ∷ []) }
    ensures tob_one { obeyed 0x1B (1 ∷ []) ≡ None }
    ensures frb { obeyed 0x1C (0o1212121212121212 ∷ 12345678 ∷ 3 ∷ [])
        ≡ leaves (0o0102030405060710 ∷ 3 ∷ []) }
    ensures frb_noughts { obeyed 0x1C (0o0012000012000012 ∷ 345 ∷ [])
        ≡ leaves (0o0003000004000005 ∷ []) }
    ensures frb_digit { obeyed 0x1C (10 ∷ 7 ∷ []) ≡ leaves (7 ∷ []) }
    ensures frb_rest { obeyed 0x1C (10 ∷ 100 ∷ []) ≡ overflows (0 ∷ []) }
    ensures frb_unsigned { obeyed 0x1C (2 ∷ minus 1 ∷ []) ≡ overflows (1 ∷ []) }
    ensures frb_one { obeyed 0x1C (1 ∷ []) ≡ None }
{}

/// =TR and VR leave the other flag. No order of arithmetic clears V but VR.
pub fn flags()
    ensures negative { obeyed 0x1F (least ∷ 2 ∷ []) ≡ leaves_so (tested false) (2 ∷ []) }
    ensures positive { arith_result (Plain 0x1F) (greatest ∷ []) (tested true) ≡ overflows [] }
    ensures no_word { obeyed 0x1F [] ≡ None }
    ensures reset { arith_result (Plain 0x20) (5 ∷ []) overflow ≡ leaves (5 ∷ []) }
    ensures reset_clear { arith_result (Plain 0x20) [] (tested true) ≡ leaves_so (tested false) [] }
    ensures stays { arith_result (Plain 0x11) (1 ∷ 2 ∷ []) overflow ≡ overflows (3 ∷ []) }
{}

/// SHA to the right rounds to the nearest.
pub fn rounded_shifts()
    ensures left { shifted 0x6A (pos 2) (minus 3 ∷ 2 ∷ []) ≡ leaves (minus 12 ∷ 2 ∷ []) }
    ensures nought { shifted 0x6A (pos 0) (3 ∷ []) ≡ leaves (3 ∷ []) }
    ensures right { shifted 0x6A (negsuc 1) (5 ∷ []) ≡ leaves (1 ∷ []) }
    ensures up { shifted 0x6A (negsuc 0) (3 ∷ []) ≡ leaves (2 ∷ []) }
    ensures least_by_1 { shifted 0x6A (negsuc 0) (least ∷ []) ≡ leaves (0o6000000000000000 ∷ []) }
    ensures least_by_47 { shifted 0x6A (negsuc 46) (least ∷ []) ≡ leaves (minus 1 ∷ []) }
    ensures least_by_48 { shifted 0x6A (negsuc 47) (least ∷ []) ≡ leaves (0 ∷ []) }
    ensures far_right { shifted 0x6A (negsuc 63) (minus 1 ∷ []) ≡ leaves (0 ∷ []) }
    ensures beyond { shifted 0x6A (pos 1) (2 ^ 46 ∷ []) ≡ overflows (least ∷ []) }
    ensures far_left { shifted 0x6A (pos 63) (1 ∷ []) ≡ overflows (0 ∷ []) }
    ensures nought_far_left { shifted 0x6A (pos 63) (0 ∷ []) ≡ leaves (0 ∷ []) }
    ensures none { shifted 0x6A (pos 1) [] ≡ None }
{}

/// SHL loses the bits that leave the word, SHC loses none.
pub fn turns()
    ensures left { shifted 0x6B (pos 1) (minus 1 ∷ 2 ∷ []) ≡ leaves (minus 2 ∷ 2 ∷ []) }
    ensures left_by_47 { shifted 0x6B (pos 47) (3 ∷ []) ≡ leaves (least ∷ []) }
    ensures left_by_48 { shifted 0x6B (pos 48) (minus 1 ∷ []) ≡ leaves (0 ∷ []) }
    ensures right { shifted 0x6B (negsuc 0) (minus 1 ∷ []) ≡ leaves (greatest ∷ []) }
    ensures no_word { shifted 0x6B (pos 1) [] ≡ None }
    ensures whole { shifted 0x6C (pos 48) (5 ∷ 2 ∷ []) ≡ leaves (5 ∷ 2 ∷ []) }
    ensures first { shifted 0x6C (pos 1) (least ∷ []) ≡ leaves (1 ∷ []) }
    ensures last { shifted 0x6C (negsuc 0) (1 ∷ []) ≡ leaves (least ∷ []) }
    ensures far { shifted 0x6C (pos 63) (1 ∷ []) ≡ leaves (0o100000 ∷ []) }
    ensures none { shifted 0x6C (pos 1) [] ≡ None }
{}

/// SHAD rounds down, and clears D0 of the lower word.
pub fn double_shifts()
    ensures clears { shifted 0x6D (pos 0) (0 ∷ minus 1 ∷ 3 ∷ []) ≡ leaves (0 ∷ greatest ∷ 3 ∷ []) }
    ensures right { shifted 0x6D (negsuc 0) (1 ∷ 0 ∷ []) ≡ leaves (0 ∷ 2 ^ 46 ∷ []) }
    ensures down { shifted 0x6D (negsuc 0) (minus 1 ∷ greatest ∷ [])
        ≡ leaves (minus 1 ∷ greatest ∷ []) }
    ensures beyond { shifted 0x6D (pos 1) (2 ^ 46 ∷ 0 ∷ []) ≡ overflows (least ∷ 0 ∷ []) }
    ensures one_word { shifted 0x6D (pos 1) (5 ∷ []) ≡ None }
{}

/// SHLD moves bits from one word to the other, D0 of the lower word too.
pub fn long_shifts()
    ensures left { shifted 0x6E (pos 1) (0 ∷ least ∷ 3 ∷ []) ≡ leaves (1 ∷ 0 ∷ 3 ∷ []) }
    ensures left_by_48 { shifted 0x6E (pos 48) (5 ∷ 0o123 ∷ []) ≡ leaves (0o123 ∷ 0 ∷ []) }
    ensures right { shifted 0x6E (negsuc 0) (1 ∷ 0 ∷ []) ≡ leaves (0 ∷ least ∷ []) }
    ensures right_by_48 { shifted 0x6E (negsuc 47) (5 ∷ 0o123 ∷ []) ≡ leaves (0 ∷ 5 ∷ []) }
    ensures all { shifted 0x6E (pos 63) (minus 1 ∷ minus 1 ∷ [])
        ≡ leaves (0o7777777777700000 ∷ 0 ∷ []) }
    ensures one_word { shifted 0x6E (pos 1) (5 ∷ []) ≡ None }
{}

/// A counter may shift by -32768 to 32767 places.
pub fn far_shifts()
    ensures sha_left { shifted 0x6A (pos 32767) (1 ∷ []) ≡ overflows (0 ∷ []) }
    ensures sha_nought { shifted 0x6A (pos 32767) (0 ∷ []) ≡ leaves (0 ∷ []) }
    ensures sha_right { shifted 0x6A (negsuc 32767) (minus 1 ∷ []) ≡ leaves (0 ∷ []) }
    ensures shl_left { shifted 0x6B (pos 32767) (minus 1 ∷ []) ≡ leaves (0 ∷ []) }
    ensures shl_right { shifted 0x6B (negsuc 32767) (minus 1 ∷ []) ≡ leaves (0 ∷ []) }
    ensures shc_left { shifted 0x6C (pos 32767) (1 ∷ []) ≡ leaves (2 ^ 31 ∷ []) }
    ensures shc_right { shifted 0x6C (negsuc 32767) (1 ∷ []) ≡ leaves (2 ^ 16 ∷ []) }
    ensures shad_left { shifted 0x6D (pos 32767) (0 ∷ 1 ∷ []) ≡ overflows (0 ∷ 0 ∷ []) }
    ensures shad_right { shifted 0x6D (negsuc 32767) (minus 1 ∷ 0 ∷ [])
        ≡ leaves (minus 1 ∷ greatest ∷ []) }
    ensures shld_left { shifted 0x6E (pos 32767) (minus 1 ∷ minus 1 ∷ []) ≡ leaves (0 ∷ 0 ∷ []) }
    ensures shld_right { shifted 0x6E (negsuc 32767) (minus 1 ∷ minus 1 ∷ [])
        ≡ leaves (0 ∷ 0 ∷ []) }
{}
