//! Examples of OUT. Devices 4 and 6 are tapes with the label A, and 5 is one with AB; 1 and 8 are punches, 0 and 7
//! readers, 3 and 10 printers, and 2 and 9 cards. So many of them are claimed, from device 0 on.
#![tactic(auto, unfolding(crate::specs::Table::out_effect, crate::specs::Table::guarded, crate::specs::Claims::free_for, crate::specs::Claims::least_pooled))]

ghost use Rattle.std.specs.Prelude.{◌≡◌, ◌+◌, ◌-◌, ◌^◌, [], ◌∷◌, false};
ghost use Rattle.kdf_journal.specs.declared.failure.Failure.TheVariants.{Liv, Nouv, Out, Claim};
ghost use Rattle.kdf_processor.specs.Effect.{Nothing, Asks, Time, OfService, Acquires, Releases, Spools};
ghost use Rattle.kdf_processor.specs.Examples.{calls, calls_served, replaces, rejects, ends_behind, label_a, label_ab, label_b};

/// OUT 0 ends the program, and takes its number.
pub fn end()
    ensures last { calls 0 (0 ∷ []) ≡ ends_behind [] }
    ensures words_below { calls 0 (0 ∷ 5 ∷ 6 ∷ []) ≡ ends_behind (5 ∷ 6 ∷ []) }
{}

/// OUT 3 puts the number of orders obeyed before it in place of its number.
pub fn count()
    ensures one_word { calls 0 (3 ∷ []) ≡ replaces (41 ∷ []) Nothing }
    ensures words_below { calls 0 (3 ∷ 5 ∷ 6 ∷ []) ≡ replaces (41 ∷ 5 ∷ 6 ∷ []) Nothing }
{}

/// OUT 4 claims the least tape with the label that isn't claimed, and puts its number in place of two words.
pub fn claim_by_label()
    ensures least_of_two { calls 0 (4 ∷ label_a ∷ 9 ∷ []) ≡ replaces (4 ∷ 9 ∷ []) (Acquires 4) }
    ensures the_other { calls 5 (4 ∷ label_a ∷ 9 ∷ []) ≡ replaces (6 ∷ 9 ∷ []) (Acquires 6) }
    ensures none_left { calls 7 (4 ∷ label_a ∷ 9 ∷ []) ≡ rejects (4 ∷ label_a ∷ 9 ∷ []) Claim }
    ensures longer_label { calls 0 (4 ∷ label_ab ∷ []) ≡ replaces (5 ∷ []) (Acquires 5) }
    ensures longer_label_claimed { calls 6 (4 ∷ label_ab ∷ []) ≡ rejects (4 ∷ label_ab ∷ []) Claim }
    ensures no_such_label { calls 0 (4 ∷ label_b ∷ []) ≡ rejects (4 ∷ label_b ∷ []) Claim }
    ensures no_label { calls 0 (4 ∷ 0 ∷ []) ≡ rejects (4 ∷ 0 ∷ []) Claim }
    ensures no_word { calls 0 (4 ∷ []) ≡ rejects (4 ∷ []) Nouv }
{}

/// OUT 5 claims the least device of the kind that isn't claimed, and puts its number in place of two words.
pub fn claim_by_kind()
    ensures punch { calls 0 (5 ∷ 1 ∷ 9 ∷ []) ≡ replaces (1 ∷ 9 ∷ []) (Acquires 1) }
    ensures reader { calls 0 (5 ∷ 2 ∷ []) ≡ replaces (0 ∷ []) (Acquires 0) }
    ensures printer { calls 0 (5 ∷ 3 ∷ []) ≡ replaces (3 ∷ []) (Acquires 3) }
    ensures cards { calls 0 (5 ∷ 4 ∷ []) ≡ replaces (2 ∷ []) (Acquires 2) }
    ensures next_punch { calls 2 (5 ∷ 1 ∷ []) ≡ replaces (8 ∷ []) (Acquires 8) }
    ensures next_reader { calls 1 (5 ∷ 2 ∷ []) ≡ replaces (7 ∷ []) (Acquires 7) }
    ensures next_printer { calls 4 (5 ∷ 3 ∷ []) ≡ replaces (10 ∷ []) (Acquires 10) }
    ensures next_cards { calls 3 (5 ∷ 4 ∷ []) ≡ replaces (9 ∷ []) (Acquires 9) }
{}

/// OUT 5 fails where none is free, and where there is no such kind.
pub fn no_device_of_kind()
    ensures no_punch { calls 9 (5 ∷ 1 ∷ []) ≡ rejects (5 ∷ 1 ∷ []) Claim }
    ensures no_reader { calls 8 (5 ∷ 2 ∷ []) ≡ rejects (5 ∷ 2 ∷ []) Claim }
    ensures no_printer { calls 11 (5 ∷ 3 ∷ []) ≡ rejects (5 ∷ 3 ∷ []) Claim }
    ensures no_cards { calls 10 (5 ∷ 4 ∷ []) ≡ rejects (5 ∷ 4 ∷ []) Claim }
    ensures kind_0 { calls 0 (5 ∷ 0 ∷ []) ≡ rejects (5 ∷ 0 ∷ []) Out }
    ensures kind_5 { calls 0 (5 ∷ 5 ∷ []) ≡ rejects (5 ∷ 5 ∷ []) Out }
    ensures kind_of_all_bits { calls 0 (5 ∷ (2 ^ 48 - 1) ∷ [])
        ≡ rejects (5 ∷ (2 ^ 48 - 1) ∷ []) Out }
    ensures no_word { calls 0 (5 ∷ []) ≡ rejects (5 ∷ []) Nouv }
{}

/// OUT 6 gives a device back that is claimed, and takes two words.
pub fn give_back()
    ensures claimed { calls 6 (6 ∷ 5 ∷ 9 ∷ []) ≡ replaces (9 ∷ []) (Releases false 5) }
    ensures device_0 { calls 1 (6 ∷ 0 ∷ []) ≡ replaces [] (Releases false 0) }
    ensures not_claimed { calls 5 (6 ∷ 5 ∷ []) ≡ rejects (6 ∷ 5 ∷ []) Claim }
    ensures absent { calls 16 (6 ∷ 11 ∷ []) ≡ rejects (6 ∷ 11 ∷ []) Claim }
    ensures no_number { calls 16 (6 ∷ 16 ∷ []) ≡ rejects (6 ∷ 16 ∷ []) Claim }
    ensures modulo_256 { calls 16 (6 ∷ 256 ∷ []) ≡ rejects (6 ∷ 256 ∷ []) Claim }
    ensures all_bits { calls 16 (6 ∷ (2 ^ 48 - 1) ∷ []) ≡ rejects (6 ∷ (2 ^ 48 - 1) ∷ []) Claim }
    ensures no_word { calls 6 (6 ∷ []) ≡ rejects (6 ∷ []) Nouv }
{}

/// OUT 8 spools an area to one of eight streams, and takes two words. The stream comes before the area.
pub fn spool()
    ensures first_stream { calls 0 (8 ∷ 0x000000280032 ∷ 9 ∷ [])
        ≡ replaces (9 ∷ []) (Spools 0 40 50) }
    ensures last_stream { calls 0 (8 ∷ 0x000700280028 ∷ []) ≡ replaces [] (Spools 7 40 40) }
    ensures no_stream { calls 0 (8 ∷ 0x000800320031 ∷ []) ≡ rejects (8 ∷ 0x000800320031 ∷ []) Out }
    ensures no_stream_of_all_bits { calls 0 (8 ∷ (2 ^ 48 - 1) ∷ [])
        ≡ rejects (8 ∷ (2 ^ 48 - 1) ∷ []) Out }
    ensures longest { calls 0 (8 ∷ 0x000700000fff ∷ []) ≡ replaces [] (Spools 7 0 4095) }
    ensures too_long { calls 0 (8 ∷ 0x000700001000 ∷ []) ≡ rejects (8 ∷ 0x000700001000 ∷ []) Liv }
    ensures to_the_last_word { calls 0 (8 ∷ 0x00031fff1fff ∷ [])
        ≡ replaces [] (Spools 3 8191 8191) }
    ensures one_past { calls 0 (8 ∷ 0x00031fff2000 ∷ []) ≡ rejects (8 ∷ 0x00031fff2000 ∷ []) Liv }
    ensures falling { calls 0 (8 ∷ 0x000000320031 ∷ []) ≡ rejects (8 ∷ 0x000000320031 ∷ []) Liv }
    ensures no_word { calls 0 (8 ∷ []) ≡ rejects (8 ∷ []) Nouv }
{}

/// OUT 9 pushes the time in place of its number, without what it has from 2^48 on. The time is 2^50 + 9.
pub fn time()
    ensures one_word { calls 0 (9 ∷ []) ≡ replaces (9 ∷ []) (Asks Time (2 ^ 50 + 9)) }
    ensures words_below { calls 0 (9 ∷ 5 ∷ []) ≡ replaces (9 ∷ 5 ∷ []) (Asks Time (2 ^ 50 + 9)) }
{}

/// OUT 64 of a program that is served pushes the service's answer to the word below its number in place of both, without what it has from
/// 2^48 on. The answer is 2^50 + 9.
pub fn ask_service()
    ensures two_words { calls_served (64 ∷ 7 ∷ []) ≡ replaces (9 ∷ []) (Asks (OfService 7) (2 ^ 50 + 9)) }
    ensures words_below { calls_served (64 ∷ 7 ∷ 5 ∷ []) ≡ replaces (9 ∷ 5 ∷ []) (Asks (OfService 7) (2 ^ 50 + 9)) }
    ensures no_word { calls_served (64 ∷ []) ≡ rejects (64 ∷ []) Nouv }
    ensures not_served { calls 0 (64 ∷ 7 ∷ []) ≡ rejects (64 ∷ 7 ∷ []) Out }
    ensures not_served_and_no_word { calls 0 (64 ∷ []) ≡ rejects (64 ∷ []) Out }
    ensures another_number { calls_served (65 ∷ 7 ∷ []) ≡ rejects (65 ∷ 7 ∷ []) Out }
{}

/// No other number is one of OUT, and it has a number.
pub fn no_call()
    ensures one { calls 16 (1 ∷ 5 ∷ []) ≡ rejects (1 ∷ 5 ∷ []) Out }
    ensures two { calls 16 (2 ∷ 5 ∷ []) ≡ rejects (2 ∷ 5 ∷ []) Out }
    ensures seven { calls 16 (7 ∷ 5 ∷ []) ≡ rejects (7 ∷ 5 ∷ []) Out }
    ensures ten { calls 16 (10 ∷ 5 ∷ []) ≡ rejects (10 ∷ 5 ∷ []) Out }
    ensures all_bits { calls 16 ((2 ^ 48 - 1) ∷ 5 ∷ []) ≡ rejects ((2 ^ 48 - 1) ∷ 5 ∷ []) Out }
    ensures no_number { calls 16 [] ≡ rejects [] Nouv }
{}
