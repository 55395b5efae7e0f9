//! Examples computed from the definitions, each as the contract of a function that does nothing.
#![tactic(auto, unfolding(crate::specs::Media::after_read, crate::specs::Media::after_card, crate::specs::Media::printed, kdf_word::specs::Characters::first_word, kdf_word::specs::Characters::words_of))]

ghost use Rattle.std.specs.Prelude.{◌≡◌, [], ◌∷◌, ◌++◌, replicate, take, drop, true, false};
ghost use Rattle.kdf_word.specs.Characters.{codes_of, codes_of_all, words_of};
ghost use Rattle.kdf_media.specs.Examples.{deck, letters, message, reader};
ghost use Rattle.kdf_media.specs.Media.{after_card, after_read, card_of, card_words, printed, through_end, through_end_word};

/// PRQ over one word and two: a medium with more characters than the area takes, as many, fewer, and none. The flag tells that
/// the medium ended before the area was full, also where its last characters fill the last word in part.
pub fn read_on()
    ensures more { after_read false 1 (reader (letters 12) 0 false) ≡ reader (letters 12) 8 false }
    ensures as_many { after_read false 1 (reader (letters 8) 0 false) ≡ reader (letters 8) 8 false }
    ensures partial { after_read false 2 (reader (letters 12) 0 false)
        ≡ reader (letters 12) 12 true }
    ensures fewer { after_read false 2 (reader (letters 8) 0 false) ≡ reader (letters 8) 8 true }
    ensures empty { after_read false 2 (reader [] 0 false) ≡ reader [] 0 true }
    ensures second { after_read false 1 (after_read false 1 (reader (letters 20) 0 false))
        ≡ reader (letters 20) 16 false }
    ensures second_partial { after_read false 1 (reader (letters 20) 16 false)
        ≡ reader (letters 20) 20 true }
    ensures fills_two { after_read false 2 (reader (letters 16) 0 false)
        ≡ reader (letters 16) 16 false }
    ensures at_end { after_read false 1 (reader (letters 8) 8 false) ≡ reader (letters 8) 8 true }
    ensures flag_goes { after_read false 1 (reader (letters 8) 0 true)
        ≡ reader (letters 8) 8 false }
    ensures message { after_read false 1 (reader (message 3 8) 0 false)
        ≡ reader (message 3 8) 8 false }
    ensures message_partial { after_read false 2 (reader (message 3 0) 0 false)
        ≡ reader (message 3 0) 4 true }
{}

/// PREQ: no End Message, one as the first and as the last character of a word, one in the last word, one as the last character of the
/// medium, and one after the area.
pub fn read_to_end_message()
    ensures absent { after_read true 2 (reader (letters 12) 0 false) ≡ reader (letters 12) 12 true }
    ensures absent_full { after_read true 1 (reader (letters 12) 0 false)
        ≡ reader (letters 12) 8 false }
    ensures absent_as_many { after_read true 2 (reader (letters 16) 0 false)
        ≡ reader (letters 16) 16 false }
    ensures absent_fewer { after_read true 3 (reader (letters 16) 0 false)
        ≡ reader (letters 16) 16 true }
    ensures first { after_read true 2 (reader (message 0 12) 0 false)
        ≡ reader (message 0 12) 1 false }
    ensures last { after_read true 2 (reader (message 7 8) 0 false) ≡ reader (message 7 8) 8 false }
    ensures last_word { after_read true 2 (reader (message 10 8) 0 false)
        ≡ reader (message 10 8) 11 false }
    ensures last_of_area { after_read true 2 (reader (message 15 0) 0 false)
        ≡ reader (message 15 0) 16 false }
    ensures last_of_medium { after_read true 2 (reader (message 3 0) 0 false)
        ≡ reader (message 3 0) 4 false }
    ensures behind { after_read true 1 (reader (message 8 4) 0 false)
        ≡ reader (message 8 4) 8 false }
    ensures empty { after_read true 2 (reader [] 0 false) ≡ reader [] 0 true }
    ensures second { after_read true 2 (reader (message 2 4) 3 false)
        ≡ reader (message 2 4) 7 true }
    ensures second_message { after_read true 2 (reader (message 2 2 ++ message 1 4) 3 false)
        ≡ reader (message 2 2 ++ message 1 4) 7 false }
    ensures at_end { after_read true 2 (reader (message 2 0) 3 false)
        ≡ reader (message 2 0) 3 true }
    ensures flag_goes { after_read true 2 (reader (message 2 4) 0 true)
        ≡ reader (message 2 4) 3 false }
{}

/// The words of a reader: eight characters a word, the last word filled up with code 0, and none at the end.
pub fn words_of_paper_tape()
    ensures whole { words_of (letters 16) ≡ 0x861861861861 ∷ 0x861861861861 ∷ [] }
    ensures partial { words_of (letters 12) ≡ 0x861861861861 ∷ 0x861861000000 ∷ [] }
    ensures one { words_of (33 ∷ 34 ∷ []) ≡ 0x862000000000 ∷ [] }
    ensures empty { words_of [] ≡ [] }
    ensures second { words_of (drop 8 (letters 12)) ≡ 0x861861000000 ∷ [] }
    ensures stopped { words_of (through_end (message 1 20)) ≡ 0x87d000000000 ∷ [] }
    ensures first { words_of (through_end (message 0 20)) ≡ 0xf40000000000 ∷ [] }
    ensures last { words_of (through_end (message 7 20)) ≡ 0x86186186187d ∷ [] }
    ensures second_word { words_of (through_end (message 8 20))
        ≡ 0x861861861861 ∷ 0xf40000000000 ∷ [] }
    ensures absent { words_of (through_end (letters 8)) ≡ 0x861861861861 ∷ [] }
    ensures codes { codes_of 0x87d000000000 ≡ 33 ∷ 61 ∷ 0 ∷ 0 ∷ 0 ∷ 0 ∷ 0 ∷ 0 ∷ [] }
{}

/// A card, filled up with spaces. CRQ: the ten words of the next card, of which an area takes the first, and none without a card.
pub fn cards()
    ensures filled { card_of (33 ∷ []) ≡ 33 ∷ replicate 79 0 }
    ensures ten { card_words 0 (letters 80 ∷ []) ≡ replicate 10 0x861861861861 }
    ensures first_words { take 2 (card_words 0 ((letters 8 ++ replicate 72 34) ∷ []))
        ≡ 0x861861861861 ∷ 0x8a28a28a28a2 ∷ [] }
    ensures as_many { take 10 (card_words 0 (letters 80 ∷ [])) ≡ replicate 10 0x861861861861 }
    ensures next { card_words 1 (letters 80 ∷ replicate 80 0 ∷ []) ≡ replicate 10 0 }
    ensures fewer { take 3 (card_words 0 (letters 80 ∷ [])) ≡ replicate 3 0x861861861861 }
    ensures more { take 12 (card_words 0 (letters 80 ∷ [])) ≡ replicate 10 0x861861861861 }
    ensures without { card_words 1 (letters 80 ∷ []) ≡ [] }
    ensures empty { card_words 0 [] ≡ [] }
    ensures first { after_card (deck 2 0 false) ≡ deck 2 1 false }
    ensures second { after_card (deck 2 1 false) ≡ deck 2 2 false }
    ensures none { after_card (deck 2 2 false) ≡ deck 2 2 true }
    ensures again { after_card (deck 2 2 true) ≡ deck 2 2 true }
    ensures no_deck { after_card (deck 0 0 false) ≡ deck 0 0 true }
    ensures flag_goes { after_card (deck 2 0 true) ≡ deck 2 1 false }
{}

/// PWEQ and LPEQ write the words up to the first with an End Message, and of these the characters up to it.
pub fn written()
    ensures absent { through_end_word (1 ∷ 2 ∷ 3 ∷ []) ≡ 1 ∷ 2 ∷ 3 ∷ [] }
    ensures first { through_end_word (0xf40000000000 ∷ 2 ∷ 3 ∷ []) ≡ 0xf40000000000 ∷ [] }
    ensures last { through_end_word (1 ∷ 61 ∷ 3 ∷ []) ≡ 1 ∷ 61 ∷ [] }
    ensures last_word { through_end_word (1 ∷ 2 ∷ 0xf40000000000 ∷ [])
        ≡ 1 ∷ 2 ∷ 0xf40000000000 ∷ [] }
    ensures last_of_last_word { through_end_word (1 ∷ 2 ∷ 61 ∷ []) ≡ 1 ∷ 2 ∷ 61 ∷ [] }
    ensures first_of_two { through_end_word (1 ∷ 61 ∷ 0xf40000000000 ∷ []) ≡ 1 ∷ 61 ∷ [] }
    ensures no_word { through_end_word [] ≡ [] }
    ensures characters { through_end (codes_of_all (0 ∷ 0xf40000000000 ∷ []))
        ≡ replicate 8 0 ++ 61 ∷ [] }
    ensures all { through_end (codes_of_all (0x861861861861 ∷ [])) ≡ letters 8 }
    ensures to_last { through_end (codes_of_all (61 ∷ 0 ∷ [])) ≡ replicate 7 0 ++ 61 ∷ [] }
    ensures first_of_two_characters { through_end (message 1 2 ++ message 0 1) ≡ message 1 0 }
    ensures empty { through_end [] ≡ [] }
{}

/// A printer keeps 160 characters of each run. The block is ended at its End Message first, which the cut may then take away.
pub fn lines()
    ensures fits { printed (letters 160) ≡ letters 160 }
    ensures cut { printed (letters 161) ≡ letters 160 }
    ensures each_run { printed (letters 161 ++ 2 ∷ letters 161) ≡ letters 160 ++ 2 ∷ letters 160 }
    ensures ends { printed (2 ∷ 2 ∷ letters 3 ++ 2 ∷ []) ≡ 2 ∷ 2 ∷ letters 3 ++ 2 ∷ [] }
    ensures second_run { printed (letters 7 ++ 2 ∷ letters 170) ≡ letters 7 ++ 2 ∷ letters 160 }
    ensures page { printed (letters 100 ++ 3 ∷ letters 100) ≡ letters 100 ++ 3 ∷ letters 59 }
    ensures empty { printed [] ≡ [] }
    ensures message { printed (through_end (message 5 9)) ≡ letters 5 ++ 61 ∷ [] }
    ensures message_cut { printed (through_end (message 160 3 ++ 2 ∷ letters 3)) ≡ letters 160 }
    ensures message_before_cut { printed (through_end (message 160 0 ++ 2 ∷ message 0 3))
        ≡ letters 160 }
    ensures message_in_next_run { printed (through_end (letters 161 ++ 2 ∷ message 2 3))
        ≡ letters 160 ++ 2 ∷ message 2 0 }
{}
