//! Examples computed from the definitions, each as the contract of a function that does nothing. For each order and each rule of it: the
//! words that it moves in their sequence, each with its place, and the device after it; and what it leaves of a list in which its area lies.
#![tactic(auto, unfolding(crate::specs::AtOnce::given, crate::specs::AtOnce::offered, crate::specs::AtOnce::finished, kdf_media::specs::Media::after_read, kdf_media::specs::Media::after_card, kdf_media::specs::Media::printed, kdf_tape::specs::Tape::after_skip, kdf_tape::specs::Tape::after_write, kdf_tape::specs::Tape::rewound, kdf_word::specs::Characters::first_word, kdf_word::specs::Characters::words_of))]

ghost use Rattle.std.specs.Prelude.{◌≡◌, [], ◌∷◌, ◌++◌, true, false, map, replicate};
ghost use Rattle.kdf_journal.specs.declared.kind.Kind.TheVariants.{Cr, Lp, Mt, Tp, Tr};
ghost use Rattle.kdf_media.specs.Examples.{letters, message};
ghost use Rattle.kdf_tape.specs.Examples.{block, blocks};
ghost use Rattle.kdf_transfer.specs.declared.order.TransferOrder.TheVariants.{Prq, Preq, Pwq, Pweq, Crq, Lpq, Lpeq};
ghost use Rattle.kdf_transfer.specs.declared.order.TransferOrder.TheVariants.{Mfrq, Mbrq, Mwq, Mlwq, Mrwdq, Mfskq, Mbskq};
ghost use Rattle.kdf_transfer.specs.AtOnce.{kind_of, order_words, stored};
ghost use Rattle.kdf_transfer.specs.Devices.{cards, fixture_of, printer, progress_of, punch, reader, tape};
ghost use Rattle.kdf_transfer.specs.Examples.{ab, all_a, all_b, card_a, card_ab, deck, having, paper, placed, reel, winding, writer};
ghost use Rattle.kdf_transfer.specs.Examples.{leaves, reads, winds, writes};

/// The kind of device of each order.
pub fn kinds()
    ensures paper_tape { map kind_of (Prq ∷ Preq ∷ Pwq ∷ Pweq ∷ []) ≡ Tr ∷ Tr ∷ Tp ∷ Tp ∷ [] }
    ensures cards_and_lines { map kind_of (Crq ∷ Lpq ∷ Lpeq ∷ []) ≡ Cr ∷ Lp ∷ Lp ∷ [] }
    ensures blocks { map kind_of (Mfrq ∷ Mbrq ∷ Mwq ∷ Mlwq ∷ []) ≡ Mt ∷ Mt ∷ Mt ∷ Mt ∷ [] }
    ensures winds { map kind_of (Mrwdq ∷ Mfskq 1 ∷ Mbskq 1 ∷ []) ≡ Mt ∷ Mt ∷ Mt ∷ [] }
{}

/// What a device of each kind is, and how far it has come.
pub fn devices()
    ensures reader { fixture_of (reader (record { codes = ab; place = 8; flag = true }))
        ≡ paper ab }
    ensures reader_at { progress_of (reader (record { codes = ab; place = 8; flag = true }))
        ≡ placed 8 true }
    ensures punch { fixture_of (punch (record { blocks = ab ∷ []; room = 3 })) ≡ writer Tp }
    ensures punch_at { progress_of (punch (record { blocks = ab ∷ []; room = 3 }))
        ≡ having (ab ∷ []) }
    ensures cards { fixture_of (cards (record { cards = card_a ∷ []; place = 1; flag = true }))
        ≡ deck (card_a ∷ []) }
    ensures cards_at { progress_of (cards (record { cards = card_a ∷ []; place = 1; flag = true }))
        ≡ placed 1 true }
    ensures printer { fixture_of (printer (record { blocks = ab ∷ []; room = 3 })) ≡ writer Lp }
    ensures printer_at { progress_of (printer (record { blocks = ab ∷ []; room = 3 }))
        ≡ having (ab ∷ []) }
    ensures tape { fixture_of (tape (record {
      label = 7;
      blocks = blocks;
      place = 2;
      flag = false;
      mark = true;
      room = 3;
    })) ≡ reel }
    ensures tape_at { progress_of (tape (record {
      label = 7;
      blocks = blocks;
      place = 2;
      flag = false;
      mark = true;
      room = 3;
    }))
        ≡ winding blocks 2 false true }
{}

/// PRQ: an area of fewer words than the paper tape has, of as many, and of more; a last word that is filled up; the flag.
pub fn prq()
    ensures less { reads Prq 1 (paper ab) (placed 0 false)
        ≡ leaves ((4, all_a) ∷ []) (placed 8 false) }
    ensures equal { reads Prq 2 (paper ab) (placed 0 false)
        ≡ leaves ((4, all_a) ∷ (5, all_b) ∷ []) (placed 16 false) }
    ensures more { reads Prq 3 (paper ab) (placed 0 false)
        ≡ leaves ((4, all_a) ∷ (5, all_b) ∷ []) (placed 16 true) }
    ensures less_by_half { reads Prq 1 (paper (letters 20)) (placed 8 false)
        ≡ leaves ((4, all_a) ∷ []) (placed 16 false) }
    ensures more_by_half { reads Prq 2 (paper (letters 12)) (placed 0 false)
        ≡ leaves ((4, all_a) ∷ (5, 0o4141414100000000) ∷ []) (placed 12 true) }
    ensures empty { reads Prq 2 (paper []) (placed 0 false) ≡ leaves [] (placed 0 true) }
    ensures second { reads Prq 1 (paper ab) (reads Prq 1 (paper ab) (placed 0 false)).device
        ≡ leaves ((4, all_b) ∷ []) (placed 16 false) }
    ensures second_at_end { reads Prq 1 (paper ab) (reads Prq 2 (paper ab) (placed 0 false)).device
        ≡ leaves [] (placed 16 true) }
    ensures flag_goes { reads Prq 2 (paper ab) (placed 0 true)
        ≡ leaves ((4, all_a) ∷ (5, all_b) ∷ []) (placed 16 false) }
    ensures message { reads Prq 1 (paper (message 1 8)) (placed 0 false)
        ≡ leaves ((4, 0o4175424242424242) ∷ []) (placed 8 false) }
    ensures more_with_message { reads Prq 2 (paper (message 3 0)) (placed 0 false)
        ≡ leaves ((4, 0o4141417500000000) ∷ []) (placed 4 true) }
    ensures stays { stored Prq 1 2 (1 ∷ 2 ∷ 3 ∷ 4 ∷ []) (paper (letters 8)) (placed 0 false)
        ≡ 1 ∷ all_a ∷ 3 ∷ 4 ∷ [] }
{}

/// PREQ without an End Message, as PRQ; it comes to the end of the paper tape with the flag.
pub fn preq_without_message()
    ensures less { reads Preq 1 (paper ab) (placed 0 false)
        ≡ leaves ((4, all_a) ∷ []) (placed 8 false) }
    ensures equal { reads Preq 2 (paper ab) (placed 0 false)
        ≡ leaves ((4, all_a) ∷ (5, all_b) ∷ []) (placed 16 false) }
    ensures more { reads Preq 3 (paper ab) (placed 0 false)
        ≡ leaves ((4, all_a) ∷ (5, all_b) ∷ []) (placed 16 true) }
    ensures more_by_half { reads Preq 2 (paper (letters 12)) (placed 0 false)
        ≡ leaves ((4, all_a) ∷ (5, 0o4141414100000000) ∷ []) (placed 12 true) }
    ensures empty { reads Preq 2 (paper []) (placed 0 false) ≡ leaves [] (placed 0 true) }
    ensures behind_area { reads Preq 1 (paper (message 8 4)) (placed 0 false)
        ≡ leaves ((4, all_a) ∷ []) (placed 8 false) }
    ensures flag_goes { reads Preq 1 (paper ab) (placed 0 true)
        ≡ leaves ((4, all_a) ∷ []) (placed 8 false) }
{}

/// PREQ with an End Message in the first, in a middle and in the last character of a word, in the last word of the area, and as the
/// last character of the paper tape.
pub fn preq()
    ensures first { reads Preq 2 (paper (message 0 20)) (placed 0 false)
        ≡ leaves ((4, 0o7500000000000000) ∷ []) (placed 1 false) }
    ensures midst { reads Preq 2 (paper (message 1 20)) (placed 0 false)
        ≡ leaves ((4, 0o4175000000000000) ∷ []) (placed 2 false) }
    ensures last { reads Preq 2 (paper (message 7 20)) (placed 0 false)
        ≡ leaves ((4, 0o4141414141414175) ∷ []) (placed 8 false) }
    ensures last_word { reads Preq 2 (paper (message 8 20)) (placed 0 false)
        ≡ leaves ((4, all_a) ∷ (5, 0o7500000000000000) ∷ []) (placed 9 false) }
    ensures last_of_last_word { reads Preq 2 (paper (message 15 20)) (placed 0 false)
        ≡ leaves ((4, all_a) ∷ (5, 0o4141414141414175) ∷ []) (placed 16 false) }
    ensures last_of_paper_tape { reads Preq 2 (paper (message 3 0)) (placed 0 false)
        ≡ leaves ((4, 0o4141417500000000) ∷ []) (placed 4 false) }
    ensures second { reads Preq 2 (paper (message 2 2 ++ message 1 4))
        (reads Preq 2 (paper (message 2 2 ++ message 1 4)) (placed 0 false)).device
        ≡ leaves ((4, 0o4242417500000000) ∷ []) (placed 7 false) }
    ensures second_without { reads Preq 2 (paper (message 2 4))
        (reads Preq 2 (paper (message 2 4)) (placed 0 false)).device
        ≡ leaves ((4, 0o4242424200000000) ∷ []) (placed 7 true) }
    ensures flag_goes { reads Preq 2 (paper (message 0 20)) (placed 0 true)
        ≡ leaves ((4, 0o7500000000000000) ∷ []) (placed 1 false) }
    ensures stays { stored Preq 1 2 (1 ∷ 2 ∷ 3 ∷ 4 ∷ []) (paper (message 3 8)) (placed 0 false)
        ≡ 1 ∷ 0o4141417500000000 ∷ 3 ∷ 4 ∷ [] }
{}

/// PWQ: all words of the area, whatever characters they have.
pub fn pwq()
    ensures all { writes Pwq (1 ∷ 61 ∷ []) (writer Tp) (having [])
        ≡ leaves ((4, 1) ∷ (5, 61) ∷ [])
        (having ((replicate 7 0 ++ 1 ∷ replicate 7 0 ++ 61 ∷ []) ∷ [])) }
    ensures message { writes Pwq (0o4175424242424242 ∷ all_a ∷ []) (writer Tp) (having [])
        ≡ leaves ((4, 0o4175424242424242) ∷ (5, all_a) ∷ [])
        (having ((message 1 6 ++ letters 8) ∷ [])) }
    ensures second { writes Pwq (all_b ∷ []) (writer Tp)
        (writes Pwq (all_a ∷ []) (writer Tp) (having [])).device
        ≡ leaves ((4, all_b) ∷ []) (having (letters 8 ∷ replicate 8 34 ∷ [])) }
    ensures area { order_words Pwq 1 2 (1 ∷ 2 ∷ 3 ∷ 4 ∷ []) ≡ 2 ∷ 3 ∷ [] }
    ensures stays { stored Pwq 1 2 (1 ∷ 2 ∷ 3 ∷ 4 ∷ []) (writer Tp) (having [])
        ≡ 1 ∷ 2 ∷ 3 ∷ 4 ∷ [] }
{}

/// PWEQ: the words up to the first that has an End Message, and of their characters those up to it, or all.
pub fn pweq()
    ensures absent { writes Pweq (all_a ∷ all_b ∷ []) (writer Tp) (having [])
        ≡ leaves ((4, all_a) ∷ (5, all_b) ∷ []) (having (ab ∷ [])) }
    ensures first { writes Pweq (0o7542424242424242 ∷ all_b ∷ []) (writer Tp) (having [])
        ≡ leaves ((4, 0o7542424242424242) ∷ []) (having ((61 ∷ []) ∷ [])) }
    ensures last { writes Pweq (0o4141414141414175 ∷ all_b ∷ []) (writer Tp) (having [])
        ≡ leaves ((4, 0o4141414141414175) ∷ []) (having (message 7 0 ∷ [])) }
    ensures last_word { writes Pweq (all_a ∷ 0o7500000000000003 ∷ []) (writer Tp) (having [])
        ≡ leaves ((4, all_a) ∷ (5, 0o7500000000000003) ∷ []) (having (message 8 0 ∷ [])) }
    ensures last_of_last_word { writes Pweq (all_a ∷ 0o4141414141414175 ∷ [])
        (writer Tp) (having [])
        ≡ leaves ((4, all_a) ∷ (5, 0o4141414141414175) ∷ []) (having (message 15 0 ∷ [])) }
    ensures first_of_two { writes Pweq (0o4175427500000000 ∷ 0o7500000000000000 ∷ [])
        (writer Tp) (having [])
        ≡ leaves ((4, 0o4175427500000000) ∷ []) (having (message 1 0 ∷ [])) }
    ensures second { writes Pweq (all_b ∷ []) (writer Tp)
        (writes Pweq (0o4175424242424242 ∷ []) (writer Tp) (having [])).device
        ≡ leaves ((4, all_b) ∷ []) (having (message 1 0 ∷ replicate 8 34 ∷ [])) }
    ensures area { order_words Pweq 1 2 (1 ∷ 2 ∷ 3 ∷ 4 ∷ []) ≡ 2 ∷ 3 ∷ [] }
    ensures stays { stored Pweq 1 2 (1 ∷ 61 ∷ 3 ∷ 4 ∷ []) (writer Tp) (having [])
        ≡ 1 ∷ 61 ∷ 3 ∷ 4 ∷ [] }
{}

/// CRQ: an area of fewer words than a card has, of as many, and of more; no card; the flag.
pub fn crq()
    ensures less { reads Crq 2 (deck (card_ab ∷ [])) (placed 0 false)
        ≡ leaves ((4, all_a) ∷ (5, all_b) ∷ []) (placed 1 false) }
    ensures equal { reads Crq 10 (deck (card_ab ∷ [])) (placed 0 false)
        ≡ leaves ((4, all_a) ∷ (5, all_b) ∷ (6, all_b) ∷ (7, all_b) ∷ (8, all_b) ∷ (9, all_b) ∷
        (10, all_b) ∷ (11, all_b) ∷ (12, all_b) ∷ (13, all_b) ∷ []) (placed 1 false) }
    ensures more { reads Crq 17 (deck (card_ab ∷ [])) (placed 0 false)
        ≡ leaves ((4, all_a) ∷ (5, all_b) ∷ (6, all_b) ∷ (7, all_b) ∷ (8, all_b) ∷ (9, all_b) ∷
        (10, all_b) ∷ (11, all_b) ∷ (12, all_b) ∷ (13, all_b) ∷ []) (placed 1 false) }
    ensures empty { reads Crq 17 (deck []) (placed 0 false) ≡ leaves [] (placed 0 true) }
    ensures second { reads Crq 2 (deck (card_a ∷ card_ab ∷ []))
        (reads Crq 2 (deck (card_a ∷ card_ab ∷ [])) (placed 0 false)).device
        ≡ leaves ((4, all_a) ∷ (5, all_b) ∷ []) (placed 2 false) }
    ensures second_without { reads Crq 17 (deck (card_ab ∷ []))
        (reads Crq 17 (deck (card_ab ∷ [])) (placed 0 false)).device
        ≡ leaves [] (placed 1 true) }
    ensures flag_goes { reads Crq 1 (deck (card_ab ∷ [])) (placed 0 true)
        ≡ leaves ((4, all_a) ∷ []) (placed 1 false) }
    ensures message { reads Crq 2 (deck ((61 ∷ letters 79) ∷ [])) (placed 0 false)
        ≡ leaves ((4, 0o7541414141414141) ∷ (5, all_a) ∷ []) (placed 1 false) }
    ensures stays { stored Crq 1 2 (1 ∷ 2 ∷ 3 ∷ 4 ∷ []) (deck (card_ab ∷ [])) (placed 0 false)
        ≡ 1 ∷ all_a ∷ all_b ∷ 4 ∷ [] }
    ensures stays_without { stored Crq 1 2 (1 ∷ 2 ∷ 3 ∷ 4 ∷ []) (deck []) (placed 0 false)
        ≡ 1 ∷ 2 ∷ 3 ∷ 4 ∷ [] }
{}

/// LPQ: all words of the area, and of each run of their characters the first 160. Runs are counted within one block.
pub fn lpq()
    ensures all { writes Lpq (1 ∷ 61 ∷ []) (writer Lp) (having [])
        ≡ leaves ((4, 1) ∷ (5, 61) ∷ [])
        (having ((replicate 7 0 ++ 1 ∷ replicate 7 0 ++ 61 ∷ []) ∷ [])) }
    ensures message { writes Lpq (0o4175424242424242 ∷ all_a ∷ []) (writer Lp) (having [])
        ≡ leaves ((4, 0o4175424242424242) ∷ (5, all_a) ∷ [])
        (having ((message 1 6 ++ letters 8) ∷ [])) }
    ensures second { writes Lpq (all_b ∷ []) (writer Lp)
        (writes Lpq (all_a ∷ []) (writer Lp) (having [])).device
        ≡ leaves ((4, all_b) ∷ []) (having (letters 8 ∷ replicate 8 34 ∷ [])) }
    ensures fits { (writes Lpq (replicate 20 all_a) (writer Lp) (having [])).device
        ≡ having (letters 160 ∷ []) }
    ensures cut { (writes Lpq (replicate 20 all_a ++ all_b ∷ []) (writer Lp) (having [])).device
        ≡ having (letters 160 ∷ []) }
    ensures each_run { (writes Lpq (replicate 21 all_a ++ 0o0241414141414141 ∷ [])
        (writer Lp) (having [])).device
        ≡ having ((letters 160 ++ 2 ∷ letters 7) ∷ []) }
    ensures second_run { (writes Lpq (0o4141414141414102 ∷ replicate 21 all_b)
        (writer Lp) (having [])).device
        ≡ having ((letters 7 ++ 2 ∷ replicate 160 34) ∷ []) }
    ensures lines { (writes Lpq (0o0202414141414102 ∷ []) (writer Lp) (having [])).device
        ≡ having ((2 ∷ 2 ∷ letters 5 ++ 2 ∷ []) ∷ []) }
    ensures page { (writes Lpq (replicate 20 all_a ++ 0o0341414141414141 ∷ [])
        (writer Lp) (having [])).device
        ≡ having (letters 160 ∷ []) }
    ensures block_by_block { (writes Lpq (all_b ∷ []) (writer Lp)
        (writes Lpq (replicate 20 all_a) (writer Lp) (having [])).device).device
        ≡ having (letters 160 ∷ replicate 8 34 ∷ []) }
    ensures area { order_words Lpq 1 2 (1 ∷ 2 ∷ 3 ∷ 4 ∷ []) ≡ 2 ∷ 3 ∷ [] }
    ensures stays { stored Lpq 1 2 (1 ∷ 2 ∷ 3 ∷ 4 ∷ []) (writer Lp) (having [])
        ≡ 1 ∷ 2 ∷ 3 ∷ 4 ∷ [] }
{}

/// LPEQ: as PWEQ, and then cut, which may take the End Message away.
pub fn lpeq()
    ensures absent { writes Lpeq (all_a ∷ all_b ∷ []) (writer Lp) (having [])
        ≡ leaves ((4, all_a) ∷ (5, all_b) ∷ []) (having (ab ∷ [])) }
    ensures first { writes Lpeq (0o7542424242424242 ∷ all_b ∷ []) (writer Lp) (having [])
        ≡ leaves ((4, 0o7542424242424242) ∷ []) (having ((61 ∷ []) ∷ [])) }
    ensures last { writes Lpeq (0o4141414141414175 ∷ all_b ∷ []) (writer Lp) (having [])
        ≡ leaves ((4, 0o4141414141414175) ∷ []) (having (message 7 0 ∷ [])) }
    ensures last_word { writes Lpeq (all_a ∷ 0o7500000000000003 ∷ []) (writer Lp) (having [])
        ≡ leaves ((4, all_a) ∷ (5, 0o7500000000000003) ∷ []) (having (message 8 0 ∷ [])) }
    ensures last_of_last_word { writes Lpeq (all_a ∷ 0o4141414141414175 ∷ [])
        (writer Lp) (having [])
        ≡ leaves ((4, all_a) ∷ (5, 0o4141414141414175) ∷ []) (having (message 15 0 ∷ [])) }
    ensures first_of_two { writes Lpeq (0o4175427500000000 ∷ 0o7500000000000000 ∷ [])
        (writer Lp) (having [])
        ≡ leaves ((4, 0o4175427500000000) ∷ []) (having (message 1 0 ∷ [])) }
    ensures second { writes Lpeq (all_b ∷ []) (writer Lp)
        (writes Lpeq (0o4175424242424242 ∷ []) (writer Lp) (having [])).device
        ≡ leaves ((4, all_b) ∷ []) (having (message 1 0 ∷ replicate 8 34 ∷ [])) }
    ensures cut { (writes Lpeq (replicate 21 all_a) (writer Lp) (having [])).device
        ≡ having (letters 160 ∷ []) }
    ensures cut_message { (writes Lpeq (replicate 20 all_a ++ 0o7500000000000000 ∷ [])
        (writer Lp) (having [])).device
        ≡ having (letters 160 ∷ []) }
    ensures message_before_cut { (writes Lpeq (replicate 20 all_a ++ 0o7502750000000000 ∷ [])
        (writer Lp) (having [])).device
        ≡ having (letters 160 ∷ []) }
    ensures message_in_next_run { (writes Lpeq (replicate 20 all_a ++ 0o4102424275000000 ∷ [])
        (writer Lp) (having [])).device
        ≡ having ((letters 160 ++ 2 ∷ 34 ∷ 34 ∷ 61 ∷ []) ∷ []) }
    ensures area { order_words Lpeq 1 2 (1 ∷ 2 ∷ 3 ∷ 4 ∷ []) ≡ 2 ∷ 3 ∷ [] }
    ensures stays { stored Lpeq 1 2 (1 ∷ 61 ∷ 3 ∷ 4 ∷ []) (writer Lp) (having [])
        ≡ 1 ∷ 61 ∷ 3 ∷ 4 ∷ [] }
{}

/// MFRQ: the first words of the block after the place, upwards; an area of fewer words than it has, of as many, and of more.
pub fn mfrq()
    ensures less { reads Mfrq 1 reel (winding blocks 0 false false)
        ≡ leaves ((4, 1) ∷ []) (winding blocks 1 false false) }
    ensures equal { reads Mfrq 2 reel (winding blocks 0 false false)
        ≡ leaves ((4, 1) ∷ (5, 2) ∷ []) (winding blocks 1 false false) }
    ensures more { reads Mfrq 6 reel (winding blocks 0 false false)
        ≡ leaves ((4, 1) ∷ (5, 2) ∷ []) (winding blocks 1 false false) }
    ensures empty { reads Mfrq 2 reel (winding [] 0 false false)
        ≡ leaves [] (winding [] 0 true false) }
    ensures at_end { reads Mfrq 2 reel (winding blocks 3 false false)
        ≡ leaves [] (winding blocks 3 true false) }
    ensures second { reads Mfrq 2 reel (reads Mfrq 1 reel (winding blocks 0 false false)).device
        ≡ leaves ((4, 3) ∷ []) (winding blocks 2 false true) }
    ensures flag_goes { reads Mfrq 2 reel (winding blocks 0 true false)
        ≡ leaves ((4, 1) ∷ (5, 2) ∷ []) (winding blocks 1 false false) }
    ensures mark_comes { reads Mfrq 1 reel (winding blocks 1 false false)
        ≡ leaves ((4, 3) ∷ []) (winding blocks 2 false true) }
    ensures mark_goes { reads Mfrq 3 reel (winding blocks 2 false true)
        ≡ leaves ((4, 4) ∷ (5, 5) ∷ (6, 6) ∷ []) (winding blocks 3 false false) }
    ensures mark_goes_at_end { reads Mfrq 2 reel (winding blocks 3 false true)
        ≡ leaves [] (winding blocks 3 true false) }
    ensures message { reads Mfrq 2 reel (winding (block (61 ∷ 1 ∷ []) false ∷ []) 0 false false)
        ≡ leaves ((4, 61) ∷ (5, 1) ∷ [])
        (winding (block (61 ∷ 1 ∷ []) false ∷ []) 1 false false) }
    ensures stays { stored Mfrq 1 3 (10 ∷ 11 ∷ 12 ∷ 13 ∷ 14 ∷ []) reel
        (winding blocks 0 false false)
        ≡ 10 ∷ 1 ∷ 2 ∷ 13 ∷ 14 ∷ [] }
{}

/// MBRQ: the last words of the block before the place, downwards from the last place of the area.
pub fn mbrq()
    ensures less { reads Mbrq 2 reel (winding blocks 3 false false)
        ≡ leaves ((5, 6) ∷ (4, 5) ∷ []) (winding blocks 2 false false) }
    ensures equal { reads Mbrq 3 reel (winding blocks 3 false false)
        ≡ leaves ((6, 6) ∷ (5, 5) ∷ (4, 4) ∷ []) (winding blocks 2 false false) }
    ensures more { reads Mbrq 6 reel (winding blocks 1 false false)
        ≡ leaves ((9, 2) ∷ (8, 1) ∷ []) (winding blocks 0 false false) }
    ensures empty { reads Mbrq 2 reel (winding [] 0 false false)
        ≡ leaves [] (winding [] 0 true false) }
    ensures at_begin { reads Mbrq 2 reel (winding blocks 0 false false)
        ≡ leaves [] (winding blocks 0 true false) }
    ensures second { reads Mbrq 2 reel (reads Mbrq 1 reel (winding blocks 3 false false)).device
        ≡ leaves ((5, 3) ∷ []) (winding blocks 1 false true) }
    ensures behind_mfrq { reads Mbrq 2 reel
        (reads Mfrq 2 reel (winding blocks 0 false false)).device
        ≡ leaves ((5, 2) ∷ (4, 1) ∷ []) (winding blocks 0 false false) }
    ensures flag_goes { reads Mbrq 1 reel (winding blocks 3 true false)
        ≡ leaves ((4, 6) ∷ []) (winding blocks 2 false false) }
    ensures mark_comes { reads Mbrq 1 reel (winding blocks 2 false false)
        ≡ leaves ((4, 3) ∷ []) (winding blocks 1 false true) }
    ensures mark_goes { reads Mbrq 2 reel (winding blocks 1 false true)
        ≡ leaves ((5, 2) ∷ (4, 1) ∷ []) (winding blocks 0 false false) }
    ensures mark_goes_at_begin { reads Mbrq 2 reel (winding blocks 0 false true)
        ≡ leaves [] (winding blocks 0 true false) }
    ensures message { reads Mbrq 2 reel (winding (block (1 ∷ 61 ∷ []) false ∷ []) 1 false false)
        ≡ leaves ((5, 61) ∷ (4, 1) ∷ [])
        (winding (block (1 ∷ 61 ∷ []) false ∷ []) 0 false false) }
    ensures stays { stored Mbrq 1 3 (10 ∷ 11 ∷ 12 ∷ 13 ∷ 14 ∷ []) reel
        (winding blocks 1 false false)
        ≡ 10 ∷ 11 ∷ 1 ∷ 2 ∷ 14 ∷ [] }
{}

/// MWQ: all words of the area, as the last block, which has no mark.
pub fn mwq()
    ensures empty { writes Mwq (8 ∷ 9 ∷ []) reel (winding [] 0 false false)
        ≡ leaves ((4, 8) ∷ (5, 9) ∷ []) (winding (block (8 ∷ 9 ∷ []) false ∷ []) 1 false false) }
    ensures at_begin { writes Mwq (9 ∷ []) reel (winding blocks 0 false false)
        ≡ leaves ((4, 9) ∷ []) (winding (block (9 ∷ []) false ∷ []) 1 false false) }
    ensures midst { writes Mwq (9 ∷ []) reel (winding blocks 1 false false)
        ≡ leaves ((4, 9) ∷ []) (winding
        (block (1 ∷ 2 ∷ []) false ∷ block (9 ∷ []) false ∷ []) 2 false false) }
    ensures at_end { writes Mwq (9 ∷ []) reel (winding blocks 3 false false)
        ≡ leaves ((4, 9) ∷ []) (winding (blocks ++ block (9 ∷ []) false ∷ []) 4 false false) }
    ensures second { writes Mwq (8 ∷ []) reel
        (writes Mwq (9 ∷ []) reel (winding [] 0 false false)).device
        ≡ leaves ((4, 8) ∷ []) (winding
        (block (9 ∷ []) false ∷ block (8 ∷ []) false ∷ []) 2 false false) }
    ensures flag_goes { writes Mwq (9 ∷ []) reel (winding [] 0 true false)
        ≡ leaves ((4, 9) ∷ []) (winding (block (9 ∷ []) false ∷ []) 1 false false) }
    ensures mark_goes { writes Mwq (9 ∷ []) reel (winding [] 0 false true)
        ≡ leaves ((4, 9) ∷ []) (winding (block (9 ∷ []) false ∷ []) 1 false false) }
    ensures message { writes Mwq (61 ∷ 1 ∷ []) reel (winding [] 0 false false)
        ≡ leaves ((4, 61) ∷ (5, 1) ∷ []) (winding (block (61 ∷ 1 ∷ []) false ∷ []) 1 false false) }
    ensures area { order_words Mwq 1 2 (1 ∷ 2 ∷ 3 ∷ 4 ∷ []) ≡ 2 ∷ 3 ∷ [] }
    ensures stays { stored Mwq 1 2 (1 ∷ 2 ∷ 3 ∷ 4 ∷ []) reel (winding blocks 1 false false)
        ≡ 1 ∷ 2 ∷ 3 ∷ 4 ∷ [] }
{}

/// MLWQ: as MWQ, and the block and the tape have the mark.
pub fn mlwq()
    ensures empty { writes Mlwq (8 ∷ 9 ∷ []) reel (winding [] 0 false false)
        ≡ leaves ((4, 8) ∷ (5, 9) ∷ []) (winding (block (8 ∷ 9 ∷ []) true ∷ []) 1 false true) }
    ensures at_begin { writes Mlwq (9 ∷ []) reel (winding blocks 0 false false)
        ≡ leaves ((4, 9) ∷ []) (winding (block (9 ∷ []) true ∷ []) 1 false true) }
    ensures midst { writes Mlwq (9 ∷ []) reel (winding blocks 1 false false)
        ≡ leaves ((4, 9) ∷ []) (winding
        (block (1 ∷ 2 ∷ []) false ∷ block (9 ∷ []) true ∷ []) 2 false true) }
    ensures at_end { writes Mlwq (9 ∷ []) reel (winding blocks 3 false false)
        ≡ leaves ((4, 9) ∷ []) (winding (blocks ++ block (9 ∷ []) true ∷ []) 4 false true) }
    ensures second { writes Mlwq (8 ∷ []) reel
        (writes Mlwq (9 ∷ []) reel (winding [] 0 false false)).device
        ≡ leaves ((4, 8) ∷ []) (winding
        (block (9 ∷ []) true ∷ block (8 ∷ []) true ∷ []) 2 false true) }
    ensures flag_goes { writes Mlwq (9 ∷ []) reel (winding [] 0 true false)
        ≡ leaves ((4, 9) ∷ []) (winding (block (9 ∷ []) true ∷ []) 1 false true) }
    ensures message { writes Mlwq (61 ∷ 1 ∷ []) reel (winding [] 0 false false)
        ≡ leaves ((4, 61) ∷ (5, 1) ∷ []) (winding (block (61 ∷ 1 ∷ []) true ∷ []) 1 false true) }
    ensures area { order_words Mlwq 1 2 (1 ∷ 2 ∷ 3 ∷ 4 ∷ []) ≡ 2 ∷ 3 ∷ [] }
    ensures stays { stored Mlwq 1 2 (1 ∷ 2 ∷ 3 ∷ 4 ∷ []) reel (winding blocks 1 false false)
        ≡ 1 ∷ 2 ∷ 3 ∷ 4 ∷ [] }
{}

/// MRWDQ moves no word. The tape is at its begin, without flag and mark.
pub fn mrwdq()
    ensures midst { winds Mrwdq (winding blocks 2 false false)
        ≡ leaves [] (winding blocks 0 false false) }
    ensures at_end { winds Mrwdq (winding blocks 3 false false)
        ≡ leaves [] (winding blocks 0 false false) }
    ensures at_begin { winds Mrwdq (winding blocks 0 false false)
        ≡ leaves [] (winding blocks 0 false false) }
    ensures empty { winds Mrwdq (winding [] 0 false false) ≡ leaves [] (winding [] 0 false false) }
    ensures second { winds Mrwdq (winds Mrwdq (winding blocks 2 true true)).device
        ≡ leaves [] (winding blocks 0 false false) }
    ensures read_behind { reads Mfrq 2 reel (winds Mrwdq (winding blocks 3 false false)).device
        ≡ leaves ((4, 1) ∷ (5, 2) ∷ []) (winding blocks 1 false false) }
    ensures flag_goes { winds Mrwdq (winding blocks 2 true false)
        ≡ leaves [] (winding blocks 0 false false) }
    ensures mark_goes { winds Mrwdq (winding blocks 2 false true)
        ≡ leaves [] (winding blocks 0 false false) }
    ensures stays { stored Mrwdq 1 2 (1 ∷ 2 ∷ 3 ∷ 4 ∷ []) reel (winding blocks 1 false false)
        ≡ 1 ∷ 2 ∷ 3 ∷ 4 ∷ [] }
{}

/// MFSKQ moves no word. It passes fewer blocks than lie ahead, as many, and more; the mark is that of the block passed last.
pub fn mfskq()
    ensures less { winds (Mfskq 2) (winding blocks 0 false false)
        ≡ leaves [] (winding blocks 2 false true) }
    ensures equal { winds (Mfskq 3) (winding blocks 0 false false)
        ≡ leaves [] (winding blocks 3 false false) }
    ensures more { winds (Mfskq 4) (winding blocks 0 false false)
        ≡ leaves [] (winding blocks 3 true false) }
    ensures more_marked { winds (Mfskq 4) (winding (block (1 ∷ []) true ∷ []) 0 false false)
        ≡ leaves [] (winding (block (1 ∷ []) true ∷ []) 1 true true) }
    ensures empty { winds (Mfskq 1) (winding [] 0 false false)
        ≡ leaves [] (winding [] 0 true false) }
    ensures at_end { winds (Mfskq 1) (winding blocks 3 false true)
        ≡ leaves [] (winding blocks 3 true false) }
    ensures none { winds (Mfskq 0) (winding blocks 2 true true)
        ≡ leaves [] (winding blocks 2 false false) }
    ensures second { winds (Mfskq 1) (winds (Mfskq 1) (winding blocks 0 false false)).device
        ≡ leaves [] (winding blocks 2 false true) }
    ensures read_behind { reads Mfrq 3 reel (winds (Mfskq 2) (winding blocks 0 false false)).device
        ≡ leaves ((4, 4) ∷ (5, 5) ∷ (6, 6) ∷ []) (winding blocks 3 false false) }
    ensures flag_goes { winds (Mfskq 2) (winding blocks 0 true false)
        ≡ leaves [] (winding blocks 2 false true) }
    ensures mark_goes { winds (Mfskq 1) (winding blocks 2 false true)
        ≡ leaves [] (winding blocks 3 false false) }
    ensures stays { stored (Mfskq 1) 1 2 (1 ∷ 2 ∷ 3 ∷ 4 ∷ []) reel (winding blocks 1 false false)
        ≡ 1 ∷ 2 ∷ 3 ∷ 4 ∷ [] }
{}

/// MBSKQ: the same backward.
pub fn mbskq()
    ensures less { winds (Mbskq 2) (winding blocks 3 false false)
        ≡ leaves [] (winding blocks 1 false true) }
    ensures equal { winds (Mbskq 3) (winding blocks 3 false false)
        ≡ leaves [] (winding blocks 0 false false) }
    ensures more { winds (Mbskq 4) (winding blocks 3 false false)
        ≡ leaves [] (winding blocks 0 true false) }
    ensures more_marked { winds (Mbskq 4) (winding (block (1 ∷ []) true ∷ []) 1 false false)
        ≡ leaves [] (winding (block (1 ∷ []) true ∷ []) 0 true true) }
    ensures empty { winds (Mbskq 1) (winding [] 0 false false)
        ≡ leaves [] (winding [] 0 true false) }
    ensures at_begin { winds (Mbskq 1) (winding blocks 0 false true)
        ≡ leaves [] (winding blocks 0 true false) }
    ensures none { winds (Mbskq 0) (winding blocks 2 true true)
        ≡ leaves [] (winding blocks 2 false false) }
    ensures second { winds (Mbskq 1) (winds (Mbskq 1) (winding blocks 3 false false)).device
        ≡ leaves [] (winding blocks 1 false true) }
    ensures read_behind { reads Mfrq 1 reel (winds (Mbskq 2) (winding blocks 3 false false)).device
        ≡ leaves ((4, 3) ∷ []) (winding blocks 2 false true) }
    ensures flag_goes { winds (Mbskq 2) (winding blocks 3 true false)
        ≡ leaves [] (winding blocks 1 false true) }
    ensures mark_goes { winds (Mbskq 1) (winding blocks 1 false true)
        ≡ leaves [] (winding blocks 0 false false) }
    ensures stays { stored (Mbskq 1) 1 2 (1 ∷ 2 ∷ 3 ∷ 4 ∷ []) reel (winding blocks 1 false false)
        ≡ 1 ∷ 2 ∷ 3 ∷ 4 ∷ [] }
{}
