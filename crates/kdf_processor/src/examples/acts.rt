//! Examples of what an acting call does to what a program has, a transfer being finished at once.
#![tactic(auto, unfolding(kdf_transfer::specs::AtOnce::given, kdf_transfer::specs::AtOnce::offered, kdf_transfer::specs::AtOnce::finished, kdf_media::specs::Media::after_read, kdf_word::specs::Characters::first_word, kdf_word::specs::Characters::words_of))]

ghost use Rattle.std.specs.Prelude.{◌≡◌, [], ◌∷◌, ◌++◌, true, false};
ghost use Rattle.kdf_media.specs.Examples.{letters};
ghost use Rattle.kdf_transfer.specs.declared.order.TransferOrder.TheVariants.{Prq};
ghost use Rattle.kdf_transfer.specs.Examples.{all_a, all_b, ab, placed};
ghost use Rattle.kdf_processor.specs.Effect.{Nothing, Writes, Starts, Asks, Acquires, Releases, Spools};
ghost use Rattle.kdf_processor.specs.Effect.{IsBusy, IsOut, Time};
ghost use Rattle.kdf_processor.specs.Examples.{kept};
ghost use Rattle.kdf_processor.specs.Row.{at_once};

/// A word is written, and nothing else changes.
pub fn words()
    ensures nothing { at_once Nothing (kept [] [] 0 (1 ∷ 2 ∷ 3 ∷ 4 ∷ []) (placed 0 false))
        ≡ kept [] [] 0 (1 ∷ 2 ∷ 3 ∷ 4 ∷ []) (placed 0 false) }
    ensures first { at_once (Writes 0 9) (kept [] [] 0 (1 ∷ 2 ∷ 3 ∷ 4 ∷ []) (placed 0 false))
        ≡ kept [] [] 0 (9 ∷ 2 ∷ 3 ∷ 4 ∷ []) (placed 0 false) }
    ensures last { at_once (Writes 3 9) (kept [] [] 0 (1 ∷ 2 ∷ 3 ∷ 4 ∷ []) (placed 0 false))
        ≡ kept [] [] 0 (1 ∷ 2 ∷ 3 ∷ 9 ∷ []) (placed 0 false) }
{}

/// A transfer moves its words, and the device goes on. Where there is no such device, nothing moves.
pub fn transfers()
    ensures two_words { at_once (Starts 0 Prq 1 2) (kept [] [] 0 (1 ∷ 2 ∷ 3 ∷ 4 ∷ []) (placed 0 false))
        ≡ kept [] [] 0 (1 ∷ all_a ∷ all_b ∷ 4 ∷ []) (placed 16 false) }
    ensures three_words { at_once (Starts 0 Prq 1 3) (kept [] [] 0 (1 ∷ 2 ∷ 3 ∷ 4 ∷ []) (placed 0 false))
        ≡ kept [] [] 0 (1 ∷ all_a ∷ all_b ∷ 4 ∷ []) (placed 16 true) }
    ensures absent { at_once (Starts 1 Prq 1 2) (kept [] [] 0 (1 ∷ 2 ∷ 3 ∷ 4 ∷ []) (placed 0 false))
        ≡ kept [] [] 0 (1 ∷ 2 ∷ 3 ∷ 4 ∷ []) (placed 0 false) }
{}

/// An answer is counted.
pub fn answers()
    ensures busy { at_once (Asks (IsBusy 0) 1) (kept [] [] 6 (1 ∷ []) (placed 0 false))
        ≡ kept [] [] 7 (1 ∷ []) (placed 0 false) }
    ensures out { at_once (Asks (IsOut 0 0) 0) (kept [] [] 0 (1 ∷ []) (placed 0 false))
        ≡ kept [] [] 1 (1 ∷ []) (placed 0 false) }
    ensures time { at_once (Asks Time 99) (kept [] [] 6 (1 ∷ []) (placed 0 false))
        ≡ kept [] [] 7 (1 ∷ []) (placed 0 false) }
{}

/// A device is claimed, and given back as it stands.
pub fn claims()
    ensures claimed { at_once (Acquires 0) (kept (false ∷ false ∷ []) [] 0 (1 ∷ []) (placed 8 true))
        ≡ kept (true ∷ false ∷ []) [] 0 (1 ∷ []) (placed 8 true) }
    ensures given_back { at_once (Releases false 1) (kept (true ∷ true ∷ []) [] 0 (1 ∷ []) (placed 8 true))
        ≡ kept (true ∷ false ∷ []) [] 0 (1 ∷ []) (placed 8 true) }
{}

/// A text is spooled after those before it, up to and with the first End Message, or whole.
pub fn texts()
    ensures whole { at_once (Spools 7 1 2) (kept [] [] 0 (1 ∷ all_a ∷ all_b ∷ 4 ∷ []) (placed 0 false))
        ≡ kept [] (record { stream = 7; text = ab } ∷ []) 0
        (1 ∷ all_a ∷ all_b ∷ 4 ∷ []) (placed 0 false) }
    ensures cut { at_once (Spools 0 0 1)
        (kept [] (record { stream = 7; text = ab } ∷ []) 0 (all_a ∷ 0o4175424242424242 ∷ []) (placed 0 false))
        ≡ kept [] (record { stream = 7; text = ab } ∷ record { stream = 0; text = letters 9 ++ 61 ∷ [] } ∷ []) 0
        (all_a ∷ 0o4175424242424242 ∷ []) (placed 0 false) }
{}
