//! Examples of what is seen while transfers are in flight, computed from the definitions, each as the contract of a
//! function that does nothing.
#![tactic(auto, unfolding(kdf_transfer::specs::ByNumber::device_count, kdf_transfer::specs::AtOnce::given, kdf_transfer::specs::AtOnce::offered, kdf_transfer::specs::AtOnce::finished, kdf_media::specs::Media::after_read, kdf_tape::specs::Tape::after_skip, kdf_word::specs::Characters::first_word, kdf_word::specs::Characters::words_of))]

ghost use Rattle.std.specs.Prelude.{◌≡◌, [], ◌∷◌, true, false, Some, None, map, replicate};
ghost use Rattle.kdf_transfer.specs.Examples.{all_a, all_b, having, placed};
ghost use Rattle.kdf_transfer.specs.Devices.{new_progress};
ghost use Rattle.kdf_journal.specs.declared.need.Need.TheVariants.{Device, Group};
ghost use Rattle.kdf_director.specs.Examples.{backwards, behind, both, done, reading, ready, sevens, wound};
ghost use Rattle.kdf_theory.specs.Flights.{moved_to, with_flight};
ghost use Rattle.kdf_theory.specs.Seen.{pending_in_flight, seen, with_both, with_store};

/// A reader and a punch whose transfers are both in flight: the words that were moved to the store are seen, and of the
/// devices nothing.
pub fn two_in_flight()
    ensures begun { seen (both 0 0) done ≡ ready }
    ensures half { seen (both 1 1) done ≡ with_store ready (all_a ∷ replicate 33 7) }
    ensures moved { seen (both 2 2) done ≡ with_store ready (all_a ∷ all_b ∷ replicate 32 7) }
{}

/// One of the two has ended, and the other has moved one word.
pub fn one_ended()
    ensures reader { seen (with_flight 1 None (both 2 1)) done ≡ behind 1 reading }
    ensures read { behind 1 reading ≡ with_both ready (all_a ∷ all_b ∷ replicate 32 7)
        (new_progress ∷ placed 16 false ∷ having [] ∷ []) }
    ensures punch { seen (with_flight 2 None (both 1 2)) done
        ≡ with_both ready (all_a ∷ replicate 33 7)
        (new_progress ∷ placed 0 false ∷ having (sevens ∷ []) ∷ []) }
{}

/// While both are in flight the groups of their areas are pending, and their devices.
pub fn pending_needs()
    ensures groups { map (pending_in_flight (both 1 1)) (Group 0 ∷ Group 1 ∷ Group 2 ∷ [])
        ≡ true ∷ true ∷ false ∷ [] }
    ensures devices { map (pending_in_flight (both 1 1)) (Device 0 ∷ Device 1 ∷ Device 2 ∷ Device 3 ∷ [])
        ≡ false ∷ true ∷ true ∷ false ∷ [] }
    ensures ended { map (pending_in_flight (with_flight 1 None (both 2 1))) (Group 0 ∷ Group 1 ∷ Device 1 ∷ [])
        ≡ false ∷ true ∷ false ∷ [] }
{}

/// A tape that is read backwards fills its area from the last word down.
pub fn backwards_half_moved()
    ensures { seen (with_flight 1 (Some (moved_to 1 backwards)) (λ _. None)) (behind 1 backwards)
        ≡ with_store wound (7 ∷ all_b ∷ replicate 32 7) }
{}
