//! Laws of the decoding, the contract of a function that does nothing.
ghost use Rattle.std.specs.Prelude.{◌≡◌, ℕ, ◌<◌, ◌^◌, ◌↔◌, List, length, All, Some};
ghost use Rattle.kdf_syllable.specs.Spelling.{IsOrder, spelling};
ghost use Rattle.kdf_syllable.specs.declared.order.Order.{Order};
ghost use Rattle.kdf_decode.specs.Decoding.{BeginsWith, decoded, first_decoded};

/// Decoding is the inverse of the spelling both ways, and of three bytes it gives the order whose
/// spelling begins them.
pub fn one_spelling()
    ensures decoded { (o : Order) → IsOrder o → decoded (spelling o) ≡ Some o }
    ensures spelt { (bytes : List ℕ) (o : Order) →
        All (λ a. a < 2 ^ 8) bytes → decoded bytes ≡ Some o → IsOrder o × (spelling o ≡ bytes) }
    ensures first { (bytes : List ℕ) (o : Order) → length bytes ≡ 3 → All (λ a. a < 2 ^ 8) bytes →
        (first_decoded bytes ≡ Some o) ↔ (IsOrder o × BeginsWith bytes (spelling o)) }
{}
