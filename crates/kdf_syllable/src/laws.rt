//! Laws of the spelling and the packing, each the contract of a function that does nothing.
ghost use Rattle.std.specs.Prelude.{◌≡◌, ℕ, ◌<◌, ◌^◌, [], ◌++◌, List, length, slice_index};
ghost use Rattle.std.specs.Int.{IsInRange};
ghost use Rattle.kdf_syllable.specs.Packing.{packed, syllable};
ghost use Rattle.kdf_syllable.specs.Spelling.{IsOrder, spelling, size_of_first};
ghost use Rattle.kdf_syllable.specs.declared.order.Order.{Order};

/// Six bytes are below 2^48 once packed, and the word's syllables are these bytes.
pub fn packing()
    ensures below { (bytes : List ℕ) → length bytes ≡ 6 → ((k : ℕ) → slice_index bytes k < 256)
        → packed bytes < 2 ^ 48 }
    ensures syllable { (bytes : List ℕ) → length bytes ≡ 6 → ((k : ℕ) → slice_index bytes k < 256)
        → (i : ℕ) → i < 6 → syllable (packed bytes) i ≡ slice_index bytes i }
{}

/// A spelling is one to three bytes.
pub fn bytes()
    ensures length { (order : Order) → IsInRange 1 3 (length (spelling order)) }
    ensures below { (order : Order) → IsOrder order → (k : ℕ)
        → slice_index (spelling order) k < 256 }
{}

/// The first syllable of a spelling tells how many there are.
pub fn size_by_first()
    ensures { (order : Order) → IsOrder order
        → size_of_first (slice_index (spelling order) 0) ≡ length (spelling order) }
{}

/// No spelling begins another.
pub fn apart()
    ensures { (order other : Order) (rest : List ℕ) → IsOrder order → IsOrder other
        → spelling other ≡ spelling order ++ rest → rest ≡ [] }
{}

/// Two orders that are spelt alike are one order.
pub fn one_order()
    ensures { (order other : Order) → IsOrder order → IsOrder other
        → spelling order ≡ spelling other → order ≡ other }
{}
