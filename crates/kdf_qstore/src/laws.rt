//! Laws of the definitions, each the contract of a function that does nothing.
ghost use Rattle.std.specs.Prelude.{◌≡◌, ◌≢◌, ℕ, ◌<◌, ◌^◌, List, length};
ghost use Rattle.kdf_qstore.specs.Triples.{Triple, zero_triple, triple_at, with_triple, triple_of, word_of_triple};

/// Words and triples of parts below 2^16 stand for each other.
pub fn one_word()
    ensures word { (w : ℕ) → w < 2 ^ 48 → word_of_triple (triple_of w) ≡ w }
    ensures triple { (t : Triple) → t.c < 2 ^ 16 → t.i < 2 ^ 16 → t.m < 2 ^ 16
        → triple_of (word_of_triple t) ≡ t }
{}

/// A write to a Q-store is read back, changes no other, and is lost where it is Q0, which stays zero.
pub fn write_and_read()
    ensures same { (qs : List Triple) (q : ℕ) (t : Triple) → 0 < q → q < length qs
        → triple_at (with_triple qs q t) q ≡ t }
    ensures others { (qs : List Triple) (q p : ℕ) (t : Triple) → p ≢ q
        → triple_at (with_triple qs q t) p ≡ triple_at qs p }
    ensures lost { (qs : List Triple) (t : Triple) → with_triple qs 0 t ≡ qs }
    ensures zero { (qs : List Triple) → triple_at qs 0 ≡ zero_triple }
    ensures count { (qs : List Triple) (q : ℕ) (t : Triple)
        → length (with_triple qs q t) ≡ length qs }
{}
