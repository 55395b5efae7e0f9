//! The bytes of one order.
ghost use Rattle.std.specs.Prelude.{◌≡◌, ◌<◌, ◌^◌, [], ◌∷◌};
ghost use Rattle.kdf_syllable.specs.Spelling.{three_bytes};

/// The syllables of an order: the first `size` bytes, of which there are 1 to 3. The others are 0.
#[derive(Clone, Copy, PartialEq, Eq)]
pub struct Syllables {
    pub bytes: [u8; 3],
    pub size: u8,
}

impl Syllables {
    /// One syllable.
    pub(crate) fn one(first: u8) -> Self
        ensures bytes { result.bytes ≡ first ∷ 0 ∷ 0 ∷ [] }
        ensures size { result.size ≡ 1 }
    {
        Syllables {
            bytes: [first, 0, 0],
            size: 1,
        }
    }

    /// Two syllables.
    pub(crate) fn two(first: u8, second: u8) -> Self
        ensures bytes { result.bytes ≡ first ∷ second ∷ 0 ∷ [] }
        ensures size { result.size ≡ 2 }
    {
        Syllables {
            bytes: [first, second, 0],
            size: 2,
        }
    }

    /// Three syllables.
    pub(crate) fn three(first: u8, second: u8, third: u8) -> Self
        ensures bytes { result.bytes ≡ first ∷ second ∷ third ∷ [] }
        ensures size { result.size ≡ 3 }
    {
        Syllables {
            bytes: [first, second, third],
            size: 3,
        }
    }

    /// The three syllables of 24 bits.
    pub(crate) fn of_bits(bits: u32) -> Self
        requires { bits < 2 ^ 24 }
        ensures bytes { result.bytes ≡ three_bytes bits }
        ensures size { result.size ≡ 3 }
    {
        let [_, first, second, third] = bits.to_be_bytes();
        Syllables::three(first, second, third)
    }
}
