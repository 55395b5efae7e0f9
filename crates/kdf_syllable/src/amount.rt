//! By how much a shift shifts.
ghost use Rattle.std.specs.Prelude.{◌≡◌};
ghost use Rattle.kdf_syllable.specs.Spelling.{IsAmount, amount};

/// The number of places of a shift.
#[derive(Clone, Copy, PartialEq, Eq)]
pub enum Amount {
    /// This number, from -64 to 63: to the left where it is 0 or more.
    Fixed { n: i8 },
    /// What the counter of Q-store `q` says, where `q` is below 16.
    Count { q: u8 },
}

impl Amount {
    /// The second syllable of a shift by this amount.
    pub(crate) fn syllable(self) -> u8
        requires { IsAmount self }
        ensures { result ≡ amount self }
    {
        match self {
            Amount::Fixed { n } => 2 * (n.cast_unsigned() % 128) + 1,
            Amount::Count { q } => 16 * q,
        }
    }
}
