//! Faults that have numbers.

ghost use Rattle.std.specs.Prelude.{◌≡◌, ℕ};

/// Faults of which each has a number of its own. At one place the least number comes first.
pub trait Numbered: Copy {
    ghost number: { Self → ℕ };

    /// The number of the fault.
    fn number(self) -> u8
        ensures { result ≡ number self };

    ghost apart: { (x y : Self) → number x ≡ number y → x ≡ y };
}
