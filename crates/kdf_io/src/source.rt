ghost use Rattle.std.specs.Prelude.{◌≡◌, ℕ, ◌^◌, ◌<◌, ◌≤◌, Option, List, length, take, IfOk, IsOk, OnErr};
ghost use Rattle.kdf_io.specs.Outside.{HasRisen, Advances, NothingLeft};

use crate::Failed;

/// Where bytes come from.
///
/// Contracts see the bytes left, where the source tells them, and a count of its faults.
pub trait Source {
    // The bytes that are left to read, where the source tells them.
    ghost left: { Self → Option (List ℕ) };

    // How often the source has failed, up to 2^64 - 1.
    ghost faults: { Self → ℕ };

    // The source never fails. One that can't say so promises nothing here.
    ghost steady: { Self → Type 0 } = { λ _. ⊥ };

    /// Reads some bytes to the front of `into`, and answers how many.
    ///
    /// `Ok(0)` for a nonempty slice is the end of the input.
    ///
    /// # Errors
    ///
    /// `Failed` comes only where the count of faults rose, and takes no byte.
    fn read(&mut self, into: &mut [u8]) -> Result<usize, Failed>
        ensures fits { IfOk result (λ n. n ≤ length into.new) }
        ensures took { IfOk result
            (λ n. Advances (left self.old) (take n into.new) (left self.new)) }
        ensures ended { IfOk result
            (λ n. n ≡ 0 → 0 < length into.new → NothingLeft (left self.new)) }
        ensures failed { OnErr result (HasRisen (faults self.old) (faults self.new)) }
        ensures kept { OnErr result (left self.new ≡ left self.old) }
        ensures never_falls { faults self.old ≤ faults self.new }

        // A steady source gives bytes or its end, and goes on so.
        ensures steady_gives { steady self.old → IsOk result }
        ensures steady_count { steady self.old → faults self.new ≡ faults self.old }
        ensures steady_stays { steady self.old → steady self.new };

    // A count of faults is below 2^64.
    ghost bounded: { (source : Self) → faults source < 2 ^ 64 };
}
