ghost use Rattle.std.specs.Prelude.{◌≡◌, ℕ, ◌+◌, ◌^◌, ◌<◌, ◌≤◌, Option, List, length, take, IfOk, IsOk, OnErr};
ghost use Rattle.kdf_io.specs.Outside.{HasRisen, Added};

use crate::Failed;

/// Where bytes go.
///
/// Contracts see the bytes written, where the sink tells them, and a count of its faults.
pub trait Sink {
    // The bytes that were written, where the sink tells them.
    ghost written: { Self → Option (List ℕ) };

    // How often the sink has failed, up to 2^64 - 1.
    ghost faults: { Self → ℕ };

    // So many bytes more go without a fault. A sink that can't say so promises 0.
    ghost room: { Self → ℕ } = { λ _. 0 };

    /// Takes some bytes from the front of `piece`, and answers how many: of a nonempty piece at
    /// least one.
    ///
    /// # Errors
    ///
    /// `Failed` comes only where the count of faults rose, and takes no byte.
    fn put(&mut self, piece: &[u8]) -> Result<usize, Failed>
        ensures within { IfOk result (λ n. n ≤ length piece.now) }
        ensures some { IfOk result (λ n. 0 < length piece.now → 0 < n) }
        ensures added { IfOk result
            (λ n. Added (written self.old) (take n piece.now) (written self.new)) }
        ensures failed { OnErr result (HasRisen (faults self.old) (faults self.new)) }
        ensures kept { OnErr result (written self.new ≡ written self.old) }
        ensures never_falls { faults self.old ≤ faults self.new }

        // A piece that there is room for goes without a fault, and takes no more room than it has bytes.
        ensures room_takes { 0 < length piece.now → length piece.now ≤ room self.old → IsOk result }
        ensures room_count { 0 < length piece.now → length piece.now ≤ room self.old
            → faults self.new ≡ faults self.old }
        ensures room_left { IfOk result (λ n. room self.old ≤ room self.new + n) };

    // A count of faults is below 2^64.
    ghost bounded: { (sink : Self) → faults sink < 2 ^ 64 };
}
