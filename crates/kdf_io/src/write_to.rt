ghost use Rattle.std.specs.Prelude.{◌≡◌};

use crate::faults::Faults;
use crate::{Failed, Sink};
use std::io::Write;

/// A sink that hands its bytes to a writer of the standard library.
///
/// It tells nothing of the bytes written, and counts as a fault each error of the writer, and each
/// put at which the writer takes nothing of a nonempty piece.
#[derive(Drop)]
pub struct WriteTo<W> {
    writer: W,
    faults: Faults,
}

impl<W: Write> WriteTo<W> {
    ghost use Rattle.kdf_io.specs.Streams.{writer_of};

    /// A sink over this writer, which has not failed yet.
    pub fn new(writer: W) -> WriteTo<W>
        ensures writer { writer_of result ≡ writer }
        ensures faults { ⟦<WriteTo<W> as Sink>⟧.faults result ≡ 0 }
    {
        WriteTo {
            writer,
            faults: Faults::new(),
        }
    }
}

impl<W: Write> Sink for WriteTo<W> {
    ghost use Rattle.std.specs.Prelude.{◌≤◌, ◌<◌, None, length, IfOk};
    ghost use Rattle.std.specs.Io.KnownBytes.{WriteAppends};
    ghost use Rattle.kdf_io.specs.Counts.{CountsFault};
    ghost use Rattle.kdf_io.specs.Streams.{writer_of, writer_faults};

    ghost written = { λ _. None };

    ghost faults = { writer_faults };

    ghost bounded = { λ s. s.faults.bounded };

    fn put(&mut self, piece: &[u8]) -> Result<usize, Failed>
        ensures within { IfOk result (λ n. n ≤ length piece.now) }
        ensures some { IfOk result (λ n. 0 < length piece.now → 0 < n) }
        ensures writer { WriteAppends (W.contents (writer_of self.old)) (W.contents (writer_of self.new))
            result piece.now }
        ensures counts { CountsFault (writer_faults self.old) result (writer_faults self.new) }
    {
        match self.writer.write(piece) {
            Ok(taken) if taken > 0 || piece.is_empty() => Ok(taken),
            _ => Err(self.faults.fail()),
        }
    }
}
