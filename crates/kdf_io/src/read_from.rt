ghost use Rattle.std.specs.Prelude.{◌≡◌};

use crate::faults::Faults;
use crate::{Failed, Source};
use std::io::Read;

/// A source that gives what a reader of the standard library gives.
///
/// It tells nothing of the bytes left, and counts each error of the reader as a fault.
#[derive(Drop)]
pub struct ReadFrom<R> {
    reader: R,
    faults: Faults,
}

impl<R: Read> ReadFrom<R> {
    ghost use Rattle.kdf_io.specs.Streams.{reader_of};

    /// A source over this reader, which has not failed yet.
    pub fn new(reader: R) -> ReadFrom<R>
        ensures reader { reader_of result ≡ reader }
        ensures faults { ⟦<ReadFrom<R> as Source>⟧.faults result ≡ 0 }
    {
        ReadFrom {
            reader,
            faults: Faults::new(),
        }
    }
}

impl<R: Read> Source for ReadFrom<R> {
    ghost use Rattle.std.specs.Prelude.{◌≤◌, None, length, IfOk};
    ghost use Rattle.std.specs.Io.KnownBytes.{ReadConsumes};
    ghost use Rattle.kdf_io.specs.Counts.{CountsFault};
    ghost use Rattle.kdf_io.specs.Streams.{reader_of, reader_faults};

    ghost left = { λ _. None };

    ghost faults = { reader_faults };

    ghost bounded = { λ s. s.faults.bounded };

    fn read(&mut self, into: &mut [u8]) -> Result<usize, Failed>
        ensures fits { IfOk result (λ n. n ≤ length into.new) }
        ensures reader { ReadConsumes (R.remaining (reader_of self.old)) (R.remaining (reader_of self.new))
            result into.new }
        ensures counts { CountsFault (reader_faults self.old) result (reader_faults self.new) }
    {
        match self.reader.read(into) {
            Ok(given) => Ok(given),
            Err(_) => Err(self.faults.fail()),
        }
    }
}
