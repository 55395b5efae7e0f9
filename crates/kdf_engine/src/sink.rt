//! Where the text of a command is kept until it is known whether it fits the caller's room.
ghost use Rattle.std.specs.Prelude.{◌≡◌, ◌^◌, ◌<◌, [], Some};

use kdf_io::{Failed, Sink};
use std::alloc::Global;

/// A sink that keeps its bytes, and fails only where there is no memory for them.
#[derive(Drop)]
pub struct TextSink {
    pub bytes: Vec<u8>,
    pub faults: u64,
    ghost bounded: { faults < 2 ^ 64 },
}

impl TextSink {
    /// A sink that nothing was written to.
    pub fn new(alloc: Global) -> TextSink
        ensures written { ⟦<TextSink as Sink>⟧.written result ≡ Some [] }
        ensures faults { ⟦<TextSink as Sink>⟧.faults result ≡ 0 }
    {
        TextSink {
            bytes: Vec::new(alloc),
            faults: 0,
        }
    }
}

impl Sink for TextSink {
    ghost use Rattle.std.specs.Prelude.{◌≡◌, ◌^◌, ◌<◌, Some};

    ghost written = { λ s. Some s.bytes.items };

    ghost faults = { λ s. s.faults };

    ghost bounded = { λ s. s.bounded };

    fn put(&mut self, piece: &[u8]) -> Result<usize, Failed> {
        match self.bytes.extend_from_slice(piece) {
            Ok(()) => Ok(piece.len()),
            Err(_) => {
                self.faults = self.faults.saturating_add(1);
                Err(Failed)
            }
        }
    }
}
