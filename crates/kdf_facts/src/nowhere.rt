//! A sink for a text that nobody wants.
ghost use Rattle.std.specs.Prelude.{◌≡◌, ◌^◌, ◌<◌};

use kdf_io::{Failed, Sink};

/// A sink that takes all, keeps nothing and tells nothing.
#[derive(Drop)]
pub struct Nowhere {
    faults: u64,
    ghost bounded: { faults < 2 ^ 64 },
}

impl Nowhere {
    /// The sink.
    pub fn new() -> Nowhere {
        Nowhere { faults: 0 }
    }
}

impl Sink for Nowhere {
    ghost use Rattle.std.specs.Prelude.{◌≡◌, ◌^◌, ◌<◌, None};

    ghost written = { λ s. None };

    ghost faults = { λ s. s.faults };

    ghost bounded = { λ s. s.bounded };

    fn put(&mut self, piece: &[u8]) -> Result<usize, Failed> {
        Ok(piece.len())
    }
}
