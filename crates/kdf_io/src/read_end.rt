ghost use Rattle.std.specs.Prelude.{◌≡◌};

use std::alloc::AllocError;
use thiserror::Error;

/// Why [`read_all`](crate::read_all) came to no end of the input.
#[derive(Clone, Copy, Debug, PartialEq, Eq, Error)]
pub enum ReadEnd {
    /// The source failed.
    #[error("the source failed")]
    Fault,
    /// More bytes came than were wanted.
    #[error("more bytes came than were wanted")]
    Large,
    /// There was no memory for the bytes.
    #[error("no memory for the bytes")]
    Memory,
}

impl From<AllocError> for ReadEnd {
    ghost use Rattle.kdf_io.specs.declared.read_end.ReadEnd.TheVariants.{Memory};

    ghost from_gives = { λ _ end. end ≡ Memory };

    fn from(_error: AllocError) -> ReadEnd {
        ReadEnd::Memory
    }
}
