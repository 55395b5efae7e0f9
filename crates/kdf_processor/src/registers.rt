//! What a program has of its own in the processor.
use crate::Failure;
use kdf_arith::Flags;
use kdf_nest::{Links, Nest};
use kdf_qstore::QStores;

/// Whether a program runs.
#[derive(Clone, Copy, PartialEq, Eq)]
pub enum Life {
    Live,
    Ended,
    Failed(Failure),
}

/// The registers of a program.
#[derive(Drop)]
pub struct Registers {
    /// The nesting store.
    pub nest: Nest,
    /// The subroutine jump nesting store.
    pub links: Links,
    /// The Q-stores.
    pub q: QStores,
    /// V and TR.
    pub flags: Flags,
    /// The number of the next order's first syllable, below 49,152.
    pub at: u16,
    /// How many orders were obeyed; one that failed counts.
    pub ran: u32,
    pub state: Life,
}

impl Registers {
    ghost use Rattle.std.specs.Prelude.{◌≡◌};
    ghost use Rattle.kdf_processor.specs.State.{new_registers};

    /// The registers of a program before its first order, which is at syllable 0 of word 0.
    pub fn new() -> Registers
        ensures { result ≡ new_registers }
    {
        Registers {
            nest: Nest::new(),
            links: Links::new(),
            q: QStores::new(),
            flags: Flags {
                v: false,
                tr: false,
            },
            at: 0,
            ran: 0,
            state: Life::Live,
        }
    }
}
