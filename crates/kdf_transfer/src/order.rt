//! The orders that transfer.
ghost use Rattle.std.specs.Prelude.{◌≡◌};
ghost use Rattle.kdf_transfer.specs.AtOnce.{kind_of, is_input, is_output, has_area, is_backward, stops_at_end};

use kdf_journal::Kind;

/// An order that begins a transfer. The two skips carry how many blocks they pass.
#[derive(Clone, Copy, PartialEq, Eq)]
pub enum TransferOrder {
    /// Reads paper tape.
    Prq,
    /// Reads paper tape to End Message.
    Preq,
    /// Punches.
    Pwq,
    /// Punches to End Message.
    Pweq,
    /// Reads a card.
    Crq,
    /// Prints.
    Lpq,
    /// Prints to End Message.
    Lpeq,
    /// Reads a block of magnetic tape forward.
    Mfrq,
    /// Reads a block of magnetic tape backward.
    Mbrq,
    /// Writes a block of magnetic tape.
    Mwq,
    /// Writes a block with the last-block mark.
    Mlwq,
    /// Rewinds.
    Mrwdq,
    /// Skips blocks forward.
    Mfskq(u16),
    /// Skips blocks backward.
    Mbskq(u16),
}

impl TransferOrder {
    /// The kind of device that it is for.
    pub fn kind(self) -> Kind
        ensures { result ≡ kind_of self }
    {
        match self {
            TransferOrder::Prq | TransferOrder::Preq => Kind::Tr,
            TransferOrder::Pwq | TransferOrder::Pweq => Kind::Tp,
            TransferOrder::Crq => Kind::Cr,
            TransferOrder::Lpq | TransferOrder::Lpeq => Kind::Lp,
            _ => Kind::Mt,
        }
    }

    /// Whether it moves words to the store.
    pub fn is_input(self) -> bool
        ensures { result ≡ is_input self }
    {
        match self {
            TransferOrder::Prq | TransferOrder::Preq | TransferOrder::Crq => true,
            TransferOrder::Mfrq | TransferOrder::Mbrq => true,
            _ => false,
        }
    }

    /// Whether it moves words to the device.
    pub fn is_output(self) -> bool
        ensures { result ≡ is_output self }
    {
        match self {
            TransferOrder::Pwq | TransferOrder::Pweq => true,
            TransferOrder::Lpq | TransferOrder::Lpeq => true,
            TransferOrder::Mwq | TransferOrder::Mlwq => true,
            _ => false,
        }
    }

    /// Whether it has an area of the store.
    pub fn has_area(self) -> bool
        ensures { result ≡ has_area self }
    {
        self.is_input() || self.is_output()
    }

    /// Whether it fills its area from the last address downwards.
    pub fn is_backward(self) -> bool
        ensures { result ≡ is_backward self }
    {
        match self {
            TransferOrder::Mbrq => true,
            _ => false,
        }
    }

    /// Whether it stops after the first word with an End Message.
    pub fn stops_at_end(self) -> bool
        ensures { result ≡ stops_at_end self }
    {
        match self {
            TransferOrder::Preq | TransferOrder::Pweq | TransferOrder::Lpeq => true,
            _ => false,
        }
    }
}
