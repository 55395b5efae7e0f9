//! What can be wrong with a deck.

ghost use Rattle.std.specs.Prelude.{◌≡◌};
ghost use Rattle.kdf_usercode.specs.Faults.{number_of, deck_fault_name};

use kdf_fault::Numbered;
use std::alloc::{AllocError, AllocFailed};
use thiserror::Error;

/// The faults of a deck. The first eleven come before all others, in the order of their places, and at one place in
/// this order; then the next seven, likewise; `TooLarge` is last.
#[derive(Clone, Copy, Debug, PartialEq, Eq)]
pub enum DeckFault {
    /// A byte that no deck may have. The place is the byte's.
    BadByte,
    /// A `(` without a later `)`.
    CommentOpen,
    /// Text after the last `;`. The place is that of its first byte.
    NoSemicolon,
    /// The statement has no form.
    UnknownOrder,
    /// The statement is an order on floating numbers.
    Floating,
    /// A number outside its range, but for the next two.
    BadNumber,
    /// The number of a Q-store is above 15.
    QRange,
    /// A constant outside its range, or with more than eight characters.
    ConstantRange,
    /// The statement isn't in its place in the sequence of a deck.
    BadHeading,
    /// There is no `FINISH`. The place is the deck's length.
    NoFinish,
    /// Text after `FINISH`. The place is that of its first byte.
    AfterFinish,
    /// The reference stood before in this part.
    ReferenceTwice,
    /// The part of a target is there and hasn't its reference.
    ReferenceMissing,
    /// The part's number stood before.
    PartTwice,
    /// A jump or a store names a part that isn't there.
    PartMissing,
    /// A V-store above the last of its part, or one that has a constant already.
    VRange,
    /// A Y-store above the last of its group, or one of a group that isn't declared.
    YRange,
    /// The target of a short loop isn't at the begin of the word before.
    ShortLoopFar,
    /// The image has more words than the store. The place is the deck's length.
    TooLarge,
}

impl DeckFault {
    /// The name of the fault, as it is printed.
    pub fn name(&self) -> &'static str
        ensures { result.now ≡ deck_fault_name self.now }
    {
        match self {
            DeckFault::BadByte => "BadByte",
            DeckFault::CommentOpen => "CommentOpen",
            DeckFault::NoSemicolon => "NoSemicolon",
            DeckFault::UnknownOrder => "UnknownOrder",
            DeckFault::Floating => "Floating",
            DeckFault::BadNumber => "BadNumber",
            DeckFault::QRange => "QRange",
            DeckFault::ConstantRange => "ConstantRange",
            DeckFault::BadHeading => "BadHeading",
            DeckFault::NoFinish => "NoFinish",
            DeckFault::AfterFinish => "AfterFinish",
            DeckFault::ReferenceTwice => "ReferenceTwice",
            DeckFault::ReferenceMissing => "ReferenceMissing",
            DeckFault::PartTwice => "PartTwice",
            DeckFault::PartMissing => "PartMissing",
            DeckFault::VRange => "VRange",
            DeckFault::YRange => "YRange",
            DeckFault::ShortLoopFar => "ShortLoopFar",
            DeckFault::TooLarge => "TooLarge",
        }
    }
}

impl Numbered for DeckFault {
    ghost use Rattle.kdf_usercode.specs.Faults.{number_of};
    ghost use Rattle.kdf_usercode.specs.Apart.{apart};

    ghost number = { number_of };

    fn number(self) -> u8 {
        match self {
            DeckFault::BadByte => 1,
            DeckFault::CommentOpen => 2,
            DeckFault::NoSemicolon => 3,
            DeckFault::UnknownOrder => 4,
            DeckFault::Floating => 5,
            DeckFault::BadNumber => 6,
            DeckFault::QRange => 7,
            DeckFault::ConstantRange => 8,
            DeckFault::BadHeading => 9,
            DeckFault::NoFinish => 10,
            DeckFault::AfterFinish => 11,
            DeckFault::ReferenceTwice => 12,
            DeckFault::ReferenceMissing => 13,
            DeckFault::PartTwice => 14,
            DeckFault::PartMissing => 15,
            DeckFault::VRange => 16,
            DeckFault::YRange => 17,
            DeckFault::ShortLoopFar => 18,
            DeckFault::TooLarge => 19,
        }
    }

    ghost apart = { apart };
}

/// Why there is no answer to a deck.
#[derive(Debug, Drop, Error)]
pub enum DeckError {
    /// The deck's first fault, with its place: an offset in bytes, from 0.
    #[error("{0:?} at {1}")]
    Fault(DeckFault, u32),
    #[error("out of memory")]
    Memory,
}

impl From<AllocError> for DeckError {
    ghost use Rattle.kdf_usercode.specs.declared.fault.DeckError.TheVariants.{Memory};

    ghost from_gives = { λ _ e. e ≡ Memory };

    fn from(_error: AllocError) -> Self {
        DeckError::Memory
    }
}

impl<T: Drop> From<AllocFailed<T>> for DeckError {
    ghost use Rattle.kdf_usercode.specs.declared.fault.DeckError.TheVariants.{Memory};

    ghost from_gives = { λ _ e. e ≡ Memory };

    fn from(_error: AllocFailed<T>) -> Self {
        DeckError::Memory
    }
}
