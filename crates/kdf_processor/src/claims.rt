//! The checks that orders of devices share.
ghost use Rattle.std.specs.Prelude.{◌≡◌};
ghost use Rattle.kdf_transfer.specs.Devices.{is_kind};
ghost use Rattle.kdf_processor.specs.Table.{is_area};

use kdf_journal::Kind;

/// An area has this many words at most.
const LONGEST_AREA: u16 = 4096;

/// Whether a device that is claimed is of this kind.
pub fn is_of(kind: Kind, held: Option<Kind>) -> bool
    ensures { result ≡ is_kind kind held }
{
    match (kind, held) {
        (Kind::Tr, Some(Kind::Tr))
        | (Kind::Tp, Some(Kind::Tp))
        | (Kind::Cr, Some(Kind::Cr))
        | (Kind::Lp, Some(Kind::Lp))
        | (Kind::Mt, Some(Kind::Mt)) => true,
        _ => false,
    }
}

/// Whether an area is in a store of this size, and not too long.
pub fn is_within(size: u16, first: u16, last: u16) -> bool
    ensures { result ≡ is_area size first last }
{
    first <= last && last < size && last - first < LONGEST_AREA
}
