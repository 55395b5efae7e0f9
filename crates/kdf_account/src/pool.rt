//! The devices of a pool.
ghost use Rattle.std.specs.Prelude.{◌≡◌};
ghost use Rattle.kdf_account.specs.Pools.{free_of, with_one};

use crate::moment::Free;
use kdf_journal::Kind;

/// How many devices of a pool there are of each kind that it lends.
pub fn free_of(pool: &[(u8, Kind)]) -> Free
    ensures { result ≡ free_of pool.now }
{
    let mut free = Free {
        punches: 0,
        printers: 0,
    };
    for device in pool {
        free = with_one(free, device.1);
    }
    free
}

/// With one device more of a kind.
pub fn with_one(free: Free, kind: Kind) -> Free
    ensures { result ≡ with_one free kind }
{
    match kind {
        Kind::Tp => Free {
            punches: free.punches.saturating_add(1),
            ..free
        },
        Kind::Lp => Free {
            printers: free.printers.saturating_add(1),
            ..free
        },
        _ => free,
    }
}
