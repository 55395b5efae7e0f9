//! The devices of the pool that no program has.
ghost use Rattle.std.specs.Prelude.{◌≡◌, ◌<◌, IfSome};
ghost use Rattle.kdf_alone.specs.LonePort.{claims_of};
ghost use Rattle.kdf_check.specs.Around.{free_in, holders_by, is_free_in};

use kdf_alone::LonePort;
use kdf_journal::{Journal, Kind};
use kdf_processor::least;

/// The least device of the pool of this kind that no program has. The journal is asked only about devices of that kind.
pub fn first_free(journal: &Journal, bench: &LonePort, kind: Kind) -> Option<u8>
    ensures least { result ≡ free_in (holders_by journal.now.entries) (claims_of bench.now) kind }
    ensures number { IfSome result (λ d. d < 16) }
{
    least(|d| is_free(journal, bench, d, kind))
}

/// Whether a device of the pool is of this kind, and no program has it.
fn is_free(journal: &Journal, bench: &LonePort, d: u8, kind: Kind) -> bool
    requires { d < 16 }
    ensures { result ≡ is_free_in (holders_by journal.now.entries) (claims_of bench.now) kind d }
{
    match bench.pool_kind(d) {
        Some(lent) => lent == kind && journal.holder(d).is_none(),
        None => false,
    }
}
