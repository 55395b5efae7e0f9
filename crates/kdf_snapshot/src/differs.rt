//! Where two journals differ.
ghost use Rattle.std.specs.Prelude.{◌≡◌, ◌≢◌, ◌≤◌, length, false, true, IfNone, IfSome};
ghost use Rattle.kdf_snapshot.specs.Differs.{IsDifference};

use kdf_journal::Entry;

/// The first place, counted from 0, at which two lists of entries differ; where one is the front of the other, they differ at its
/// end. `None` exactly where they are the same.
pub fn first_difference(these: &[Entry], those: &[Entry]) -> Option<usize>
    ensures some { IfSome result (λ n. IsDifference these.now those.now n) }
    ensures within { IfSome result (λ n. n ≤ length these.now) }
    ensures none { IfNone result (these.now ≡ those.now) }
{
    for (i, entry) in these.iter().enumerate() {
        if i >= those.len() || !is_same(&those[i], entry) {
            return Some(i);
        }
    }
    if these.len() < those.len() {
        Some(these.len())
    } else {
        None
    }
}

fn is_same(one: &Entry, other: &Entry) -> bool
    ensures same { result ≡ true → one.now ≡ other.now }
    ensures apart { result ≡ false → one.now ≢ other.now }
{
    one == other
}
