//! A fault at its place, and which of two comes first.

ghost use Rattle.std.specs.Prelude.{◌≡◌, Some};
ghost use Rattle.kdf_fault.specs.Faults.{before, lesser};

use crate::numbered::Numbered;

/// A fault and the place where it was found.
#[derive(Clone, Copy, PartialEq, Eq)]
pub struct Found<F> {
    pub fault: F,
    pub place: u32,
}

/// Whether the first comes before the second: by place, and at one place by number.
pub fn is_before<F: Numbered>(x: Found<F>, y: Found<F>) -> bool
    ensures { result ≡ before F.number x y }
{
    x.place < y.place || (x.place == y.place && x.fault.number() < y.fault.number())
}

/// The earlier of what was found before, if anything was, and what is found now.
pub fn earlier<F: Numbered>(best: Option<Found<F>>, found: Found<F>) -> Option<Found<F>>
    ensures { result ≡ lesser F.number best (Some found) }
{
    match best {
        Some(old) if !is_before(found, old) => Some(old),
        _ => Some(found),
    }
}
