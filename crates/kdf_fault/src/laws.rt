//! What holds of every list of faults. Its order doesn't matter, and faults may be taken piece by piece.

ghost use Rattle.std.specs.Prelude.{◌≡◌, List, Option};
ghost use Rattle.kdf_fault.specs.declared.found.Found.{Found};
ghost use Rattle.kdf_fault.specs.Faults.{lesser, least, IsFirst};

use crate::numbered::Numbered;

/// The least of some faults is one of them, and none of them comes before it; there is none only where the list is empty.
pub fn least_is_first<F: Numbered>()
    ensures { (fs : List (Found F)) → IsFirst F.number (least F.number fs) fs }
{}

/// Of three, it doesn't matter which two are compared first.
pub fn lesser_is_associative<F: Numbered>()
    ensures { (a b c : Option (Found F)) →
        lesser F.number (lesser F.number a b) c ≡ lesser F.number a (lesser F.number b c) }
{}

/// Of two, it doesn't matter which was found first.
pub fn lesser_is_commutative<F: Numbered>()
    ensures { (a b : Option (Found F)) → lesser F.number a b ≡ lesser F.number b a }
{}
