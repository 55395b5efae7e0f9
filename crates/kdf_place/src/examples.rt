//! Images that the definitions alone compute, each the contract of a function that does nothing.
ghost use Rattle.std.specs.Prelude.{◌≡◌, [], ◌∷◌, codes, Ok, Err};
ghost use Rattle.kdf_text.specs.Text.{text};
ghost use Rattle.kdf_usercode.specs.declared.fault.DeckFault.TheVariants.{ReferenceTwice, TooLarge};
ghost use Rattle.kdf_usercode.specs.Faults.{found};
ghost use Rattle.kdf_place.specs.Listing.{absent_listing, listing_lines};
ghost use Rattle.kdf_place.specs.Placement.{placed};
ghost use Rattle.kdf_place.specs.Examples.{two_parts, two_parts_image, reference_twice};

/// Two parts, with references before, between and after their orders.
pub fn two_parts()
    ensures image { placed two_parts 75 5 ≡ Ok two_parts_image }
    ensures too_large { placed two_parts 75 4 ≡ Err (found TooLarge 75) }
{}

/// A reference that stands twice in its part.
pub fn reference_twice()
    ensures { placed reference_twice 22 8192 ≡ Err (found ReferenceTwice 12) }
{}

/// The listing of the two parts, and that of a slot that isn't there.
pub fn listed()
    ensures lines { listing_lines 2 two_parts_image ≡ codes "KDF9 LISTING 2" ∷ codes "START 1 0"
        ∷ codes "WORD 0 5000000100200401" ∷ codes "WORD 1 0232020001120400"
        ∷ codes "WORD 2 0112000000200401" ∷ codes "WORD 3 0000000000000000"
        ∷ codes "WORD 4 5000000100600401"
        ∷ codes "REF 0 1 1 0" ∷ codes "REF 0 2 1 0" ∷ codes "REF 0 3 3 0"
        ∷ codes "REF 3 1 4 0" ∷ codes "REF 3 2 4 4" ∷ codes "ENDREPORT" ∷ [] }
    ensures absent { absent_listing 3 ≡ text (codes "KDF9 LISTING 3" ∷ codes "ENDREPORT" ∷ []) }
{}
