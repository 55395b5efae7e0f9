//! Laws of the definitions, each the contract of a function that does nothing.
ghost use Rattle.std.specs.Prelude.{◌≡◌, ℕ, List, Ok};
ghost use Rattle.kdf_usercode.specs.declared.statement.Statement.{Statement};
ghost use Rattle.kdf_usercode.specs.WellFormed.{AreWellFormed};
ghost use Rattle.kdf_place.specs.Placement.{Picture, placed};
ghost use Rattle.kdf_place.specs.Stands.{IsLaidOut};

/// In each image the places of the statements and the syllables of the words agree: orders stand
/// spelt at their places, what fills a word is DUMMY, and a reference means its part's next order.
pub fn layout()
    ensures { (ss : List Statement) (len size : ℕ) (image : Picture) → AreWellFormed ss len
        → placed ss len size ≡ Ok image → IsLaidOut ss image }
{}
