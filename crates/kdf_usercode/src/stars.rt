//! Which `*` of a deck are kept.

ghost use Rattle.std.specs.Prelude.{◌≡◌};
ghost use Rattle.kdf_usercode.specs.Thinned.{keeps_star, stars_past, says_star};

use crate::forms::Form;

/// Which `*` are kept. One directly after another does nothing: the word is full already.
#[derive(Clone, Copy)]
pub enum Stars {
    /// Every one.
    Every,
    /// Those that aren't directly after another, and the statement before is a `*`.
    AfterStar,
    /// Likewise, and the statement before isn't one.
    AfterOther,
}

impl Stars {
    /// Whether a statement of this form is kept.
    pub fn keeps(self, form: Form) -> bool
        ensures { result ≡ keeps_star self (says_star form) }
    {
        match (self, form) {
            (Stars::AfterStar, Form::Star) => false,
            _ => true,
        }
    }

    /// Which are kept after a statement of this form.
    pub fn after(self, form: Form) -> Stars
        ensures { result ≡ stars_past self (says_star form) }
    {
        match (self, form) {
            (Stars::Every, _) => Stars::Every,
            (_, Form::Star) => Stars::AfterStar,
            _ => Stars::AfterOther,
        }
    }
}
