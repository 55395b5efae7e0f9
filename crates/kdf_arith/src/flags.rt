//! The flags of a program.
ghost use Rattle.std.specs.Prelude.{◌≡◌, ◌||◌};

/// The overflow register V and the test register TR.
#[derive(Clone, Copy, PartialEq, Eq)]
pub struct Flags {
    /// Whether a value didn't fit since V was cleared last.
    pub v: bool,
    /// What the last test told.
    pub tr: bool,
}

impl Flags {
    /// Sets V where a value didn't fit, and leaves it otherwise.
    #[inline(always)]
    pub(crate) fn note(&mut self, overflow: bool)
        ensures { self.new ≡ record self.old { v = self.old.v || overflow } }
    {
        if overflow {
            self.v = true;
        }
    }
}
