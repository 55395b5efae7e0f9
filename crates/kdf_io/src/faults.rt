ghost use Rattle.std.specs.Prelude.{◌≡◌, ◌^◌, ◌<◌};
ghost use Rattle.kdf_io.specs.Counts.{one_more};

use crate::Failed;

/// A count of faults, which stops at its highest.
#[derive(Drop)]
pub struct Faults {
    pub count: u64,
    ghost bounded: { count < 2 ^ 64 },
}

impl Faults {
    /// No fault yet.
    pub fn new() -> Faults
        ensures { result.count ≡ 0 }
    {
        Faults { count: 0 }
    }

    /// Counts a fault, and gives the answer to it.
    pub fn fail(&mut self) -> Failed
        ensures { self.new.count ≡ one_more self.old.count }
    {
        self.count = self.count.saturating_add(1);
        Failed
    }
}
