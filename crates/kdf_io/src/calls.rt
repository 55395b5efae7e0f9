ghost use Rattle.std.specs.Prelude.{◌≡◌, ◌↔◌, IsTrue, Contains};
ghost use Rattle.kdf_io.specs.Counts.{one_more};

/// The calls of a source or a sink over memory: which are to fail, and how many were made.
#[derive(Drop)]
pub struct Calls {
    pub fail: Vec<u32>,
    pub made: u64,
}

impl Calls {
    /// No call yet. Those with a number in `fail`, counted from 1, are to fail.
    pub fn new(fail: Vec<u32>) -> Calls
        ensures fail { result.fail ≡ fail }
        ensures made { result.made ≡ 0 }
    {
        Calls { fail, made: 0 }
    }

    /// Counts a call, and tells whether it is to fail.
    pub fn is_next_to_fail(&mut self) -> bool
        ensures numbered { IsTrue result ↔ Contains self.old.fail.items (one_more self.old.made) }
        ensures made { self.new.made ≡ one_more self.old.made }
        ensures fail { self.new.fail ≡ self.old.fail }
    {
        self.made = self.made.saturating_add(1);
        let call = self.made;
        self.fail.iter().any(|number| u64::from(*number) == call)
    }
}
