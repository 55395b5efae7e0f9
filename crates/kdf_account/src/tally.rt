//! What became of the calls of a run for one program.
ghost use Rattle.std.specs.Prelude.{◌≡◌, ◌+◌, ◌<◌, ◌^◌};
ghost use Rattle.kdf_account.specs.Tallies.{charged, total};

/// How many calls a program spent at what.
#[derive(Clone, Copy)]
pub struct Tally {
    /// It obeyed an order.
    pub running: u32,
    /// It could have gone on, and wasn't tried.
    pub ready: u32,
    /// A group of its store was locked out.
    pub group: u32,
    /// A device had a transfer.
    pub device: u32,
    /// No device of a kind in the pool was free.
    pub pool: u32,
    /// It had ended or failed.
    pub over: u32,
}

/// What a call is for a program.
#[derive(Clone, Copy)]
pub enum Class {
    Running,
    Ready,
    Group,
    Device,
    Pool,
    Over,
}

impl Tally {
    /// The tally before the first call.
    pub fn new() -> Tally
        ensures { total result ≡ 0 }
    {
        Tally {
            running: 0,
            ready: 0,
            group: 0,
            device: 0,
            pool: 0,
            over: 0,
        }
    }

    /// The tally with `n` calls more of a class.
    pub fn charged(self, class: Class, n: u32) -> Tally
        requires { total self + n < 2 ^ 32 }
        ensures tally { result ≡ charged self class n }
        ensures total { total result ≡ total self + n }
    {
        match class {
            Class::Running => Tally {
                running: self.running + n,
                ..self
            },
            Class::Ready => Tally {
                ready: self.ready + n,
                ..self
            },
            Class::Group => Tally {
                group: self.group + n,
                ..self
            },
            Class::Device => Tally {
                device: self.device + n,
                ..self
            },
            Class::Pool => Tally {
                pool: self.pool + n,
                ..self
            },
            Class::Over => Tally {
                over: self.over + n,
                ..self
            },
        }
    }
}
