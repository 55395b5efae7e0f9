//! Where a line of a job stands.
ghost use Rattle.std.specs.Prelude.{◌≡◌};
ghost use Rattle.kdf_job.specs.Front.{is_behind_end};

/// Where a line stands, which the line before it tells.
#[derive(Clone, Copy, PartialEq, Eq)]
pub enum LinePlace {
    /// It is the first line.
    First,
    /// Behind the first line.
    BehindHeader,
    /// Behind the line that begins the slot of this number.
    BehindSlot(u8),
    /// Behind the size of the store.
    BehindStore,
    /// In a deck.
    InDeck,
    /// Behind the end of a deck.
    BehindDeck,
    /// Behind the line that has the slot served.
    BehindService,
    /// Behind a device, or a line of its medium.
    BehindDevice,
    /// Behind a line that tells what is shown.
    BehindShow,
    /// In the pool: after the line that begins it, or a device of it.
    BehindPool,
    /// In the schedule.
    InSchedule,
    /// Behind the end of the job.
    BehindEnd,
}

impl LinePlace {
    /// The line before told that the job ends.
    pub fn is_behind_end(self) -> bool
        ensures { result ≡ is_behind_end self }
    {
        match self {
            LinePlace::BehindEnd => true,
            _ => false,
        }
    }
}
