//! The moments of a run.
ghost use Rattle.std.specs.Prelude.{◌≡◌, ◌+◌, ◌<◌, ◌^◌, [], ◌∷◌, ◌++◌, OnOk};
ghost use Rattle.kdf_journal.specs.Counts.{calls, calls_in};
ghost use Rattle.kdf_account.specs.Moments.{entries_of, AreCounted};

use crate::moment::{Free, Moment, Unlocked};
use kdf_journal::Entry;
use std::alloc::{AllocError, Global};
use std::marker::Model;

/// The moments of a run, the oldest first: contracts see them as a list. Each tells how many calls were before it.
#[derive(Drop)]
pub struct Account {
    moments: Vec<Moment>,
    calls: u32,
}

impl Model for Account {
    ghost use Rattle.std.specs.Prelude.{List};
    ghost use Rattle.kdf_account.specs.declared.moment.Moment.{Moment};
    ghost use Rattle.kdf_account.specs.Moments.{IsAccount};

    ghost Value = { List Moment };

    ghost view = { λ a. a.moments.items };

    ghost invariant = { λ a. IsAccount a.moments.items a.calls };
}

impl Account {
    /// An account without moments.
    pub fn new(alloc: Global) -> Account
        ensures { result ≡ [] }
    {
        Account {
            moments: Vec::new(alloc),
            calls: 0,
        }
    }

    /// Adds an entry, with what it unlocked and what the pool has after it.
    pub fn push(
        &mut self,
        entry: Entry,
        unlocked: Option<Unlocked>,
        free: Free,
    ) -> Result<(), AllocError>
        requires { calls (entries_of self.old) + calls_in entry < 2 ^ 32 }
        ensures { OnOk result (self.new ≡ self.old ++ (record {
          call = calls (entries_of self.old);
          entry = entry;
          unlocked = unlocked;
          free = free;
        }) ∷ []) }
    {
        let call = self.calls;
        let more = calls_of(&entry);
        self.moments.push(Moment {
            call,
            entry,
            unlocked,
            free,
        })?;
        self.calls = call + more;
        Ok(())
    }

    /// The moments, the oldest first. Each has as many calls before it as the entries before it answer.
    pub fn moments(&self) -> &[Moment]
        ensures moments { result.now ≡ self.now }
        ensures counted { AreCounted result.now }
    {
        self.moments.as_slice()
    }

    /// How many calls the entries answer.
    pub fn calls(&self) -> u32
        ensures { result ≡ calls (entries_of self.now) }
    {
        self.calls
    }
}

/// How many calls an entry answers.
pub fn calls_of(entry: &Entry) -> u32
    ensures { result ≡ calls_in entry.now }
{
    match *entry {
        Entry::Ran { n, .. } | Entry::Idle { n } => n,
        Entry::Lov { .. } | Entry::Busy { .. } | Entry::Wait { .. } => 1,
        _ => 0,
    }
}
