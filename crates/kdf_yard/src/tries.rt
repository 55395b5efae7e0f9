//! Orders of a batch: the service may be heard before them.
ghost use Rattle.std.specs.Prelude.{◌≡◌, ◌+◌, ◌<◌, ◌≤◌, length, true, IfOk, OnErr};
ghost use Rattle.kdf_service.specs.Rules.{IsService};
ghost use Rattle.kdf_yard.specs.Fields.Running.{reach_at};
ghost use Rattle.kdf_yard.specs.Fields.Standing.{IsSameYard};
ghost use Rattle.kdf_yard.specs.Fields.Yards.{registers_in, AreLentIn, HasTriedIn, HasTriedQuietly};
ghost use Rattle.kdf_yard.specs.Fields.Batches.{is_at};

use crate::dispatch::{Batch, is_at};
use crate::{Loaded, Remark, Yard};
use kdf_processor::{Life, Step};
use kdf_service::Service;
use kdf_word::Word;
use std::alloc::AllocError;

/// How many of so many orders of a program are tried with nothing heard between them. The service of a program that is
/// served may be heard before each.
#[inline(always)]
fn batch_of(slot: &Loaded, most: u32) -> u32
    requires { 0 < most }
    ensures some { 0 < result }
    ensures few { result ≤ most }
    ensures served { slot.now.served ≡ true → result ≡ 1 }
{
    if slot.served { 1 } else { most }
}

impl Yard {
    /// How many of so many orders of program `i` are tried with nothing heard between them.
    #[inline(always)]
    fn batch_at(&self, i: usize, most: u32) -> u32
        requires there { i < length self.now.seats }
        requires some { 0 < most }
        ensures some { 0 < result }
        ensures few { result ≤ most }
        ensures served { (reach_at self.now.reaches i).served ≡ true → result ≡ 1 }
    {
        batch_of(&self.slots[i], most)
    }

    /// Tries orders of a batch up to one of which something is noted, that is held, that ends the program or that comes
    /// to its place. If one asks the service, the answer is drawn before it. Answers how many were obeyed before the
    /// last, and how the last ended. At Err that had no memory, and has changed nothing.
    #[inline(always)]
    pub fn try_at<F: Fn(u64) -> u64>(
        &mut self,
        batch: Batch<'_>,
        service: &Service<F>,
    ) -> (u32, Result<(Step, Remark), AllocError>)
        requires service { IsService (F.pre service.now) (F.post service.now) }
        requires there { batch.i < length self.old.seats }
        requires live { (registers_in self.old batch.i).state ≡ Life.Live }
        requires some { 0 < batch.most }
        requires ran { (registers_in self.old batch.i).ran + batch.most ≤ u32.MAX }
        requires lent { AreLentIn self.old batch.journal.now.entries }
        ensures tried { IfOk result.1 (λ x. HasTriedIn (F.post service.now) batch.entry.time batch.entry.i result.0
            batch.entry.place self.old self.new x.0 x.1) }
        ensures err { OnErr result.1 (HasTriedQuietly (F.post service.now) batch.entry.time batch.entry.i result.0
            batch.entry.place self.old self.new) }
        ensures within { result.0 < batch.entry.most }
        ensures same { IsSameYard self.old self.new }
    {
        let answer = self.heard(batch.i, batch.journal, service);
        let heard = answer.unwrap_or(Word::default());
        let batch = Batch {
            most: self.batch_at(batch.i, batch.most),
            ..batch
        };
        self.turn(batch, heard)
    }

    /// Whether program `i` is at a place.
    #[inline(always)]
    pub fn is_at(&self, place: Option<u16>, i: usize) -> bool
        requires there { i < length self.now.seats }
        ensures { result ≡ is_at place (registers_in self.now i) }
    {
        is_at(place, &self.programs[i].registers)
    }
}
