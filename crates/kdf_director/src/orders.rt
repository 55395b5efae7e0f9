//! Calls of a machine in turn.
ghost use Rattle.std.specs.Prelude.{◌≡◌, ◌+◌, ◌<◌, ◌≤◌, IfOk, OnErr, OnOk, false, replicate};
ghost use Rattle.kdf_journal.specs.Counts.{calls, clock};
ghost use Rattle.kdf_journal.specs.Steps.{steps};
ghost use Rattle.kdf_schedule.specs.Calls.{AnOrder};
ghost use Rattle.kdf_course.specs.Follows.{Reaches};
ghost use Rattle.kdf_director.specs.Fields.Agrees.{IsReady};
ghost use Rattle.kdf_director.specs.Fields.Viewed.{shown_of};
ghost use Rattle.kdf_theory.specs.Next.{lone_dispatched};
ghost use Rattle.kdf_director.specs.Orders.{HasMadeAll, HasMadeFewer};
ghost use Rattle.kdf_director.specs.Halts.{HasMadeButTo, HasMadeTo};
ghost use Rattle.kdf_director.specs.Progressed.{found_live};
ghost use Rattle.kdf_theory.specs.Served.{IsTrueFor};
ghost use Rattle.kdf_service.specs.Rules.{IsService};

use crate::advance::{Calls, advance};
use crate::halt::stops;
use crate::{Halt, Machine, Progress};
use kdf_journal::{CALL_LIMIT, Journal};
use kdf_service::Service;
use kdf_yard::Yard;
use std::alloc::AllocError;

/// Whether a call found a program that is live.
#[inline(always)]
fn found_live(progress: Progress) -> bool
    ensures { result ≡ found_live progress }
{
    match progress {
        Progress::Ran(_) => true,
        Progress::Held(_, _) => true,
        Progress::Idle => true,
        Progress::AllEnded => false,
    }
}

/// Of so many calls that are left, one at least, those up to one after which they stop, or that found no live program.
/// Answers what the last did, and leaves the number of those that are left still. At Err some are made, and the one
/// that had no memory has changed nothing.
#[inline(always)]
pub(crate) fn orders<F: Fn(u64) -> u64>(
    yard: &mut Yard,
    journal: &mut Journal,
    left: &mut u32,
    service: &Service<F>,
    room: u32,
    halt: Halt,
) -> Result<Progress, AllocError>
    requires service { IsService (F.pre service.now) (F.post service.now) }
    requires ready { IsReady yard.old journal.old room }
    requires some { 0 < left.old }
    requires few { calls journal.old.entries + left.old ≤ CALL_LIMIT }
    ensures ready { IsReady yard.new journal.new room }
    ensures made { IfOk result (HasMadeTo (F.post service.now) halt left.old left.new
        (shown_of yard.old journal.old room) (shown_of yard.new journal.new room)) }
    ensures err { OnErr result (HasMadeButTo (F.post service.now) halt left.old left.new
        (shown_of yard.old journal.old room) (shown_of yard.new journal.new room)) }
{
    loop {
        let counted = journal.calls();
        let calls = Calls {
            service,
            room,
            most: halt.batch(*left),
        };
        match advance(yard, journal, &calls, halt.inside()) {
            Ok((made, progress)) => {
                *left -= made;
                if *left == 0 || !found_live(progress) || stops(yard, halt, progress) {
                    return Ok(progress);
                }
            }
            Err(error) => {
                *left -= journal.calls() - counted;
                return Err(error);
            }
        }
    }
}

impl Machine {
    /// So many calls in turn, one at least, each as `order_with` makes it, or fewer, where the last found no live
    /// program. Answers what the last did. At Err some are made, and the one that had no memory has changed nothing.
    #[inline(always)]
    pub fn orders_with<F: Fn(u64) -> u64>(
        &mut self,
        n: u32,
        service: &Service<F>,
    ) -> Result<Progress, AllocError>
        requires service { IsService (F.pre service.now) (F.post service.now) }
        requires some { 0 < n }
        requires few { calls self.old.journal + n ≤ CALL_LIMIT }
        ensures made { IfOk result (HasMadeAll (F.post service.now) n self.old self.new) }
        ensures steps { OnOk result (Reaches (lone_dispatched self.old.slots)
            (steps self.old.journal) (replicate n AnOrder) (steps self.new.journal)) }
        ensures truthful { IsTrueFor (F.post service.now) self.old.slots self.old.journal
            → IsTrueFor (F.post service.now) self.new.slots self.new.journal }
        ensures calls { calls self.new.journal ≤ calls self.old.journal + n }
        ensures time { clock self.new.journal ≡ clock self.old.journal }
        ensures slots { self.new.slots ≡ self.old.slots }
        ensures room { self.new.room ≡ self.old.room }
        ensures err { OnErr result (HasMadeFewer (F.post service.now) n self.old self.new) }
    {
        let _journal = self.journal();
        self.calls_with(n, service)
    }
}
