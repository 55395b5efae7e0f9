//! Calls of the machine up to one at which a watch looks.
ghost use Rattle.std.specs.Prelude.{◌≡◌, ◌+◌, ◌-◌, ◌<◌, ◌≤◌, IfOk, OnErr, is_some, true};
ghost use Rattle.kdf_journal.specs.Counts.{calls, clock};
ghost use Rattle.kdf_service.specs.Rules.{IsService};
ghost use Rattle.kdf_theory.specs.Legal.{IsLegal};
ghost use Rattle.kdf_theory.specs.Slots.{slot_of};
ghost use Rattle.kdf_watch.specs.Called.{HasCalled, HasMoved, IsFurther};
ghost use Rattle.kdf_watch.specs.Looks.{look_at};
ghost use Rattle.kdf_watch.specs.Rules.{IsStopFor};
ghost use Rattle.kdf_watch.specs.Stopped.{HasGone};

use crate::{Look, Watch};
use kdf_director::{Halt, Machine, Progress};
use kdf_journal::CALL_LIMIT;
use kdf_service::Service;
use std::alloc::AllocError;

/// What calls of the machine come to for a watch.
#[derive(Clone, Copy)]
pub enum Called {
    /// A program obeyed an order.
    Seen(Look),
    /// Programs are live, and the last call obeyed no order.
    Unseen,
    /// No program is live.
    Over,
}

/// Calls of the machine until `n` are made, one at least, up to one at which the watch may look. Of each order before
/// that its rule answers false: it wouldn't stop calls that stop so.
#[inline(always)]
pub fn call<F: Fn(u64) -> u64, G: Fn(Look) -> bool>(
    machine: &mut Machine,
    made: &mut u32,
    n: u32,
    service: &Service<F>,
    watch: &Watch<G>,
    halt: Halt,
) -> Result<Called, AllocError>
    requires service { IsService (F.pre service.now) (F.post service.now) }
    requires stop { IsStopFor (G.post watch.now) halt }
    requires some { made.old < n }
    requires few { calls machine.old.journal + (n - made.old) ≤ CALL_LIMIT }
    requires time { clock machine.old.journal ≤ 140737488355327 }
    ensures called { IfOk result (HasCalled (G.post watch.now) machine.old machine.new) }
    ensures further { IfOk result (IsFurther made.old made.new) }
    ensures moved { HasMoved (F.post service.now) made.old made.new machine.old machine.new }
    ensures within { made.new ≤ n }
    ensures err { OnErr result (HasGone (G.post watch.now) machine.old machine.new) }
{
    let _journal = machine.journal();
    let mut left = n - *made;
    let ended = machine.orders_to(&mut left, service, halt);
    *made = n - left;
    match ended? {
        Progress::Ran(p) => Ok(Called::Seen(look_at(machine, p))),
        Progress::Held(_, _) | Progress::Idle => Ok(Called::Unseen),
        Progress::AllEnded => {
            // One call more than were made found that no program is live.
            *made -= 1;
            Ok(Called::Over)
        }
    }
}

/// The look at the program of a slot.
#[inline(always)]
fn look_at(machine: &Machine, p: u8) -> Look
    requires { is_some (slot_of machine.now.slots p) ≡ true }
    ensures look { result ≡ look_at machine.now.slots machine.now.journal p }
    ensures legal { IsLegal machine.now.slots machine.now.journal }
{
    let journal = machine.journal();
    let Some(registers) = machine.seen(p) else {
        unreachable!();
    };
    Look {
        p,
        ran: journal.ran(p),
        at: registers.at,
        clock: journal.clock(),
    }
}
