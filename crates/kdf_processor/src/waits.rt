//! What a plan waits for.
ghost use Rattle.std.specs.Prelude.{◌≡◌, ◌∷◌, [], map};
ghost use Rattle.kdf_journal.specs.declared.need.Need.TheVariants as need;
ghost use Rattle.kdf_processor.specs.declared.registers.Registers.{Registers};
ghost use Rattle.kdf_transfer.specs.AtOnce.{IsArea};
ghost use Rattle.kdf_processor.specs.Needs.{effect_needs};
ghost use Rattle.kdf_processor.specs.Plan.{planned, IsBeginning, IsSettled, IsSound};
ghost use Rattle.kdf_processor.specs.View.{first_pending, groups_of, order_groups};

use crate::plan::{Beginning, Plan};
use crate::{Need, Port};

/// A device, where it has a transfer.
fn busy_device<P: Port>(port: &P, device: u8) -> Option<Need>
    ensures { result ≡ first_pending (P.shows port.now) (need.Device device ∷ []) }
{
    if port.busy(device) {
        Some(Need::Device(device))
    } else {
        None
    }
}

/// The first group of an area that is out.
#[tactic(auto, using(crate::proofs::Pending::pending_groups))]
fn group_out<P: Port>(port: &P, first: u16, last: u16) -> Option<Need>
    requires { IsArea first last (P.shows port.now).claims.size }
    ensures { result ≡ first_pending (P.shows port.now) (map need.Group (groups_of first last)) }
{
    port.first_out(first, last).map(Need::Group)
}

/// The device of a transfer that is to begin, or else the first group of its area that is out.
fn busy_or_out<P: Port>(port: &P, beginning: Beginning) -> Option<Need>
    requires { IsBeginning (P.shows port.now).claims beginning }
    ensures { result ≡ first_pending (P.shows port.now) (need.Device beginning.device ∷
        map need.Group (order_groups beginning.order beginning.first beginning.last)) }
{
    let Beginning {
        device,
        order,
        first,
        last,
    } = beginning;
    if port.busy(device) {
        return Some(Need::Device(device));
    }
    if !order.has_area() {
        return None;
    }
    group_out(port, first, last)
}

/// The first need of a plan that is pending.
#[inline(always)]
pub fn first_need<P: Port>(port: &P, plan: &Plan) -> Option<Need>
    requires sound { IsSound (P.shows port.now).claims plan.now }
    requires settled { IsSettled plan.now }
    ensures { (r : Registers) → result ≡ first_pending (P.shows port.now)
        (effect_needs (P.shows port.now).mine (planned (P.shows port.now).claims plan.now r)) }
{
    match *plan {
        Plan::Fail(_) | Plan::End => port.first_busy().map(Need::Device),
        Plan::Fetch(access) | Plan::Keep(access) => {
            port.read(access.address).err().map(Need::Group)
        }
        Plan::Begin(beginning) => busy_or_out(port, beginning),
        Plan::Examine { device, .. } | Plan::Await { device } | Plan::GiveBack { device } => {
            busy_device(port, device)
        }
        Plan::Spool { first, last, .. } => group_out(port, first, last),
        Plan::Count
        | Plan::AskBusy { .. }
        | Plan::AskArea { .. }
        | Plan::AskTime
        | Plan::AskService { .. } => None,
        Plan::ClaimLabel { .. } | Plan::ClaimKind { .. } => unreachable!(),
    }
}
