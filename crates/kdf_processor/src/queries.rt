//! The tests of devices and of areas.
ghost use Rattle.std.specs.Prelude.{◌≡◌};
ghost use Rattle.kdf_syllable.specs.Spelling.{IsOrder};
ghost use Rattle.kdf_processor.specs.Plan.{IsPlanOf};
ghost use Rattle.kdf_processor.specs.Table.{effect};

use crate::claims::{is_of, is_within};
use crate::plan::Plan;
use crate::{Failure, Port, Registers, Test};
use kdf_journal::Kind;
use kdf_qstore::Triple;
use kdf_syllable::Order;

/// BUSYQ, TLOQ, PARQ, MBTQ, MLBQ and INTQ.
#[tactic(auto, unfolding(crate::specs::Table::query_effect, crate::specs::Table::guarded))]
pub fn plan_query<P: Port>(registers: &Registers, port: &P, b: u8, q: u8) -> Plan
    requires { IsOrder (Order.Query b q) }
    ensures { IsPlanOf (P.shows port.now).claims registers.now
        (effect (P.shows port.now).claims registers.now (Order.Query b q)) result }
{
    let Triple { c, i, m } = registers.q.triple(q);
    if b == 1 {
        if !is_within(port.size(), i, m) {
            return Plan::Fail(Failure::Liv);
        }
        return Plan::AskArea { first: i, last: m };
    }
    let held = port.held(c);
    if held.is_none() || (b == 3 || b == 4) && !is_of(Kind::Mt, held) {
        return Plan::Fail(Failure::Claim);
    }
    let device = c as u8;
    match b {
        0 => Plan::AskBusy { device },
        2 => Plan::Examine {
            device,
            what: Test::Flag,
        },
        3 => Plan::Examine {
            device,
            what: Test::Start,
        },
        4 => Plan::Examine {
            device,
            what: Test::Mark,
        },
        _ => Plan::Await { device },
    }
}
