//! The tally of a program in a run, and its text.
ghost use Rattle.std.specs.Prelude.{◌≡◌, ◌++◌, ◌<◌, ◌^◌, OnOk, string_bytes};
ghost use Rattle.kdf_journal.specs.Counts.{calls};
ghost use Rattle.kdf_account.specs.Json.{held_json, over_json, tally_json, times_json};
ghost use Rattle.kdf_account.specs.Lanes.{lane_of};
ghost use Rattle.kdf_account.specs.Moments.{entries_of};
ghost use Rattle.kdf_account.specs.Tallies.{total};

use crate::lane::Lane;
use crate::moment::{Free, Moment};
use crate::tally::Tally;
use std::alloc::AllocError;
use std::fmt::Write;

/// What became of the calls of a run for program `p`, where the pool began with these devices. Each call is one of one class.
pub fn tally_of(p: u8, free: Free, moments: &[Moment]) -> Tally
    requires { calls (entries_of moments.now) < 2 ^ 32 }
    ensures tally { result ≡ (lane_of p free moments.now).tally }
    ensures total { total result ≡ calls (entries_of moments.now) }
{
    let mut lane = Lane::new(free);
    for moment in moments {
        lane = lane.after(p, moment);
    }
    lane.tally
}

/// Writes a tally as the members of an object. Without memory nothing is said of `out`.
pub fn write_tally(out: &mut String, tally: &Tally) -> Result<(), AllocError>
    ensures { OnOk result (string_bytes out.new ≡ string_bytes out.old ++ tally_json tally.now) }
{
    let Tally {
        running,
        ready,
        group,
        device,
        pool,
        over,
    } = *tally;
    write_times(out, running, ready)?;
    write_held(out, group, device, pool)?;
    write_over(out, over)
}

fn write_times(out: &mut String, running: u32, ready: u32) -> Result<(), AllocError>
    ensures { OnOk result (string_bytes out.new ≡ string_bytes out.old ++ times_json running ready) }
{
    write!(out, "{{\"running\":{running},\"ready\":{ready}")
}

fn write_held(out: &mut String, group: u32, device: u32, pool: u32) -> Result<(), AllocError>
    ensures { OnOk result (string_bytes out.new ≡ string_bytes out.old ++ held_json group device pool) }
{
    write!(
        out,
        ",\"held\":{{\"group\":{group},\"device\":{device},\"pool\":{pool}"
    )
}

fn write_over(out: &mut String, over: u32) -> Result<(), AllocError>
    ensures { OnOk result (string_bytes out.new ≡ string_bytes out.old ++ over_json over) }
{
    write!(out, "}},\"over\":{over}}}")
}
