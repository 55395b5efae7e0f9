//! What became of the calls of a run for each program, as JSON.
ghost use Rattle.std.specs.Prelude.{◌≡◌, ◌++◌, ◌<◌, ◌^◌, OnOk, string_bytes};
ghost use Rattle.kdf_journal.specs.Counts.{calls};
ghost use Rattle.kdf_account.specs.Json.{calls_json, rest_calls_json, slot_calls_json, slot_json};
ghost use Rattle.kdf_account.specs.Moments.{entries_of};

use crate::moment::{Free, Moment};
use crate::tallies::{tally_of, write_tally};
use std::alloc::AllocError;
use std::fmt::Write;

/// Writes what became of the calls for the programs of these slots, where the pool began with these devices. Without memory nothing is said of `out`.
pub fn write_calls(
    out: &mut String,
    slots: &[u8],
    free: Free,
    moments: &[Moment],
) -> Result<(), AllocError>
    requires { calls (entries_of moments.now) < 2 ^ 32 }
    ensures { OnOk result (string_bytes out.new ≡ string_bytes out.old ++ calls_json free moments.now slots.now) }
{
    match slots {
        [] => Ok(()),
        [first, rest @ ..] => {
            write_slot(out, *first, free, moments)?;
            write_rest(out, rest, free, moments)
        }
    }
}

/// Writes each after a comma and the end of a line.
fn write_rest(
    out: &mut String,
    slots: &[u8],
    free: Free,
    moments: &[Moment],
) -> Result<(), AllocError>
    requires { calls (entries_of moments.now) < 2 ^ 32 }
    ensures { OnOk result (string_bytes out.new
        ≡ string_bytes out.old ++ rest_calls_json free moments.now slots.now) }
{
    for p in slots {
        out.push_str(",\n")?;
        write_slot(out, *p, free, moments)?;
    }
    Ok(())
}

/// Writes a slot, and what became of the calls for its program.
fn write_slot(out: &mut String, p: u8, free: Free, moments: &[Moment]) -> Result<(), AllocError>
    requires { calls (entries_of moments.now) < 2 ^ 32 }
    ensures { OnOk result (string_bytes out.new
        ≡ string_bytes out.old ++ slot_calls_json free moments.now p) }
{
    let tally = tally_of(p, free, moments);
    write_number(out, p)?;
    write_tally(out, &tally)?;
    out.push_str("}")
}

/// Writes the number of a slot.
fn write_number(out: &mut String, p: u8) -> Result<(), AllocError>
    ensures { OnOk result (string_bytes out.new ≡ string_bytes out.old ++ slot_json p) }
{
    write!(out, "{{\"slot\":{p},\"calls\":")
}
