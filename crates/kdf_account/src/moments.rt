//! The moments of a run as JSON.
ghost use Rattle.std.specs.Prelude.{◌≡◌, ◌++◌, OnOk, decimal, string_bytes};
ghost use Rattle.kdf_account.specs.Json.{entry_json, kind_json, moment_json, moments_json, number, one_json, rest_json, two_json};

use crate::moment::Moment;
use kdf_journal::Entry;
use kdf_json::write_after;
use std::alloc::AllocError;

/// Writes the moments, with a comma between each two. Without memory nothing is said of `out`.
pub fn write_moments(out: &mut String, moments: &[Moment]) -> Result<(), AllocError>
    ensures { OnOk result (string_bytes out.new ≡ string_bytes out.old ++ moments_json moments.now) }
{
    match moments {
        [] => Ok(()),
        [first, rest @ ..] => {
            write_moment(out, "{\"call\":", first)?;
            write_rest(out, rest)
        }
    }
}

/// Writes each moment after a comma and the end of a line.
fn write_rest(out: &mut String, moments: &[Moment]) -> Result<(), AllocError>
    ensures { OnOk result (string_bytes out.new ≡ string_bytes out.old ++ rest_json moments.now) }
{
    for moment in moments {
        write_moment(out, ",\n{\"call\":", moment)?;
    }
    Ok(())
}

/// Writes a moment: the number of calls before it, after what stands before that, and its entry.
#[inline(always)]
fn write_moment(out: &mut String, front: &str, moment: &Moment) -> Result<(), AllocError>
    ensures { OnOk result (string_bytes out.new ≡ string_bytes out.old ++ moment_json front.now moment.now) }
{
    write_after(out, front, moment.call.into())?;
    write_entry(out, &moment.entry)?;
    out.push_str("}")
}

/// Writes the name of an entry and its members.
fn write_entry(out: &mut String, entry: &Entry) -> Result<(), AllocError>
    ensures { OnOk result (string_bytes out.new ≡ string_bytes out.old ++ entry_json entry.now) }
{
    match *entry {
        Entry::Ran { p, n } => write_two(
            out,
            ",\"entry\":\"RAN\",\"slot\":",
            p,
            ",\"orders\":",
            n.into(),
        ),
        Entry::Start { p, d, k } => {
            write_three(
                out,
                ",\"entry\":\"START\",\"slot\":",
                p,
                ",\"device\":",
                d,
                ",\"order\":",
                k,
            )
        }
        Entry::Answer { p, v } => write_two(
            out,
            ",\"entry\":\"ANSWER\",\"slot\":",
            p,
            ",\"answer\":",
            v,
        ),
        Entry::Take { p, d } => write_two(
            out,
            ",\"entry\":\"TAKE\",\"slot\":",
            p,
            ",\"device\":",
            d.into(),
        ),
        Entry::Give { p, d } => write_two(
            out,
            ",\"entry\":\"GIVE\",\"slot\":",
            p,
            ",\"device\":",
            d.into(),
        ),
        Entry::Fail { p, kind } => write_kind(out, "FAIL", p, kind.name()),
        Entry::Ended { p } => write_one(out, ",\"entry\":\"ENDED\",\"slot\":", p.into()),
        Entry::Lov { p, group } => {
            write_two(
                out,
                ",\"entry\":\"LOV\",\"slot\":",
                p,
                ",\"group\":",
                group.into(),
            )
        }
        Entry::Busy { p, d } => write_two(
            out,
            ",\"entry\":\"BUSY\",\"slot\":",
            p,
            ",\"device\":",
            d.into(),
        ),
        Entry::Wait { p, kind } => write_kind(out, "WAIT", p, kind.name()),
        Entry::Idle { n } => write_one(out, ",\"entry\":\"IDLE\",\"calls\":", n.into()),
        Entry::Move { d, n } => write_two(
            out,
            ",\"entry\":\"MOVE\",\"device\":",
            d,
            ",\"words\":",
            n.into(),
        ),
        Entry::End { d } => write_one(out, ",\"entry\":\"END\",\"device\":", d.into()),
        Entry::Clock { t } => write_one(out, ",\"entry\":\"CLOCK\",\"time\":", t),
        Entry::Swap { p, q } => write_two(
            out,
            ",\"entry\":\"SWAP\",\"slot\":",
            p,
            ",\"other\":",
            q.into(),
        ),
    }
}

/// Writes a number after what stands before it.
#[inline(always)]
fn write_one(out: &mut String, front: &str, n: u64) -> Result<(), AllocError>
    ensures { OnOk result (string_bytes out.new ≡ string_bytes out.old ++ one_json front.now n) }
{
    write_after(out, front, n)
}

/// Writes two numbers, each after what stands before it.
#[inline(always)]
fn write_two(
    out: &mut String,
    front: &str,
    first: u8,
    middle: &str,
    second: u64,
) -> Result<(), AllocError>
    ensures { OnOk result (string_bytes out.new
        ≡ string_bytes out.old ++ two_json front.now first middle.now second) }
{
    write_after(out, front, first.into())?;
    write_after(out, middle, second)
}

/// Writes three numbers, each after what stands before it.
#[inline(always)]
fn write_three(
    out: &mut String,
    front: &str,
    first: u8,
    middle: &str,
    second: u8,
    last: &str,
    third: u32,
) -> Result<(), AllocError>
    ensures { OnOk result (string_bytes out.new
        ≡ string_bytes out.old ++ number front.now first (number middle.now second (last.now ++ decimal third))) }
{
    write_two(out, front, first, middle, second.into())?;
    write_after(out, last, third.into())
}

/// Writes the name of an entry, a slot, and how its program failed or what kind of device it waits for.
fn write_kind(out: &mut String, name: &str, p: u8, kind: &str) -> Result<(), AllocError>
    ensures { OnOk result (string_bytes out.new ≡ string_bytes out.old ++ kind_json name.now p kind.now) }
{
    out.push_str(",\"entry\":\"")?;
    out.push_str(name)?;
    write_after(out, "\",\"slot\":", p.into())?;
    out.push_str(",\"kind\":\"")?;
    out.push_str(kind)?;
    out.push_str("\"")
}
