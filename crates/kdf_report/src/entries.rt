//! The lines of a journal.
ghost use Rattle.std.specs.Prelude.{◌≡◌, [], ◌∷◌, ◌++◌, map, OnOk, codes, decimal, string_bytes};
ghost use Rattle.kdf_text.specs.Text.{Adds};
ghost use Rattle.kdf_report.specs.Text.{entry_line};

use crate::decimals::{write_after, write_number};
use kdf_journal::{Entry, Journal};
use std::alloc::AllocError;

/// Writes the line of each entry of a journal, the oldest first. Without memory nothing is said of `out`.
pub fn write_entries(out: &mut String, journal: &Journal) -> Result<(), AllocError>
    ensures { OnOk result (Adds out.old out.new (map entry_line journal.now.entries)) }
{
    write_each(out, journal.entries())
}

#[tactic(auto, unfolding(kdf_text::specs::Text::text))]
fn write_each(out: &mut String, entries: &[Entry]) -> Result<(), AllocError>
    ensures { OnOk result (Adds out.old out.new (map entry_line entries.now)) }
{
    for entry in entries {
        write_entry(out, entry)?;
    }
    Ok(())
}

fn write_entry(out: &mut String, entry: &Entry) -> Result<(), AllocError>
    ensures { OnOk result (Adds out.old out.new (entry_line entry.now ∷ [])) }
{
    match *entry {
        Entry::Ran { p, n } => write_two(out, "RAN ", p, n.into()),
        Entry::Start { p, d, k } => write_three(out, "START ", p, d.into(), k.into()),
        Entry::Answer { p, v } => write_two(out, "ANSWER ", p, v),
        Entry::Take { p, d } => write_two(out, "TAKE ", p, d.into()),
        Entry::Give { p, d } => write_two(out, "GIVE ", p, d.into()),
        Entry::Fail { p, kind } => write_named(out, "FAIL ", p, kind.name()),
        Entry::Ended { p } => write_one(out, "ENDED ", p.into()),
        Entry::Lov { p, group } => write_two(out, "LOV ", p, group.into()),
        Entry::Busy { p, d } => write_two(out, "BUSY ", p, d.into()),
        Entry::Wait { p, kind } => write_named(out, "WAIT ", p, kind.name()),
        Entry::Idle { n } => write_one(out, "IDLE ", n.into()),
        Entry::Move { d, n } => write_two(out, "MOVE ", d, n.into()),
        Entry::End { d } => write_one(out, "END ", d.into()),
        Entry::Clock { t } => write_one(out, "CLOCK ", t),
        Entry::Swap { p, q } => write_two(out, "SWAP ", p, q.into()),
    }
}

/// A line that ends with a number. Its start is mostly a literal, which is copied as one word or two where this is
/// compiled into the call; so are the others.
#[inline(always)]
#[tactic(auto, unfolding(kdf_text::specs::Text::text))]
pub(crate) fn write_one(out: &mut String, start: &str, n: u64) -> Result<(), AllocError>
    ensures { OnOk result (Adds out.old out.new ((start.now ++ decimal n) ∷ [])) }
{
    out.push_str(start)?;
    write_number(out, n)?;
    write_line_end(out)
}

/// The start of a line, a small number and another.
#[inline(always)]
fn write_start(out: &mut String, start: &str, first: u8, second: u64) -> Result<(), AllocError>
    ensures { OnOk result (string_bytes out.new
        ≡ string_bytes out.old ++ start.now ++ decimal first ++ codes " " ++ decimal second) }
{
    out.push_str(start)?;
    write_number(out, first.into())?;
    write_after(out, second)
}

/// A line that ends with a small number and another.
#[inline(always)]
#[tactic(auto, unfolding(kdf_text::specs::Text::text))]
fn write_two(out: &mut String, start: &str, first: u8, second: u64) -> Result<(), AllocError>
    ensures { OnOk result (Adds out.old out.new (
        (start.now ++ decimal first ++ codes " " ++ decimal second) ∷ [])) }
{
    write_start(out, start, first, second)?;
    write_line_end(out)
}

/// A line that ends with a small number and two others.
#[inline(always)]
#[tactic(auto, unfolding(kdf_text::specs::Text::text))]
fn write_three(
    out: &mut String,
    start: &str,
    first: u8,
    second: u64,
    third: u64,
) -> Result<(), AllocError>
    ensures { OnOk result (Adds out.old out.new (
        (start.now ++ decimal first ++ codes " " ++ decimal second ++ codes " " ++ decimal third) ∷ [])) }
{
    write_start(out, start, first, second)?;
    write_after(out, third)?;
    write_line_end(out)
}

/// A line that ends with the number of a program, and how it failed or what it waits for.
#[inline(always)]
#[tactic(auto, unfolding(kdf_text::specs::Text::text))]
fn write_named(out: &mut String, start: &str, p: u8, what: &str) -> Result<(), AllocError>
    ensures { OnOk result (Adds out.old out.new (
        (start.now ++ decimal p ++ codes " " ++ what.now) ∷ [])) }
{
    out.push_str(start)?;
    write_number(out, p.into())?;
    out.push(' ')?;
    out.push_str(what)?;
    write_line_end(out)
}

#[inline(always)]
fn write_line_end(out: &mut String) -> Result<(), AllocError>
    ensures { OnOk result (string_bytes out.new ≡ string_bytes out.old ++ 10 ∷ []) }
{
    out.push('\n')
}
