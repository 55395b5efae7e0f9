//! Reading a printed report, and where it differs from a journal.
ghost use Rattle.std.specs.Prelude.{◌≡◌, ◌≢◌, ◌+◌, ◌^◌, ◌<◌, ◌∷◌, [], true, false, IfNone, IfSome, Some};
ghost use Rattle.kdf_text.specs.Ahead.{ahead};
ghost use Rattle.kdf_check.specs.Differs.{IsDifference};
ghost use Rattle.kdf_check.specs.Report.{begins_section, told_from};
ghost use Rattle.kdf_check.specs.Verdict.{told};

use kdf_journal::{Entry, read_entry};
use kdf_text::Lines;

/// Whether a line begins a section.
fn begins_section(line: &[u8]) -> bool
    ensures { result ≡ begins_section line.now }
{
    line.starts_with(b"SLOT ")
}

/// What the next line tells, or `None` where there is none, or it begins a section.
fn next_told(lines: &mut Lines) -> Option<Option<Entry>>
    ensures some { IfSome result (λ x. told_from (ahead lines.old) ≡ x ∷ told_from (ahead lines.new)) }
    ensures none { IfNone result (told_from (ahead lines.old) ≡ []) }
    ensures number { IfSome result (λ _. lines.new.number ≡ lines.old.number + 1) }
{
    if lines.rest.is_empty() {
        return None;
    }
    let line = lines.take_line();
    if begins_section(line.text) {
        None
    } else {
        Some(read_entry(line.text))
    }
}

/// Whether a line is there and tells this entry.
fn is_told(told: Option<Option<Entry>>, entry: &Entry) -> bool
    ensures same { result ≡ true → told ≡ Some (Some entry.now) }
    ensures apart { result ≡ false → told ≢ Some (Some entry.now) }
{
    match told {
        Some(Some(read)) => read == *entry,
        Some(None) | None => false,
    }
}

/// The first place, counted from 0, at which the lines tell other than these entries; `None` exactly where they tell just these.
pub fn first_difference(lines: Lines, entries: &[Entry]) -> Option<u32>
    ensures some { IfSome result (λ n. IsDifference (told_from (ahead lines.entry)) (told entries.now) n) }
    ensures none { IfNone result (told_from (ahead lines.entry) ≡ told entries.now) }
    ensures number { IfSome result (λ n. lines.entry.number + n < 2 ^ 32) }
{
    let mut lines = lines;
    let first = lines.number;
    for entry in entries {
        let place = lines.number - first;
        if !is_told(next_told(&mut lines), entry) {
            return Some(place);
        }
    }
    let end = lines.number - first;
    match next_told(&mut lines) {
        Some(_) => Some(end),
        None => None,
    }
}
