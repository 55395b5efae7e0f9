//! Which program is next.
ghost use Rattle.std.specs.Prelude.{◌≡◌, ℕ, find};
ghost use Rattle.std.specs.List.{list_any};
ghost use Rattle.kdf_processor.specs.Lone.{is_live};
ghost use Rattle.kdf_check.specs.Around.{around_by};
ghost use Rattle.kdf_check.specs.Keeps.{goes, is_on, is_stopped, place_at};

use crate::pool::first_free;
use crate::program::Program;
use crate::table::Table;
use kdf_journal::Journal;
use kdf_processor::{Life, Need};

/// Whether a program runs.
fn is_live(life: Life) -> bool
    ensures { result ≡ is_live life }
{
    match life {
        Life::Live => true,
        Life::Ended | Life::Failed(_) => false,
    }
}

/// Whether a place has a program that is live.
fn is_on(place: &Option<Program>) -> bool
    ensures { result ≡ is_on place.now }
{
    match place {
        Some(program) => is_live(program.registers.state),
        None => false,
    }
}

/// Whether a program is live.
pub fn is_any_on(programs: &[Option<Program>]) -> bool
    ensures { result ≡ list_any is_on programs.now }
{
    programs.iter().any(|place| is_on(place))
}

/// Whether what held a program is pending still.
fn is_stopped(table: &Table, journal: &Journal, program: &Program) -> bool
    ensures { result ≡ is_stopped (around_by table.now.places journal.now.entries 0) program.now program.now.hold }
{
    match program.hold {
        None => false,
        Some(Need::Group(group)) => table.is_out(program.p, group),
        Some(Need::Device(d)) => table.is_busy(d),
        Some(Need::Pool(kind)) => first_free(journal, &program.bench, kind).is_none(),
    }
}

/// Whether a place has a program that is live, and that nothing holds up still.
fn goes(table: &Table, journal: &Journal, place: &Option<Program>) -> bool
    ensures { result ≡ goes (around_by table.now.places journal.now.entries 0) place.now }
{
    match place {
        Some(program) => is_live(program.registers.state) && !is_stopped(table, journal, program),
        None => false,
    }
}

/// Whether the program of slot `p` is there, is live, and isn't held up still.
fn goes_at(table: &Table, journal: &Journal, programs: &[Option<Program>], p: u8) -> bool
    ensures { result ≡ goes (around_by table.now.places journal.now.entries 0) (place_at programs.now p) }
{
    match programs.get(usize::from(p)) {
        Some(place) => goes(table, journal, place),
        None => false,
    }
}

/// The program that is next by these priorities, if one is.
pub fn next_of(
    table: &Table,
    journal: &Journal,
    programs: &[Option<Program>],
    priorities: &[u8; 4],
) -> Option<u8>
    ensures { result
        ≡ find (λ (p : ℕ). goes (around_by table.now.places journal.now.entries 0) (place_at programs.now p))
        priorities.now }
{
    for p in priorities {
        if goes_at(table, journal, programs, *p) {
            return Some(*p);
        }
    }
    None
}
