//! What the statements of a deck give a meaning to, in the order of the deck.
ghost use Rattle.std.specs.Prelude.{ℕ, ◌≡◌, ◌<◌, ◌≤◌, ◌^◌, ◌||◌, ◌++◌, if◌then◌else◌, length, IfOk, OnOk};
ghost use Rattle.kdf_place.specs.Layout.{end_of, is_order, is_opening, next_order, front};
ghost use Rattle.kdf_place.specs.Names.{part_opened, opening, openings, label_at, labels, constant_at, constants, with_group, groups};
ghost use Rattle.kdf_place.specs.Pending.{settled, waiting};

use crate::here::{Here, Section, advance, is_opening, is_order};
use crate::names::{Entry, Mark, Opening};
use kdf_usercode::{Statement, What};
use std::alloc::{AllocError, Global};

/// The number of the part that a statement opens.
fn part_opened(what: &What) -> Option<u16>
    ensures { result ≡ part_opened what.now }
{
    match what {
        What::Program { .. } => Some(0),
        What::Part { p, .. } => Some(*p),
        _ => None,
    }
}

/// The next order of the part from `at` on, or where one would stand after its last statement.
fn next_order(at: u64, statements: &[Statement]) -> u64
    requires near { at < 2 ^ 61 }
    requires few { length statements.now < 2 ^ 40 }
    ensures { result ≡ next_order at statements.now }
{
    let mut at = at;
    for statement in statements {
        if is_order(&statement.what) || is_opening(&statement.what) {
            return at;
        }
        at = advance(at, &statement.what);
    }
    at
}

/// Puts the part that a statement opens, if it opens one, after the others. `here` and `later` are what comes after it.
fn push_opening(
    openings: &mut Vec<Entry<Opening>>,
    statement: &Statement,
    here: Here,
    later: &[Statement],
) -> Result<(), AllocError>
    requires near { here.at < 2 ^ 61 }
    requires few { length later.now < 2 ^ 40 }
    ensures { OnOk result (openings.new.items ≡ openings.old.items
        ++ opening (part_opened statement.now.what) here.section (next_order here.at later.now) statement.now.place) }
{
    if let Some(number) = part_opened(&statement.what) {
        let first = next_order(here.at, later);
        openings.push(Entry {
            section: 0,
            number,
            means: Opening {
                section: here.section,
                first,
            },
            place: statement.place,
        })?;
    }
    Ok(())
}

/// The parts by their numbers, each with its first order.
pub fn openings(alloc: Global, statements: &[Statement]) -> Result<Vec<Entry<Opening>>, AllocError>
    requires { length statements.now < 2 ^ 40 }
    ensures { IfOk result (λ v. v.items ≡ openings front statements.now) }
{
    let mut openings = Vec::new(alloc);
    let mut here = Here::front();
    for (i, statement) in statements.iter().enumerate() {
        here = here.after(statement);
        push_opening(&mut openings, statement, here, &statements[i + 1..])?;
    }
    Ok(openings)
}

/// The order of these references stands at `at`.
fn settle(labels: &mut [Entry<Mark>], at: u64)
    ensures { labels.new ≡ settled labels.old at }
{
    for label in labels.iter_mut() {
        label.means.at = at;
    }
}

/// The order of the references from number `known` on stands at `at`.
fn settle_from(labels: &mut Vec<Entry<Mark>>, known: usize, at: u64)
    requires { known ≤ length labels.old.items }
    ensures { labels.new.items ≡ waiting known labels.old.items at }
{
    settle(&mut labels[known..], at);
}

/// Where an order or the opening of a part stands at `at`, that is what the references from number `known` on mean. The
/// answer is from which number on they still wait.
fn settle_before(labels: &mut Vec<Entry<Mark>>, known: usize, what: &What, at: u64) -> usize
    requires { known ≤ length labels.old.items }
    ensures within { result ≤ length labels.new.items }
    ensures settled { (later : ℕ) → waiting result labels.new.items later ≡ waiting known labels.old.items
        (if is_order what.now || is_opening what.now then at else later) }
{
    if is_order(what) || is_opening(what) {
        settle_from(labels, known, at);
        labels.len()
    } else {
        known
    }
}

/// Puts the reference that a statement is, if it is one, after the others, as if its order stood here.
fn push_label(
    labels: &mut Vec<Entry<Mark>>,
    statement: &Statement,
    here: Here,
) -> Result<(), AllocError>
    ensures { OnOk result (labels.new.items ≡ labels.old.items
        ++ label_at statement.now.what here.section here.at statement.now.place) }
{
    if let What::Reference { r } = statement.what {
        labels.push(Entry {
            section: here.section.opened,
            number: r,
            means: Mark {
                part: here.section.part,
                at: here.at,
            },
            place: statement.place,
        })?;
    }
    Ok(())
}

/// The references, each with the next order of its part.
pub fn labels(alloc: Global, statements: &[Statement]) -> Result<Vec<Entry<Mark>>, AllocError>
    requires { length statements.now < 2 ^ 40 }
    ensures { IfOk result (λ v. v.items ≡ labels front statements.now) }
{
    let mut labels = Vec::new(alloc);
    let mut known = 0;
    let mut here = Here::front();
    for statement in statements {
        known = settle_before(&mut labels, known, &statement.what, here.at);
        push_label(&mut labels, statement, here)?;
        here = here.after(statement);
    }
    settle_from(&mut labels, known, here.at);
    Ok(labels)
}

/// Puts the V-store that a statement gives a constant, if it gives one, after the others.
fn push_constant(
    constants: &mut Vec<Entry<()>>,
    statement: &Statement,
    section: Section,
) -> Result<(), AllocError>
    ensures { OnOk result (constants.new.items
        ≡ constants.old.items ++ constant_at statement.now.what section statement.now.place) }
{
    if let What::Constant { n, .. } = statement.what {
        constants.push(Entry {
            section: section.opened,
            number: n,
            means: (),
            place: statement.place,
        })?;
    }
    Ok(())
}

/// The V-stores that have a constant.
pub fn constants(alloc: Global, statements: &[Statement]) -> Result<Vec<Entry<()>>, AllocError>
    requires { length statements.now < 2 ^ 40 }
    ensures { IfOk result (λ v. v.items ≡ constants front statements.now) }
{
    let mut constants = Vec::new(alloc);
    let mut here = Here::front();
    for statement in statements {
        push_constant(&mut constants, statement, here.section)?;
        here = here.after(statement);
    }
    Ok(constants)
}

/// The words of the groups, with what a statement declares.
fn declare(groups: &mut [u32; 27], what: &What)
    ensures { groups.new ≡ with_group groups.old what.now }
{
    if let What::Declare { group, n } = what {
        if usize::from(*group) < groups.len() {
            groups[usize::from(*group)] = u32::from(*n) + 1;
        }
    }
}

/// How many words each of the groups Y, YA, .. YZ has.
pub fn groups(statements: &[Statement]) -> [u32; 27]
    ensures { result ≡ groups statements.now }
{
    let mut groups = [0; 27];
    for statement in statements {
        declare(&mut groups, &statement.what);
    }
    groups
}

/// The syllable after all statements.
pub fn end_of(statements: &[Statement]) -> u64
    requires { length statements.now < 2 ^ 40 }
    ensures value { result ≡ end_of front statements.now }
    ensures small { result < 2 ^ 60 }
{
    let mut here = Here::front();
    for statement in statements {
        here = here.after(statement);
    }
    here.at
}
