//! Reads what the names of a deck mean.
ghost use Rattle.std.specs.Prelude.{ℕ, ◌≡◌, ◌<◌, ◌≤◌, ◌^◌, [], ◌++◌, length, map, IfOk};
ghost use Rattle.kdf_usercode.specs.Faults.{lesser, least};
ghost use Rattle.kdf_usercode.specs.declared.fault.DeckFault.TheVariants.{PartTwice, ReferenceTwice, VRange};
ghost use Rattle.kdf_place.specs.Layout.{front};
ghost use Rattle.kdf_place.specs.Late.{twice};
ghost use Rattle.kdf_place.specs.Names.{first, names, openings, labels, constants};
ghost use Rattle.kdf_place.specs.Placement.{label_of};
ghost use Rattle.kdf_place.specs.Tables.{meaning};

use crate::entries::{constants, end_of, groups, labels, openings};
use crate::here::words_for;
use crate::image::Label;
use crate::late::Best;
use crate::names::{Mark, Meanings, Opening};
use crate::picture::labels_of;
use crate::table::Table;
use crate::twice::table;
use kdf_fault::earlier;
use kdf_usercode::{DeckFault, Statement};
use std::alloc::{AllocError, Global};

/// What is known of a deck before its orders are looked at.
#[derive(Drop)]
pub struct Known {
    /// What its names mean.
    pub meanings: Meanings,
    /// The references of its image, in the order of the deck.
    pub labels: Vec<Label>,
    /// The first name that stands twice.
    pub twice: Best,
}

/// The first of two faults, where there are any.
fn first_of(x: Best, y: Best) -> Best
    ensures { result ≡ lesser x y }
{
    match y {
        None => x,
        Some(found) => earlier(x, found),
    }
}

/// What the numbers of the parts mean, and the first part whose number stood before.
fn parts_of(alloc: Global, statements: &[Statement]) -> Result<(Table<Opening>, Best), AllocError>
    requires { length statements.now < 2 ^ 40 }
    ensures means { IfOk result (λ r. (p n : ℕ)
        → first p n r.0.entries.items ≡ first p n (openings front statements.now)) }
    ensures twice { IfOk result (λ r. r.1 ≡ least (twice PartTwice [] (openings front statements.now))) }
{
    table(DeckFault::PartTwice, openings(alloc, statements)?)
}

/// The references of the image, in the order of the deck, what they mean, and the first that stood before.
fn references_of(
    alloc: Global,
    statements: &[Statement],
) -> Result<(Vec<Label>, Table<Mark>, Best), AllocError>
    requires { length statements.now < 2 ^ 40 }
    ensures labels { IfOk result (λ r. r.0.items ≡ map label_of (labels front statements.now)) }
    ensures means { IfOk result (λ r. (p n : ℕ)
        → first p n r.1.entries.items ≡ first p n (labels front statements.now)) }
    ensures twice { IfOk result (λ r. r.2 ≡ least (twice ReferenceTwice [] (labels front statements.now))) }
{
    let marks = labels(alloc, statements)?;
    let in_image = labels_of(alloc, &marks)?;
    let (table, twice) = table(DeckFault::ReferenceTwice, marks)?;
    Ok((in_image, table, twice))
}

/// The first V-store that has a constant twice.
fn store_twice(alloc: Global, statements: &[Statement]) -> Result<Best, AllocError>
    requires { length statements.now < 2 ^ 40 }
    ensures { IfOk result (λ found. found ≡ least (twice VRange [] (constants front statements.now))) }
{
    let (_, found) = table(DeckFault::VRange, constants(alloc, statements)?)?;
    Ok(found)
}

/// What the names of these statements mean: the first statement that says so.
pub fn read_names(alloc: Global, statements: &[Statement]) -> Result<Known, AllocError>
    requires { length statements.now < 2 ^ 40 }
    ensures names { IfOk result (λ known. meaning known.meanings ≡ names statements.now) }
    ensures labels { IfOk result (λ known.
        known.labels.items ≡ map label_of (labels front statements.now)) }
    ensures twice { IfOk result (λ known. known.twice ≡ least (
        twice PartTwice [] (openings front statements.now)
        ++ twice ReferenceTwice [] (labels front statements.now)
        ++ twice VRange [] (constants front statements.now))) }
    ensures small { IfOk result (λ known. known.meanings.behind < 2 ^ 60) }
{
    let store_twice = store_twice(alloc, statements)?;
    let (in_image, labels, label_twice) = references_of(alloc, statements)?;
    let (parts, part_twice) = parts_of(alloc, statements)?;
    Ok(Known {
        meanings: Meanings {
            parts,
            labels,
            groups: groups(statements),
            behind: words_for(end_of(statements)),
        },
        labels: in_image,
        twice: first_of(part_twice, first_of(label_twice, store_twice)),
    })
}
