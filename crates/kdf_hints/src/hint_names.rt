//! What a deck has where a statement names a reference, a part or a store that it hasn't; and where it has what comes a second time.

use crate::hint::{
    write_begin, write_between, write_close, write_none, write_part, write_place, write_plain,
    write_value,
};
use crate::hint_deck::Faulty;
use crate::hint_stores::{write_v_hint, write_y_hint};
use kdf_job::TEXT_LIMIT;
use kdf_usercode::{DeckError, DeckFault, Statement, What, read_deck};
use std::alloc::{AllocError, Global};
use std::fmt::Write;

/// Writes the hint on a name in a deck whose statements have a form each.
pub fn write_names_hint(
    alloc: Global,
    out: &mut String,
    faulty: Faulty<'_>,
) -> Result<(), AllocError> {
    if faulty.text.len() > TEXT_LIMIT {
        return write_none(out);
    }
    match read_deck(alloc, faulty.text) {
        Ok(deck) => write_in_deck(out, faulty, &deck.statements),
        Err(DeckError::Memory) => Err(AllocError),
        Err(DeckError::Fault(_, _)) => write_none(out),
    }
}

/// Writes the hint on a statement of a deck.
fn write_in_deck(
    out: &mut String,
    faulty: Faulty<'_>,
    all: &[Statement],
) -> Result<(), AllocError> {
    match find(all, faulty.place) {
        Some(found) => write_named(out, faulty, all, found),
        None => write_none(out),
    }
}

/// A statement, and the part in which it stands: the index of its opening, and its number.
#[derive(Clone, Copy)]
pub struct Found {
    pub what: What,
    pub place: u32,
    pub opening: usize,
    pub part: u16,
}

/// The statement at a place.
fn find(all: &[Statement], place: u32) -> Option<Found> {
    let mut opening = 0;
    let mut own = 0;
    for (i, statement) in all.iter().enumerate() {
        if statement.place == place {
            return Some(Found {
                what: statement.what,
                place,
                opening,
                part: own,
            });
        }
        if let Some(part) = part_of(&statement.what) {
            opening = i;
            own = part;
        }
    }
    None
}

/// The number of the part that a statement opens.
fn part_of(what: &What) -> Option<u16> {
    match what {
        What::Program { .. } => Some(0),
        What::Part { p, .. } => Some(*p),
        _ => None,
    }
}

/// The first opening of the part of a number, as an index.
pub fn opening_of(all: &[Statement], number: u16) -> Option<usize> {
    for (i, statement) in all.iter().enumerate() {
        if part_of(&statement.what) == Some(number) {
            return Some(i);
        }
    }
    None
}

/// The statements of a deck after an opening, to its end.
pub fn after_opening(all: &[Statement], opening: usize) -> &[Statement] {
    if opening < all.len() {
        &all[opening + 1..]
    } else {
        &[]
    }
}

/// Whether a statement opens a part.
pub fn is_opening(what: &What) -> bool {
    part_of(what).is_some()
}

fn write_named(
    out: &mut String,
    faulty: Faulty<'_>,
    all: &[Statement],
    found: Found,
) -> Result<(), AllocError> {
    match faulty.fault {
        DeckFault::ReferenceTwice => write_first_reference(out, faulty, all, found),
        DeckFault::ReferenceMissing => write_references_hint(out, all, found),
        DeckFault::PartTwice => write_first_part(out, faulty, all, found),
        DeckFault::PartMissing => write_parts_hint(out, all),
        DeckFault::VRange => write_v_hint(out, all, found),
        DeckFault::YRange => write_y_hint(out, all, found),
        _ => write_none(out),
    }
}

/// Writes where a part has a reference first.
fn write_first_reference(
    out: &mut String,
    faulty: Faulty<'_>,
    all: &[Statement],
    found: Found,
) -> Result<(), AllocError> {
    match found.what {
        What::Reference { r } => match place_of(after_opening(all, found.opening), r) {
            Some(place) => {
                write_begin(out, "first_reference")?;
                write_value(out, "number", u64::from(r))?;
                write_part_value(out, found.part)?;
                write_place(out, faulty.spot(place))?;
                write_close(out)
            }
            None => write_none(out),
        },
        _ => write_none(out),
    }
}

/// The place of the first reference of a number in a part.
fn place_of(part: &[Statement], number: u16) -> Option<u32> {
    for statement in part {
        match statement.what {
            What::Reference { r } if r == number => return Some(statement.place),
            _ => {}
        }
    }
    None
}

/// Writes the value that is a part.
fn write_part_value(out: &mut String, part: u16) -> Result<(), AllocError> {
    out.push_str(",\"part\":\"")?;
    write_part(out, part)?;
    out.push('"')
}

/// Writes which references a part has that a jump names.
fn write_references_hint(
    out: &mut String,
    all: &[Statement],
    found: Found,
) -> Result<(), AllocError> {
    let number = match found.what {
        What::Go { target, .. } => target.p,
        _ => None,
    };
    let part = number.unwrap_or(found.part);
    let opening = match number {
        Some(number) => opening_of(all, number),
        None => Some(found.opening),
    };
    match opening {
        Some(opening) => write_references_of(out, after_opening(all, opening), part),
        None => write_none(out),
    }
}

/// Writes the references that these statements of a part have.
fn write_references_of(
    out: &mut String,
    statements: &[Statement],
    part: u16,
) -> Result<(), AllocError> {
    let all = count_references(statements);
    let name = match all {
        0 => "no_references",
        1 => "reference",
        _ => "references",
    };
    write_begin(out, name)?;
    write_part_value(out, part)?;
    out.push_str(",\"numbers\":\"")?;
    write_references(out, statements, all)?;
    out.push('"')?;
    write_close(out)
}

/// How many references stand before the next part.
fn count_references(statements: &[Statement]) -> u32 {
    let mut all = 0u32;
    for statement in statements {
        match statement.what {
            What::Reference { .. } => all = all.saturating_add(1),
            What::Program { .. } | What::Part { .. } => return all,
            _ => {}
        }
    }
    all
}

/// Writes the references before the next part, of which there are so many.
fn write_references(
    out: &mut String,
    statements: &[Statement],
    all: u32,
) -> Result<(), AllocError> {
    let mut written = 0u32;
    for statement in statements {
        match statement.what {
            What::Reference { r } => {
                write_between(out, written, all)?;
                write!(out, "{r}")?;
                written = written.saturating_add(1);
            }
            What::Program { .. } | What::Part { .. } => return Ok(()),
            _ => {}
        }
    }
    Ok(())
}

/// Writes where a part was opened first.
fn write_first_part(
    out: &mut String,
    faulty: Faulty<'_>,
    all: &[Statement],
    found: Found,
) -> Result<(), AllocError> {
    for statement in all {
        if part_of(&statement.what) == part_of(&found.what) {
            write_begin(out, "first_part")?;
            write_value(out, "number", u64::from(part_of(&found.what).unwrap_or(0)))?;
            write_place(out, faulty.spot(statement.place))?;
            return write_close(out);
        }
    }
    write_none(out)
}

/// Writes which parts a deck has besides its main part.
fn write_parts_hint(out: &mut String, all: &[Statement]) -> Result<(), AllocError> {
    let parts = count_parts(all);
    if parts == 0 {
        return write_plain(out, "no_parts");
    }
    write_begin(out, "parts")?;
    out.push_str(",\"parts\":\"")?;
    write_parts(out, all, parts)?;
    out.push('"')?;
    write_close(out)
}

fn count_parts(all: &[Statement]) -> u32 {
    let mut parts = 0u32;
    for statement in all {
        if let What::Part { .. } = statement.what {
            parts = parts.saturating_add(1);
        }
    }
    parts
}

fn write_parts(out: &mut String, all: &[Statement], parts: u32) -> Result<(), AllocError> {
    let mut written = 0u32;
    for statement in all {
        if let What::Part { p, .. } = statement.what {
            write_between(out, written, parts)?;
            write!(out, "P{p}")?;
            written = written.saturating_add(1);
        }
    }
    Ok(())
}
