//! Which stores a deck has where a statement names one that it hasn't, or sets one twice.

use crate::hint::{write_begin, write_close, write_none, write_part, write_value};
use crate::hint_names::{Found, after_opening, is_opening, opening_of};
use kdf_usercode::{Item, Named, Statement, Value, What};
use std::alloc::AllocError;

/// Writes which V-stores the part has that a statement names, or that its store has a constant already.
pub fn write_v_hint(out: &mut String, all: &[Statement], found: Found) -> Result<(), AllocError> {
    if let What::Constant { n, .. } = found.what {
        if u32::from(n) >= count_at(all, found.opening) {
            return write_v_stores(out, all, found.opening, found.part);
        }
        if is_set_before(after_opening(all, found.opening), n, found.place) {
            write_begin(out, "constant_twice")?;
            write_value(out, "number", u64::from(n))?;
            return write_close(out);
        }
    }
    for named in stores_of(&found.what) {
        if let Some(Named::V { n, p }) = named {
            let part = p.unwrap_or(found.part);
            let opening = opening_named(all, found, p);
            if u32::from(n) >= count_at(all, opening) {
                return write_v_stores(out, all, opening, part);
            }
        }
    }
    write_none(out)
}

/// The index of the opening of a part that a store names, or else of its own.
fn opening_named(all: &[Statement], found: Found, part: Option<u16>) -> usize {
    match part {
        Some(part) => opening_of(all, part).unwrap_or(found.opening),
        None => found.opening,
    }
}

/// The stores that a statement names.
fn stores_of(what: &What) -> [Option<Named>; 3] {
    match *what {
        What::Fetch { place, .. } | What::Keep { place, .. } | What::SetAddress { place } => {
            [Some(place), None, None]
        }
        What::Constant {
            value: Value::Triple { c, i, m },
            ..
        } => [address_in(c), address_in(i), address_in(m)],
        _ => [None, None, None],
    }
}

/// The store whose address is a part of a constant.
fn address_in(item: Item) -> Option<Named> {
    match item {
        Item::Address { place } => Some(place),
        Item::Bits { .. } => None,
    }
}

/// How many V-stores the opening of this index declares.
fn count_at(all: &[Statement], opening: usize) -> u32 {
    match all.get(opening) {
        Some(statement) => match statement.what {
            What::Program { v } | What::Part { v, .. } => count_of(v),
            _ => 0,
        },
        None => 0,
    }
}

/// How many stores there are up to this one.
fn count_of(last: Option<u16>) -> u32 {
    match last {
        Some(last) => u32::from(last).saturating_add(1),
        None => 0,
    }
}

/// Whether a V-store of a part has a constant before a place.
fn is_set_before(part: &[Statement], store: u16, place: u32) -> bool {
    for statement in part {
        if statement.place >= place || is_opening(&statement.what) {
            return false;
        }
        match statement.what {
            What::Constant { n, .. } if n == store => return true,
            _ => {}
        }
    }
    false
}

/// Writes which V-stores a part has.
fn write_v_stores(
    out: &mut String,
    all: &[Statement],
    opening: usize,
    part: u16,
) -> Result<(), AllocError> {
    let count = count_at(all, opening);
    write_begin(out, name_of(count))?;
    out.push_str(",\"owner\":\"")?;
    write_part(out, part)?;
    out.push_str(" has\",\"group\":\"V\"")?;
    write_highest(out, count)?;
    write_close(out)
}

/// The name of the hint on so many stores.
fn name_of(count: u32) -> &'static str {
    match count {
        0 => "no_stores",
        1 => "one_store",
        _ => "stores",
    }
}

/// Writes the highest of several stores.
fn write_highest(out: &mut String, count: u32) -> Result<(), AllocError> {
    if count > 1 {
        write_value(out, "highest", u64::from(count.saturating_sub(1)))
    } else {
        Ok(())
    }
}

/// Writes which stores of the group are declared that a statement names.
pub fn write_y_hint(out: &mut String, all: &[Statement], found: Found) -> Result<(), AllocError> {
    for named in stores_of(&found.what) {
        if let Some(Named::Y { group, n }) = named {
            let count = declared(all, group);
            if u32::from(n) >= count {
                return write_y_stores(out, group, count);
            }
        }
    }
    write_none(out)
}

/// How many stores of a group a deck declares.
fn declared(all: &[Statement], wanted: u8) -> u32 {
    for statement in all {
        match statement.what {
            What::Declare { group, n } if group == wanted => return count_of(Some(n)),
            What::Program { .. } => return 0,
            _ => {}
        }
    }
    0
}

fn write_y_stores(out: &mut String, group: u8, count: u32) -> Result<(), AllocError> {
    write_begin(out, name_of(count))?;
    out.push_str(",\"owner\":\"the deck declares\",\"group\":\"Y")?;
    if group > 0 {
        out.push(char::from(b'@'.saturating_add(group)))?;
    }
    out.push('"')?;
    write_highest(out, count)?;
    write_close(out)
}
