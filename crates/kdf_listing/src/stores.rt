//! The parts of a deck and its stores with their addresses.

use crate::layout::{Layout, Row, StatementKind};
use crate::spots::write_at;
use kdf_json::write_comma;
use std::alloc::AllocError;
use std::fmt::Write;

/// How many groups of Y-stores there are: Y, and YA to YZ.
pub const GROUPS: u8 = 27;

/// Writes each part: its number, the offset of its opening, and where its first order stands.
pub fn write_parts(out: &mut String, layout: &Layout<'_>) -> Result<(), AllocError> {
    let mut written: usize = 0;
    for row in layout.rows.iter() {
        if let StatementKind::Opening { part, count } = row.kind {
            write_comma(out, written)?;
            write_part(out, row, part, count)?;
            written = written.saturating_add(1);
        }
    }
    Ok(())
}

fn write_part(out: &mut String, row: &Row, part: u16, count: u64) -> Result<(), AllocError> {
    let place = row.place;
    write!(out, "{{\"part\":{part},\"offset\":{place},\"at\":")?;
    write_at(out, row.at.saturating_add(count.saturating_mul(6)))?;
    out.push_str("}")
}

/// Writes the stores that a deck names: the V-stores of each part, and then the Y-stores, which come after the last word in the order of their letters.
pub fn write_stores(out: &mut String, layout: &Layout<'_>) -> Result<(), AllocError> {
    let mut written: usize = 0;
    for row in layout.rows.iter() {
        if let StatementKind::Opening { part, count } = row.kind {
            if count > 0 {
                write_comma(out, written)?;
                write_v_stores(out, part, row.at / 6, count)?;
                written = written.saturating_add(1);
            }
        }
    }
    write_groups(out, &layout.rows, written)
}

fn write_v_stores(out: &mut String, part: u16, address: u64, count: u64) -> Result<(), AllocError> {
    write!(
        out,
        "{{\"name\":\"V\",\"part\":{part},\"address\":{address},\"count\":{count}}}"
    )
}

/// Writes the Y-stores after so many other stores.
fn write_groups(out: &mut String, rows: &[Row], others: usize) -> Result<(), AllocError> {
    let mut written = others;
    let mut address = end_of(rows);
    for group in 0..GROUPS {
        let count = count_in(rows, group);
        if count > 0 {
            write_comma(out, written)?;
            write_group(out, group, address, count)?;
            written = written.saturating_add(1);
            address = address.saturating_add(count);
        }
    }
    Ok(())
}

fn write_group(out: &mut String, group: u8, address: u64, count: u64) -> Result<(), AllocError> {
    out.push_str("{\"name\":\"Y")?;
    if group > 0 {
        out.push(char::from(b'@'.saturating_add(group)))?;
    }
    write!(
        out,
        "\",\"part\":null,\"address\":{address},\"count\":{count}}}"
    )
}

/// The address after the last word of a deck's orders.
pub fn end_of(rows: &[Row]) -> u64 {
    match rows.last() {
        Some(row) => row.at / 6,
        None => 0,
    }
}

/// How many stores of a group are declared. Nothing is declared below the first part.
pub fn count_in(rows: &[Row], wanted: u8) -> u64 {
    for row in rows {
        match row.kind {
            StatementKind::Declaration { group, count } if group == wanted => return count,
            StatementKind::Opening { .. } => return 0,
            _ => {}
        }
    }
    0
}
