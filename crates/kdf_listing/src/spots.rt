//! Where a statement stands: in the job, in the store and in its deck.

use crate::layout::{Layout, Row};
use kdf_json::{Spot, write_after};
use std::alloc::AllocError;

/// Writes a line and a column.
pub fn write_spot(out: &mut String, spot: Spot) -> Result<(), AllocError> {
    let Spot { line, column } = spot;
    write_after(out, "\"line\":", line.into())?;
    write_after(out, ",\"column\":", column.into())
}

/// Writes a word and a syllable.
pub fn write_at(out: &mut String, at: u64) -> Result<(), AllocError> {
    write_after(out, "[", at / 6)?;
    write_after(out, ",", at % 6)?;
    out.push(']')
}

/// Writes where an order stands, in the store and in the deck.
pub fn write_order(
    out: &mut String,
    at: Option<u16>,
    layout: Option<&Layout<'_>>,
) -> Result<(), AllocError> {
    let Some(at) = at else {
        return out.push_str(",\"at\":null,\"statement\":null");
    };
    let row = match layout {
        Some(layout) => layout.order_at(at),
        None => None,
    };
    write_after(out, ",\"at\":[", u64::from(at / 6))?;
    write_after(out, ",", u64::from(at % 6))?;
    match row {
        Some(row) => write_statement(out, &row),
        None => out.push_str("],\"statement\":null"),
    }
}

/// Writes where the statement of an order stands in the deck, after where it stands in the store.
fn write_statement(out: &mut String, row: &Row) -> Result<(), AllocError> {
    let Spot { line, column } = row.spot;
    write_after(out, "],\"statement\":{\"offset\":", row.place.into())?;
    write_after(out, ",\"line\":", line.into())?;
    write_after(out, ",\"column\":", column.into())?;
    out.push('}')
}
