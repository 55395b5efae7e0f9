//! The transfers of a run.

use kdf_account::Unlocked;
use kdf_json::{write_after, write_comma, write_number};
use kdf_listing::{Deck, layout_of, write_order};
use kdf_qstore::Triple;
use std::alloc::AllocError;

/// A transfer: the program that began it by its own order `k`, its device, the calls with which it began and after which it ended, the syllable of
/// its order, the parts of its Q-store, how many words it moves, how many of them were moved before its end, and what it locked out.
#[derive(Clone, Copy)]
pub struct Flight {
    pub p: u8,
    pub d: u8,
    pub k: u32,
    pub began: u32,
    pub ended: Option<u32>,
    pub at: Option<u16>,
    pub q: Option<Triple>,
    pub total: u16,
    pub moved: u16,
    pub locked: Option<Unlocked>,
}

/// Writes each transfer, with the statement of its order.
pub fn write_flights(
    out: &mut String,
    flights: &[Flight],
    decks: &[Deck<'_>],
) -> Result<(), AllocError> {
    for (i, flight) in flights.iter().enumerate() {
        write_comma(out, i)?;
        write_flight(out, flight)?;
        write_order(out, flight.at, layout_of(decks, flight.p))?;
        write_area(out, flight)?;
        out.push_str("}")?;
    }
    Ok(())
}

fn write_flight(out: &mut String, flight: &Flight) -> Result<(), AllocError> {
    let Flight {
        p,
        d,
        k,
        began,
        ended,
        total,
        moved,
        ..
    } = *flight;
    write_after(out, "{\"slot\":", p.into())?;
    write_after(out, ",\"order\":", k.into())?;
    write_after(out, ",\"device\":", d.into())?;
    write_after(out, ",\"began\":", began.into())?;
    out.push_str(",\"ended\":")?;
    write_number(out, ended)?;
    write_after(out, ",\"words\":", total.into())?;
    write_after(out, ",\"moved\":", moved.into())
}

/// Writes the first and the last address of the area of a transfer, and its groups.
fn write_area(out: &mut String, flight: &Flight) -> Result<(), AllocError> {
    match (flight.locked, flight.q) {
        (Some(groups), Some(q)) => {
            write_pair(out, ",\"area\":[", q.i, q.m)?;
            write_pair(out, ",\"groups\":[", groups.first, groups.last)
        }
        (Some(groups), None) => {
            write_pair(
                out,
                ",\"area\":null,\"groups\":[",
                groups.first,
                groups.last,
            )
        }
        (None, _) => out.push_str(",\"area\":null,\"groups\":null"),
    }
}

/// Writes the two items of a list that begins so.
fn write_pair(out: &mut String, front: &str, first: u16, last: u16) -> Result<(), AllocError> {
    write_after(out, front, first.into())?;
    write_after(out, ",", last.into())?;
    out.push(']')
}
