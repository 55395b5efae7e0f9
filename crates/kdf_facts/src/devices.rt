//! The devices of a job in its run.

use kdf_job::{Job, SlotJob};
use kdf_json::{write_comma, write_number};
use kdf_trace::Flight;
use std::alloc::AllocError;
use std::fmt::Write;

/// How many transfers a device had, in how many calls it had one, and how many words were moved.
#[derive(Clone, Copy)]
struct Use {
    transfers: u32,
    busy: u32,
    words: u32,
}

/// Writes each device: those of the slots in the order of the job, and those of the pool.
pub fn write_devices(
    out: &mut String,
    job: &Job,
    flights: &[Flight],
    calls: u32,
) -> Result<(), AllocError> {
    let mut written = 0;
    for slot in job.slots.iter() {
        written = write_own(out, written, slot, flights, calls)?;
    }
    for (d, kind) in job.pool.iter() {
        write_comma(out, written)?;
        written = 1;
        write_device(out, *d, None, kind.name(), use_of(*d, flights, calls))?;
    }
    Ok(())
}

fn write_own(
    out: &mut String,
    written: usize,
    slot: &SlotJob,
    flights: &[Flight],
    calls: u32,
) -> Result<usize, AllocError> {
    let mut written = written;
    for (d, device) in slot.devices.iter() {
        write_comma(out, written)?;
        written = 1;
        let name = device.kind().name();
        write_device(
            out,
            *d,
            Some(slot.p.into()),
            name,
            use_of(*d, flights, calls),
        )?;
    }
    Ok(written)
}

fn write_device(
    out: &mut String,
    d: u8,
    slot: Option<u32>,
    name: &str,
    used: Use,
) -> Result<(), AllocError> {
    let Use {
        transfers,
        busy,
        words,
    } = used;
    write!(out, "{{\"device\":{d},\"kind\":\"{name}\",\"slot\":")?;
    write_number(out, slot)?;
    write!(
        out,
        ",\"transfers\":{transfers},\"busy\":{busy},\"words\":{words}}}"
    )
}

/// What use a run of so many calls made of a device.
fn use_of(d: u8, flights: &[Flight], calls: u32) -> Use {
    let mut used = Use {
        transfers: 0,
        busy: 0,
        words: 0,
    };
    for flight in flights {
        if flight.d == d {
            used = with_flight(used, flight, calls);
        }
    }
    used
}

/// With a transfer more. One that has ended has moved all its words; one that goes on is busy to the end of the run.
fn with_flight(used: Use, flight: &Flight, calls: u32) -> Use {
    let (end, words) = match flight.ended {
        Some(end) => (end, flight.total),
        None => (calls, flight.moved),
    };
    Use {
        transfers: used.transfers.saturating_add(1),
        busy: used.busy.saturating_add(end.saturating_sub(flight.began)),
        words: used.words.saturating_add(u32::from(words)),
    }
}
