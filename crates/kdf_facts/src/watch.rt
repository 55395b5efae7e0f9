//! When a program came to a place.
ghost use Rattle.kdf_job.specs.Shows.{shown_job};
ghost use Rattle.kdf_job.specs.WellFormed.{IsJob};
ghost use Rattle.kdf_service.specs.Rules.{IsService};
ghost use Rattle.kdf_top.specs.Loaded.{HasImages};

use crate::running::stops_of;
use kdf_job::Job;
use kdf_json::write_items;
use kdf_place::Image;
use kdf_service::Service;
use std::alloc::{AllocError, Global};
use std::fmt::Write;

/// A word has six syllables.
const SYLLABLES: u16 = 6;

/// The facts of a watch: after which of its own orders, counted from 1, the program of a slot was to go on at the word at an address.
pub fn watch_facts<F: Fn(u64) -> u64>(
    alloc: Global,
    job: &Job,
    images: &[Image],
    p: u8,
    address: u16,
    service: &Service<F>,
) -> Result<String, AllocError>
    requires service { IsService (F.pre service.now) (F.post service.now) }
    requires job { IsJob (shown_job job.now) }
    requires images { HasImages (shown_job job.now).slots images.now }
{
    let at = SYLLABLES.saturating_mul(address);
    let stops = stops_of(alloc, job, images, p, at, service)?;
    watch_text(alloc, p, address, &stops)
}

fn watch_text(alloc: Global, p: u8, address: u16, stops: &[u32]) -> Result<String, AllocError> {
    let mut out = String::new(alloc);
    write!(
        out,
        "{{\"format\":\"kdf9-facts 1\",\"kind\":\"watch\",\"slot\":{p},\"address\":{address},\"stops\":["
    )?;
    for (i, order) in stops.iter().enumerate() {
        write_items(&mut out, i)?;
        write!(out, "{order}")?;
    }
    out.push_str("]}\n")?;
    Ok(out)
}
