//! A program by itself.
ghost use Rattle.std.specs.Prelude.{◌≡◌, ◌≤◌, None, map, length, IfNone, IfOk, IfSome};
ghost use Rattle.kdf_alone.specs.Program.{IsApart};
ghost use Rattle.kdf_job.specs.Shows.{shown_job, shown_slot};
ghost use Rattle.kdf_job.specs.WellFormed.{AreSlots, IsJob, IsSlot};
ghost use Rattle.kdf_job.specs.declared.job.TheConstants.{TEXT_LIMIT};
ghost use Rattle.kdf_report.specs.MadeFrom.{IsProgramOf};
ghost use Rattle.kdf_top.specs.Loaded.{HasImages, IsFound, slot_numbered};

use crate::printed::{MOST_SHOWN, short, words_shown, write_last};
use crate::programs::write_life;
use crate::registers::write_registers;
use kdf_alone::Alone;
use kdf_job::{Job, SlotJob};
use kdf_json::deck_line;
use kdf_listing::{lay_out, write_order};
use kdf_place::Image;
use kdf_processor::Registers;
use kdf_report::{alone_absent, alone_text};
use kdf_schedule::Event;
use std::alloc::{AllocError, Global};
use std::fmt::Write;

/// The most orders that a schedule has.
const MOST_ORDERS: u32 = 20_000_000;

/// The facts of the program of a slot that runs by itself, with every ask answered 0, for as many orders as the schedule has.
pub fn alone_facts(
    alloc: Global,
    bytes: &[u8],
    job: &Job,
    images: &[Image],
    p: u8,
) -> Result<String, AllocError>
    requires few { length bytes.now ≤ TEXT_LIMIT }
    requires job { IsJob (shown_job job.now) }
    requires images { HasImages (shown_job job.now).slots images.now }
{
    match find_slot(&job.slots, images, p) {
        Some((slot, image)) => slot_facts(alloc, bytes, slot, image, orders_in(&job.events)),
        None => absent_facts(alloc, p),
    }
}

/// The facts of a slot that the job doesn't have.
fn absent_facts(alloc: Global, p: u8) -> Result<String, AllocError> {
    let mut out = String::new(alloc);
    write!(
        out,
        "{{\"format\":\"kdf9-facts 1\",\"kind\":\"alone\",\"slot\":{p},\"program\":null,\n"
    )?;
    write_last(&mut out, &short(alone_absent(alloc, p)))?;
    Ok(out)
}

/// The facts of the program of a slot after so many orders.
fn slot_facts(
    alloc: Global,
    bytes: &[u8],
    slot: &SlotJob,
    image: &Image,
    orders: u32,
) -> Result<String, AllocError>
    requires few { length bytes.now ≤ TEXT_LIMIT }
    requires slot { IsSlot (shown_slot slot.now) }
    requires apart { IsApart (shown_slot slot.now) }
    requires fits { length image.now.words.items ≤ slot.now.size }
    requires orders { orders ≤ 20000000 }
{
    let program = run_alone(alloc, slot, image, orders)?;
    let text = printed_of(alloc, slot, &program);
    let mut out = registers_text(alloc, bytes, slot, program.registers())?;
    write_last(&mut out, &text)?;
    Ok(out)
}

/// The text that the program prints of one that ran by itself, unless it is too long or there was no memory for it.
fn printed_of(alloc: Global, slot: &SlotJob, program: &Alone) -> Option<Vec<u8>>
    requires { IsProgramOf (shown_slot slot.now) program.now }
{
    if words_shown(&slot.shows) > MOST_SHOWN {
        return None;
    }
    short(alone_text(alloc, slot, program))
}

/// The program of a slot after so many orders.
fn run_alone(alloc: Global, slot: &SlotJob, image: &Image, orders: u32) -> Result<Alone, AllocError>
    requires slot { IsSlot (shown_slot slot.now) }
    requires apart { IsApart (shown_slot slot.now) }
    requires fits { length image.now.words.items ≤ slot.now.size }
    requires orders { orders ≤ 20000000 }
    ensures { IfOk result (IsProgramOf (shown_slot slot.now)) }
{
    let mut program = Alone::load(alloc, slot, image)?;
    program.orders(&[], orders)?;
    Ok(program)
}

fn registers_text(
    alloc: Global,
    bytes: &[u8],
    slot: &SlotJob,
    registers: &Registers,
) -> Result<String, AllocError>
    requires few { length bytes.now ≤ TEXT_LIMIT }
{
    let mut out = String::new(alloc);
    let p = slot.p;
    let orders = registers.ran;
    let layout = lay_out(alloc, &slot.deck, deck_line(bytes, p))?;
    write!(
        out,
        "{{\"format\":\"kdf9-facts 1\",\"kind\":\"alone\",\"slot\":{p},\"program\":{{\"orders\":{orders}"
    )?;
    write_life(&mut out, registers.state)?;
    write_order(&mut out, Some(registers.at), Some(&layout))?;
    write_registers(&mut out, registers)?;
    out.push_str("},\n")?;
    Ok(out)
}

/// How many orders a schedule has.
fn orders_in(events: &[Event]) -> u32
    ensures { result ≤ 20000000 }
{
    let mut orders = 0u32;
    for event in events {
        if let Event::Orders(n) = *event {
            orders = orders.saturating_add(n);
        }
    }
    orders.min(MOST_ORDERS)
}

/// The slot of this number, with the image of its deck.
fn find_slot<'a>(
    slots: &'a [SlotJob],
    images: &'a [Image],
    p: u8,
) -> Option<(&'a SlotJob, &'a Image)>
    requires slots { AreSlots (map shown_slot slots.now) }
    requires images { HasImages (map shown_slot slots.now) images.now }
    ensures some { IfSome result (λ found. IsFound (map shown_slot slots.now) p found.0.now found.1.now) }
{
    for i in 0..slots.len() {
        let slot = &slots[i];
        if slot.p == p {
            return Some((slot, &images[i]));
        }
    }
    None
}
