//! The lines of a program's devices.
ghost use Rattle.std.specs.Prelude.{◌≡◌, ◌<◌, ◌∷◌, [], OnOk, codes};
ghost use Rattle.std.specs.List.{flat_map, range_with_len};
ghost use Rattle.kdf_text.specs.Text.{Adds};
ghost use Rattle.kdf_transfer.specs.Devices.{fixture_of, progress_of};
ghost use Rattle.kdf_processor.specs.State.{device_limit};
ghost use Rattle.kdf_report.specs.Devices.{described, device_line, device_lines, holding};

use crate::Program;
use crate::blocks::write_blocks;
use crate::registers::digit;
use kdf_transfer::Device;
use std::alloc::AllocError;
use std::fmt::Write;

/// Writes the lines of each device of a program's own, the least number first.
#[tactic(auto, unfolding(kdf_text::specs::Text::text))]
pub fn write_devices<P: Program>(out: &mut String, program: &P) -> Result<(), AllocError>
    ensures { OnOk result (Adds out.old out.new (
        flat_map (device_lines (P.state program.now)) (range_with_len 0 device_limit))) }
{
    for d in 0..16 {
        write_numbered(out, d, program)?;
    }
    Ok(())
}

/// The lines of the device of this number, if the program has one of its own.
#[tactic(auto, unfolding(kdf_text::specs::Text::text, crate::specs::Devices::device_lines))]
fn write_numbered<P: Program>(out: &mut String, d: u8, program: &P) -> Result<(), AllocError>
    requires { d < device_limit }
    ensures { OnOk result (Adds out.old out.new (device_lines (P.state program.now) d)) }
{
    match program.device(d) {
        Some(device) => write_device(out, "DEVICE", d, program.claimed(d), device),
        None => Ok(()),
    }
}

/// Writes the lines of a device, the first after a word that says whose it is.
pub fn write_device(
    out: &mut String,
    word: &str,
    d: u8,
    is_held: bool,
    device: &Device,
) -> Result<(), AllocError>
    ensures { OnOk result (Adds out.old out.new (
        described word.now d is_held (fixture_of device.now).kind (progress_of device.now))) }
{
    write_line(out, word, d, is_held, device)?;
    write_blocks(out, device)
}

/// What a device is, and how far it has come.
#[tactic(auto, unfolding(kdf_text::specs::Text::text))]
fn write_line(
    out: &mut String,
    word: &str,
    d: u8,
    is_held: bool,
    device: &Device,
) -> Result<(), AllocError>
    ensures { OnOk result (Adds out.old out.new (
        device_line word.now d is_held (fixture_of device.now).kind (progress_of device.now) ∷ [])) }
{
    let kind = device.kind().name();
    let holding = holding_of(is_held);
    write!(out, "{word} {d} {kind} {holding}")?;
    let place = device.place();
    let flag = digit(device.flag());
    writeln!(out, " PLACE {place} FLAG {flag}")
}

fn holding_of(is_held: bool) -> &'static str
    ensures { result.now ≡ holding is_held }
{
    if is_held { "HELD" } else { "FREE" }
}
