//! The lines of blocks.
ghost use Rattle.std.specs.Prelude.{◌≡◌, [], ◌∷◌, map, OnOk};
ghost use Rattle.kdf_text.specs.Text.{Adds};
ghost use Rattle.kdf_transfer.specs.Devices.{fixture_of, progress_of};
ghost use Rattle.kdf_report.specs.Devices.{block_line, block_lines, block_name, tape_line};

use crate::characters::write_characters;
use kdf_media::Block;
use kdf_tape::TapeBlock;
use kdf_transfer::Device;
use std::alloc::AllocError;
use std::fmt::Write;

/// Writes the line of each block of a punch, a printer or a tape.
#[tactic(auto, unfolding(kdf_text::specs::Text::text))]
pub fn write_blocks(out: &mut String, device: &Device) -> Result<(), AllocError>
    ensures { OnOk result (Adds out.old out.new (
        block_lines (fixture_of device.now).kind (progress_of device.now))) }
{
    match device {
        Device::Tr(_) | Device::Cr(_) => Ok(()),
        Device::Tp(punch) => write_finished(out, punch.blocks()),
        Device::Lp(printer) => write_finished(out, printer.blocks()),
        Device::Mt(tape) => write_tape(out, tape.blocks()),
    }
}

/// Finished blocks, the first one first.
#[tactic(auto, unfolding(kdf_text::specs::Text::text))]
fn write_finished(out: &mut String, blocks: &[Block]) -> Result<(), AllocError>
    ensures { OnOk result (Adds out.old out.new (map block_line blocks.now)) }
{
    for block in blocks {
        write_block(out, block)?;
    }
    Ok(())
}

#[tactic(auto, unfolding(kdf_text::specs::Text::text))]
fn write_block(out: &mut String, block: &Block) -> Result<(), AllocError>
    ensures { OnOk result (Adds out.old out.new (block_line block.now ∷ [])) }
{
    write!(out, "BLOCK ")?;
    write_characters(out, block.codes())?;
    writeln!(out)
}

/// Blocks of a tape, the first one first.
#[tactic(auto, unfolding(kdf_text::specs::Text::text))]
fn write_tape(out: &mut String, blocks: &[TapeBlock]) -> Result<(), AllocError>
    ensures { OnOk result (Adds out.old out.new (map tape_line blocks.now)) }
{
    for block in blocks {
        write_tape_block(out, block)?;
    }
    Ok(())
}

#[tactic(auto, unfolding(kdf_text::specs::Text::text))]
fn write_tape_block(out: &mut String, block: &TapeBlock) -> Result<(), AllocError>
    ensures { OnOk result (Adds out.old out.new (tape_line block.now ∷ [])) }
{
    let name = name_of_block(block.mark());
    write!(out, "{name} ")?;
    write_characters(out, block.codes())?;
    writeln!(out)
}

fn name_of_block(mark: bool) -> &'static str
    ensures { result.now ≡ block_name mark }
{
    if mark { "LAST" } else { "BLOCK" }
}
