//! The lines of a program's stints.
ghost use Rattle.std.specs.Prelude.{◌<◌, length, IfSome, OnOk, slice_get};
ghost use Rattle.std.specs.List.{flat_map};
ghost use Rattle.kdf_text.specs.Text.{Adds};
ghost use Rattle.kdf_processor.specs.State.{lendings};
ghost use Rattle.kdf_report.specs.Devices.{stint_lines};

use crate::Program;
use crate::devices::write_device;
use std::alloc::AllocError;

/// Writes the lines of each stint of a program, in the order in which the devices were taken.
#[tactic(auto, unfolding(kdf_text::specs::Text::text))]
pub fn write_stints<P: Program>(out: &mut String, program: &P) -> Result<(), AllocError>
    ensures { OnOk result (Adds out.old out.new (flat_map stint_lines (lendings (P.state program.now).stock))) }
{
    for i in 0..program.stints() {
        write_stint(out, i, program)?;
    }
    Ok(())
}

/// The lines of the stint that began after `i` others.
fn write_stint<P: Program>(out: &mut String, i: usize, program: &P) -> Result<(), AllocError>
    requires { i < length (lendings (P.state program.now).stock) }
    ensures { IfSome (slice_get (lendings (P.state program.now).stock) i) (λ x.
        OnOk result (Adds out.old out.new (stint_lines x))) }
{
    let (d, is_given, device) = program.stint(i);
    write_device(out, "POOL", d, !is_given, device)
}
