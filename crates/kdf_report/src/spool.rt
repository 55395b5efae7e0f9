//! The lines of what a program spooled.
ghost use Rattle.std.specs.Prelude.{[], ◌∷◌, map, OnOk};
ghost use Rattle.kdf_text.specs.Text.{Adds};
ghost use Rattle.kdf_report.specs.Text.{spool_line};

use crate::characters::write_characters;
use kdf_processor::Spooled;
use std::alloc::AllocError;
use std::fmt::Write;

/// Writes the line of each text.
#[tactic(auto, unfolding(kdf_text::specs::Text::text))]
pub fn write_spooled(out: &mut String, spooled: &[Spooled]) -> Result<(), AllocError>
    ensures { OnOk result (Adds out.old out.new (map spool_line spooled.now)) }
{
    for text in spooled {
        write_text(out, text)?;
    }
    Ok(())
}

/// The stream of a text, and its characters.
#[tactic(auto, unfolding(kdf_text::specs::Text::text))]
fn write_text(out: &mut String, spooled: &Spooled) -> Result<(), AllocError>
    ensures { OnOk result (Adds out.old out.new (spool_line spooled.now ∷ [])) }
{
    let stream = spooled.stream;
    write!(out, "SPOOL {stream} ")?;
    write_characters(out, spooled.text.codes())?;
    writeln!(out)
}
