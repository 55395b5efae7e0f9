//! The lines of the words that are to be shown.
ghost use Rattle.std.specs.Prelude.{◌<◌, [], ◌∷◌, All, OnOk};
ghost use Rattle.std.specs.List.{flat_map};
ghost use Rattle.kdf_text.specs.Text.{Adds};
ghost use Rattle.kdf_report.specs.Text.{show_lines, word_line_at};

use crate::Program;
use kdf_text::write_word;
use std::alloc::AllocError;

/// Writes the words between each two addresses.
#[tactic(auto, unfolding(kdf_text::specs::Text::text))]
pub fn write_shows<P: Program>(
    out: &mut String,
    shows: &[(u16, u16)],
    program: &P,
) -> Result<(), AllocError>
    requires { All (λ show. show.1 < (P.state program.now).stock.claims.size) shows.now }
    ensures { OnOk result (Adds out.old out.new (flat_map (show_lines (P.state program.now)) shows.now)) }
{
    for (first, last) in shows {
        write_show(out, *first, *last, program)?;
    }
    Ok(())
}

/// The words from the first to the last address.
#[tactic(auto, unfolding(kdf_text::specs::Text::text))]
fn write_show<P: Program>(
    out: &mut String,
    first: u16,
    last: u16,
    program: &P,
) -> Result<(), AllocError>
    requires { last < (P.state program.now).stock.claims.size }
    ensures { OnOk result (Adds out.old out.new (show_lines (P.state program.now) (first, last))) }
{
    for address in first..=last {
        show_word(out, address, program)?;
    }
    Ok(())
}

/// The word at an address.
fn show_word<P: Program>(out: &mut String, address: u16, program: &P) -> Result<(), AllocError>
    requires { address < (P.state program.now).stock.claims.size }
    ensures { OnOk result (Adds out.old out.new (word_line_at (P.state program.now) address ∷ [])) }
{
    write_word(out, usize::from(address), program.word(address).bits())
}
