//! The lines of a program's registers.
ghost use Rattle.std.specs.Prelude.{◌≡◌, ◌<◌, ◌++◌, [], ◌∷◌, OnOk, string_bytes, codes, decimal, ◌/◌, ◌%◌, ◌==◌, ◌&&◌};
ghost use Rattle.std.specs.List.{flat_map};
ghost use Rattle.kdf_qstore.specs.Triples.{triple_at};
ghost use Rattle.kdf_text.specs.Text.{octal, Adds};
ghost use Rattle.kdf_report.specs.Devices.{bit};
ghost use Rattle.kdf_report.specs.Text.{life_line, life_name, nest_line, links_line, q_line, q_lines, registers_lines, spaced_numbers};

use crate::decimals::write_after;
use kdf_processor::{Flags, Life, Links, Nest, QStores, Registers};
use kdf_qstore::Part;
use kdf_text::write_octal;
use std::alloc::AllocError;
use std::fmt::Write;

/// Writes what a section says of the registers.
pub fn write_registers(out: &mut String, registers: &Registers) -> Result<(), AllocError>
    ensures { OnOk result (Adds out.old out.new (registers_lines registers.now)) }
{
    write_life(out, registers.state)?;
    write_place(out, registers.ran, registers.at)?;
    write_flags(out, registers.flags)?;
    write_nest(out, &registers.nest)?;
    write_links(out, &registers.links)?;
    write_q_stores(out, &registers.q)
}

#[tactic(auto, unfolding(kdf_text::specs::Text::text))]
fn write_life(out: &mut String, life: Life) -> Result<(), AllocError>
    ensures { OnOk result (Adds out.old out.new (life_line life ∷ [])) }
{
    write!(out, "STATE ")?;
    write_life_name(out, life)?;
    writeln!(out)
}

/// Writes whether a program is live, has ended, or how it failed.
pub fn write_life_name(out: &mut String, life: Life) -> Result<(), AllocError>
    ensures { OnOk result (string_bytes out.new ≡ string_bytes out.old ++ life_name life) }
{
    match life {
        Life::Live => write!(out, "LIVE"),
        Life::Ended => write!(out, "ENDED"),
        Life::Failed(kind) => {
            let name = kind.name();
            write!(out, "FAILED {name}")
        }
    }
}

/// How many orders were obeyed, and the word and syllable of the next.
#[tactic(auto, unfolding(kdf_text::specs::Text::text))]
fn write_place(out: &mut String, ran: u32, at: u16) -> Result<(), AllocError>
    ensures { OnOk result (Adds out.old out.new (
        (codes "ORDERS " ++ decimal ran)
        ∷ (codes "AT " ++ decimal (at / 6) ++ codes " " ++ decimal (at % 6)) ∷ [])) }
{
    let word = at / 6;
    let syllable = at % 6;
    writeln!(out, "ORDERS {ran}")?;
    writeln!(out, "AT {word} {syllable}")
}

#[tactic(auto, unfolding(kdf_text::specs::Text::text))]
fn write_flags(out: &mut String, flags: Flags) -> Result<(), AllocError>
    ensures { OnOk result (Adds out.old out.new (
        (codes "FLAGS " ++ bit flags.v ++ codes " " ++ bit flags.tr) ∷ [])) }
{
    let v = digit(flags.v);
    let tr = digit(flags.tr);
    writeln!(out, "FLAGS {v} {tr}")
}

/// A flag, as it is printed.
pub fn digit(flag: bool) -> &'static str
    ensures { result.now ≡ bit flag }
{
    if flag { "1" } else { "0" }
}

/// The words of a nest, the top first, after their number.
#[tactic(auto, unfolding(kdf_text::specs::Text::text))]
fn write_nest(out: &mut String, nest: &Nest) -> Result<(), AllocError>
    ensures { OnOk result (Adds out.old out.new (nest_line nest.now ∷ [])) }
{
    let depth = nest.depth();
    write!(out, "NEST {depth}")?;
    write_words(out, nest)?;
    writeln!(out)
}

/// Each word of a nest after a space.
fn write_words(out: &mut String, nest: &Nest) -> Result<(), AllocError>
    ensures { OnOk result (string_bytes out.new
        ≡ string_bytes out.old ++ flat_map (λ w. codes " " ++ octal w) nest.now) }
{
    for i in 0..nest.depth() {
        write!(out, " ")?;
        write_octal(out, nest.peek(i).bits())?;
    }
    Ok(())
}

/// The places of the links, the top first, after their number.
#[tactic(auto, unfolding(kdf_text::specs::Text::text))]
fn write_links(out: &mut String, links: &Links) -> Result<(), AllocError>
    ensures { OnOk result (Adds out.old out.new (links_line links.now ∷ [])) }
{
    let depth = links.depth();
    write!(out, "LINKS {depth}")?;
    write_places(out, links)?;
    writeln!(out)
}

/// The word and the syllable of each link, after a space.
fn write_places(out: &mut String, links: &Links) -> Result<(), AllocError>
    ensures { OnOk result (string_bytes out.new ≡ string_bytes out.old
        ++ flat_map (λ l. codes " " ++ decimal (l % 8192) ++ codes "/" ++ decimal (l / 8192)) links.now) }
{
    for i in 0..links.depth() {
        let link = links.peek(i);
        let word = link % 8192;
        let syllable = link / 8192;
        write!(out, " {word}/{syllable}")?;
    }
    Ok(())
}

/// The Q-stores that aren't zero.
#[tactic(auto, unfolding(kdf_text::specs::Text::text))]
fn write_q_stores(out: &mut String, q_stores: &QStores) -> Result<(), AllocError>
    ensures { OnOk result (Adds out.old out.new (q_lines q_stores.now)) }
{
    for q in 1..16 {
        write_q_store(out, q, q_stores)?;
    }
    Ok(())
}

/// A Q-store, unless it is zero.
#[tactic(auto, unfolding(kdf_text::specs::Text::text))]
fn write_q_store(out: &mut String, q: u8, q_stores: &QStores) -> Result<(), AllocError>
    requires { q < 16 }
    ensures { OnOk result (Adds out.old out.new (q_line q (triple_at q_stores.now q))) }
{
    let c = q_stores.part(q, Part::C);
    let i = q_stores.part(q, Part::I);
    let m = q_stores.part(q, Part::M);
    if are_zero(c, i, m) {
        return Ok(());
    }
    write_line(out, "Q", &[q.into(), c.into(), i.into(), m.into()])
}

/// A name and its numbers.
#[tactic(auto, unfolding(kdf_text::specs::Text::text))]
fn write_line(out: &mut String, name: &str, numbers: &[u64]) -> Result<(), AllocError>
    ensures { OnOk result (Adds out.old out.new ((name.now ++ spaced_numbers numbers.now) ∷ [])) }
{
    out.push_str(name)?;
    write_numbers(out, numbers)?;
    writeln!(out)
}

/// Each number after a space.
fn write_numbers(out: &mut String, numbers: &[u64]) -> Result<(), AllocError>
    ensures { OnOk result (string_bytes out.new ≡ string_bytes out.old ++ spaced_numbers numbers.now) }
{
    for number in numbers {
        write_after(out, *number)?;
    }
    Ok(())
}

fn are_zero(c: u16, i: u16, m: u16) -> bool
    ensures { result ≡ (c == 0 && i == 0 && m == 0) }
{
    c == 0 && i == 0 && m == 0
}
