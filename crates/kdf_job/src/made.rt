//! The job that is made from a number.
ghost use Rattle.std.specs.Prelude.{◌≡◌, ◌<◌, ◌++◌, [], ◌∷◌, codes, decimal, length, IfOk, OnOk};
ghost use Rattle.kdf_text.specs.Text.{Adds};
ghost use Rattle.kdf_job.specs.Made.{after_steps, letter_of, letters_from, made_deck, made_lines, made_round, made_rounds, made_slots, made_text, reader_lines, slot_with, step};

use std::alloc::{AllocError, Global};
use std::fmt::Write;

const SLOTS: u8 = 4;

const READER_LINES: u16 = 200;

const LINE_LETTERS: u16 = 16;

/// How often the schedule has orders and the end of each transfer.
const ROUNDS: u16 = 410;

const DEVICES: u8 = 8;

/// The lines of the size of a store, and of a deck.
const DECK: &str = "STORE 96\n\
    DECK\n\
    Y0; PROGRAM V0; V0=Q0/64/65;\n\
    SET 2; SET 5; OUT; V0; =Q1; =C1; SET 1; SET 5; OUT; V0; =Q2; =C2;\n\
    1; PRQ1; PARQ1; J2TR; E64; E65; NEV; Y0; NEV; =Y0; PWQ2; J1;\n\
    2; ZERO; OUT; FINISH;\n\
    ENDDECK\n";

/// The text of the job that is made from a number: four slots, each with the same deck, a punch, and a reader with 200 lines of letters,
/// which come of the number. Every such text has 39,175 bytes.
pub fn generated(alloc: Global, n: u16) -> Result<Vec<u8>, AllocError>
    ensures text { IfOk result (λ bytes. bytes.items ≡ made_text n) }
    ensures bytes { IfOk result (λ bytes. length bytes.items ≡ 39175) }
{
    let mut out = String::new(alloc);
    write_job(&mut out, n)?;
    Ok(out.into_bytes())
}

/// Writes the lines of the job.
fn write_job(out: &mut String, n: u16) -> Result<(), AllocError>
    ensures { OnOk result (Adds out.old out.new (made_lines n)) }
{
    write_line(out, "KDF9 JOB 1")?;
    write_slots(out, &mut Letters { x: n })?;
    write_line(out, "SCHEDULE")?;
    write_rounds(out)?;
    write_line(out, "ENDJOB")
}

/// The number of which the next letters come.
#[derive(Drop)]
struct Letters {
    x: u16,
}

impl Letters {
    /// The next letter.
    fn take(&mut self) -> char
        ensures letter { result ≡ letter_of (step self.old.x) }
        ensures next { self.new.x ≡ step self.old.x }
    {
        self.x = ((25_173 * u32::from(self.x) + 13_849) % 65_536) as u16;
        char::from(b'A' + (self.x / 256 % 26) as u8)
    }
}

#[tactic(auto, unfolding(kdf_text::specs::Text::text))]
fn write_line(out: &mut String, line: &str) -> Result<(), AllocError>
    ensures { OnOk result (Adds out.old out.new (line.now ∷ [])) }
{
    out.push_str(line)?;
    out.push_str("\n")
}

/// Writes the lines of all slots.
fn write_slots(out: &mut String, letters: &mut Letters) -> Result<(), AllocError>
    ensures { OnOk result (Adds out.old out.new (made_slots letters.old.x)) }
{
    for p in 0..SLOTS {
        write_slot(out, p, letters)?;
    }
    Ok(())
}

/// Writes the lines of a slot, on whose reader the next letters are.
fn write_slot(out: &mut String, p: u8, letters: &mut Letters) -> Result<(), AllocError>
    requires { p < 4 }
    ensures lines { OnOk result (Adds out.old out.new
        (slot_with p (reader_lines letters.old.x 0))) }
    ensures next { OnOk result (letters.new.x ≡ after_steps letters.old.x 3200) }
{
    write_slot_number(out, p)?;
    write_deck(out)?;
    write_device(out, 2 * p, "TR")?;
    write_reader(out, letters)?;
    write_device(out, 2 * p + 1, "TP")?;
    write_line(out, "SHOW 12 12")
}

#[tactic(auto, unfolding(kdf_text::specs::Text::text))]
fn write_slot_number(out: &mut String, p: u8) -> Result<(), AllocError>
    ensures { OnOk result (Adds out.old out.new ((codes "SLOT " ++ decimal p) ∷ [])) }
{
    writeln!(out, "SLOT {p}")
}

/// Writes the size of a store, and a deck.
#[tactic(auto, unfolding(kdf_text::specs::Text::text))]
fn write_deck(out: &mut String) -> Result<(), AllocError>
    ensures { OnOk result (Adds out.old out.new
        (codes "STORE 96" ∷ codes "DECK" ∷ made_deck ++ codes "ENDDECK" ∷ [])) }
{
    out.push_str(DECK)
}

#[tactic(auto, unfolding(kdf_text::specs::Text::text))]
fn write_device(out: &mut String, d: u8, kind: &str) -> Result<(), AllocError>
    ensures { OnOk result (Adds out.old out.new
        ((codes "DEVICE " ++ decimal d ++ codes " " ++ kind.now) ∷ [])) }
{
    writeln!(out, "DEVICE {d} {kind}")
}

/// Writes the lines of a reader.
fn write_reader(out: &mut String, letters: &mut Letters) -> Result<(), AllocError>
    ensures lines { OnOk result (Adds out.old out.new (reader_lines letters.old.x 0)) }
    ensures next { OnOk result (letters.new.x ≡ after_steps letters.old.x 3200) }
{
    for _ in 0..READER_LINES {
        write_reader_line(out, letters)?;
    }
    Ok(())
}

/// Writes a line of a reader.
fn write_reader_line(out: &mut String, letters: &mut Letters) -> Result<(), AllocError>
    ensures line { OnOk result (Adds out.old out.new
        ((codes "+" ++ letters_from letters.old.x 0) ∷ [])) }
    ensures next { OnOk result (letters.new.x ≡ after_steps letters.old.x 16) }
{
    out.push_str("+")?;
    for _ in 0..LINE_LETTERS {
        out.push(letters.take())?;
    }
    out.push_str("\n")
}

/// Writes the events of the schedule.
fn write_rounds(out: &mut String) -> Result<(), AllocError>
    ensures { OnOk result (Adds out.old out.new made_rounds) }
{
    for _ in 0..ROUNDS {
        write_round(out)?;
    }
    Ok(())
}

/// Writes some orders and the end of each transfer.
fn write_round(out: &mut String) -> Result<(), AllocError>
    ensures { OnOk result (Adds out.old out.new made_round) }
{
    write_line(out, "ORDERS 80")?;
    for d in 0..DEVICES {
        write_end(out, d)?;
    }
    Ok(())
}

#[tactic(auto, unfolding(kdf_text::specs::Text::text))]
fn write_end(out: &mut String, d: u8) -> Result<(), AllocError>
    ensures { OnOk result (Adds out.old out.new ((codes "END " ++ decimal d) ∷ [])) }
{
    writeln!(out, "END {d}")
}
