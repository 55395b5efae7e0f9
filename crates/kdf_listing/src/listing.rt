//! A deck with its image.

use crate::layout::{Layout, Row, StatementKind};
use crate::spots::{write_at, write_spot};
use crate::stores::{write_parts, write_stores};
use kdf_json::{length_of, write_after, write_comma, write_spaced, write_text};
use kdf_place::{Image, Label, listing, listing_absent};
use kdf_text::write_octal;
use kdf_word::Word;
use std::alloc::{AllocError, Global};
use std::fmt::Write;

/// The facts of the deck of a slot: its words, its statements and its references.
pub fn listing_text(
    alloc: Global,
    p: u8,
    layout: &Layout<'_>,
    image: &Image,
) -> Result<String, AllocError> {
    let mut out = String::new(alloc);
    write!(
        out,
        "{{\"format\":\"kdf9-facts 1\",\"kind\":\"listing\",\"slot\":{p},\"start\":"
    )?;
    write_at(&mut out, u64::from(image.start))?;
    out.push_str(",\"words\":[")?;
    write_words(&mut out, &image.words)?;
    out.push_str("],\"statements\":[")?;
    write_statements(&mut out, layout, &image.labels)?;
    out.push_str("],\"references\":[")?;
    write_references(&mut out, &image.labels)?;
    out.push_str("],\"parts\":[")?;
    write_parts(&mut out, layout)?;
    out.push_str("],\"stores\":[")?;
    write_stores(&mut out, layout)?;
    out.push_str("]")?;
    write_printed(&mut out, &listing(alloc, image, p)?)?;
    Ok(out)
}

/// Writes what the program prints of a deck, as the last member of its facts.
fn write_printed(out: &mut String, text: &[u8]) -> Result<(), AllocError> {
    out.push_str(",\n\"text\":")?;
    write_text(out, text)?;
    out.push_str("}\n")
}

/// The facts of a slot that the job doesn't have.
pub fn absent_text(alloc: Global, p: u8) -> Result<String, AllocError> {
    let mut out = String::new(alloc);
    write!(
        out,
        "{{\"format\":\"kdf9-facts 1\",\"kind\":\"listing\",\"slot\":{p},\"start\":null,"
    )?;
    out.push_str("\"words\":[],\"statements\":[],\"references\":[],\"parts\":[],\"stores\":[]")?;
    write_printed(&mut out, &listing_absent(alloc, p)?)?;
    Ok(out)
}

/// Writes each word of an image, in octal.
fn write_words(out: &mut String, words: &[Word]) -> Result<(), AllocError> {
    for (i, word) in words.iter().enumerate() {
        write_comma(out, i)?;
        out.push('"')?;
        write_octal(out, word.bits())?;
        out.push('"')?;
    }
    Ok(())
}

/// Writes each statement: its place in the deck and in the job, what it is, where it stands in the store, and what is written there.
fn write_statements(
    out: &mut String,
    layout: &Layout<'_>,
    labels: &[Label],
) -> Result<(), AllocError> {
    let mut references: usize = 0;
    for (i, row) in layout.rows.iter().enumerate() {
        write_comma(out, i)?;
        match row.kind {
            StatementKind::Reference => {
                write_statement(out, layout, row, place_of(labels, references, row))?;
                references = references.saturating_add(1);
            }
            _ => write_statement(out, layout, row, row.at)?,
        }
    }
    Ok(())
}

/// Where the reference of this number stands: a `*` may come between it and its order.
fn place_of(labels: &[Label], i: usize, row: &Row) -> u64 {
    match labels.get(i) {
        Some(label) => u64::from(label.at),
        None => row.at,
    }
}

fn write_statement(
    out: &mut String,
    layout: &Layout<'_>,
    row: &Row,
    at: u64,
) -> Result<(), AllocError> {
    let text = layout.written(row);
    write_after(out, "{\"offset\":", row.place.into())?;
    write_after(out, ",\"length\":", length_of(text).into())?;
    out.push(',')?;
    write_spot(out, row.spot)?;
    out.push_str(",\"kind\":\"")?;
    out.push_str(name_of(row.kind))?;
    out.push_str("\",\"at\":")?;
    write_at(out, at)?;
    write_after(out, ",\"syllables\":", row.size)?;
    write_after(out, ",\"filled\":", row.filled)?;
    out.push_str(",\"text\":")?;
    write_text(out, text)?;
    out.push_str(",\"written\":")?;
    write_spaced(out, text)?;
    out.push_str("}")
}

/// The name of a kind of statements.
fn name_of(kind: StatementKind) -> &'static str {
    match kind {
        StatementKind::Declaration { .. } => "declaration",
        StatementKind::Opening { .. } => "opening",
        StatementKind::Constant => "constant",
        StatementKind::Reference => "reference",
        StatementKind::Star => "star",
        StatementKind::Order => "order",
        StatementKind::Finish => "finish",
    }
}

/// Writes each reference: its part, its number, and where it stands.
fn write_references(out: &mut String, labels: &[Label]) -> Result<(), AllocError> {
    for (i, label) in labels.iter().enumerate() {
        write_comma(out, i)?;
        let Label { part, number, at } = *label;
        write_after(out, "{\"part\":", part.into())?;
        write_after(out, ",\"reference\":", number.into())?;
        out.push_str(",\"at\":")?;
        write_at(out, u64::from(at))?;
        out.push_str("}")?;
    }
    Ok(())
}
