//! What may have been meant by a statement that has no form: it is tried which others have one.

use crate::form_names::{BELONGS, ELSEWHERE, FORMS, LEFT_OUT, OF_DIRECTOR};
use crate::hint::{write_begin, write_close, write_none, write_place, write_words};
use crate::hint_deck::Faulty;
use crate::hint_line::has;
use crate::near::is_near;
use kdf_job::TEXT_LIMIT;
use kdf_json::{after, before, count_of, from, squeezed, without_comments};
use kdf_text::cut_word;
use kdf_usercode::{DeckError, DeckFault, read_deck};
use std::alloc::{AllocError, Global};

/// A missing `;` is looked for after so many pieces of a statement. No statement with a form has more, and few have more than `FEW_PIECES`.
const PIECES: usize = 16;

const FEW_PIECES: usize = 4;

/// A hint names so many statements at most.
const MOST_MEANT: u32 = 3;

/// Writes the hint on a statement that has no form.
pub fn write_form_hint(
    alloc: Global,
    out: &mut String,
    faulty: Faulty<'_>,
    statement: &[u8],
) -> Result<(), AllocError> {
    let text = squeezed(alloc, statement)?;
    let name = without_numbers(alloc, &text)?;
    let names = names_meant(alloc, faulty.fault, &text, &name)?;
    if let Some(nearest) = left_out(&text, &name) {
        return write_nearest(out, "left_out", "nearest", nearest, &names);
    }
    if is_of_capitals(alloc, &text)? {
        let written = without_comments(alloc, statement, " ")?;
        let capitals = capitals_of(alloc, written.as_bytes())?;
        return write_said(out, "capitals", "text", &capitals);
    }
    let blanked = blanked(alloc, statement)?;
    match lost_semicolon(alloc, &blanked)? {
        Some(end) => write_lost(alloc, out, faulty, before(&blanked, end), end),
        None if faulty.fault == DeckFault::UnknownOrder => {
            write_name_hint(out, &text, &name, &names)
        }
        None => write_none(out),
    }
}

/// Writes a hint on a name, with the names that may have been meant.
fn write_nearest(
    out: &mut String,
    name: &str,
    member: &str,
    said: &str,
    names: &[u8],
) -> Result<(), AllocError> {
    write_begin(out, name)?;
    write_words(out, member, said.as_bytes())?;
    if !names.is_empty() {
        write_words(out, "names", names)?;
    }
    write_close(out)
}

/// Writes a hint with one value.
fn write_said(out: &mut String, name: &str, member: &str, said: &[u8]) -> Result<(), AllocError> {
    write_begin(out, name)?;
    write_words(out, member, said)?;
    write_close(out)
}

/// What is said of an order that is left out, which is called so, with a 0 for each number.
fn left_out(text: &[u8], name: &[u8]) -> Option<&'static str> {
    if has(OF_DIRECTOR, text) || has(b"CLOQ0", name) {
        return Some(BELONGS);
    }
    said_of(&LEFT_OUT, name)
}

/// What a table says of a name.
fn said_of(
    rows: &[(&'static str, &'static str, &'static str)],
    name: &[u8],
) -> Option<&'static str> {
    for row in rows {
        let (names, fronts, said) = *row;
        if has(names.as_bytes(), name) || has_front(fronts.as_bytes(), name) {
            return Some(said);
        }
    }
    None
}

/// Whether a name begins with one of these words.
fn has_front(words: &[u8], name: &[u8]) -> bool {
    let mut rest = words;
    for _word in 0..words.len() {
        match cut_word(rest) {
            Some((first, behind)) => {
                if after(name, first).is_some() {
                    return true;
                }
                rest = behind;
            }
            None => return after(name, rest).is_some(),
        }
    }
    false
}

/// Whether a statement with lowercase letters has a form as capitals.
fn is_of_capitals(alloc: Global, text: &[u8]) -> Result<bool, AllocError> {
    let capitals = capitals_of(alloc, text)?;
    if capitals.as_slice() == text {
        Ok(false)
    } else {
        has_form(alloc, &capitals)
    }
}

/// A text as capitals.
fn capitals_of(alloc: Global, text: &[u8]) -> Result<Vec<u8>, AllocError> {
    let mut capitals = Vec::new(alloc);
    for byte in text {
        capitals.push(byte.to_ascii_uppercase())?;
    }
    Ok(capitals)
}

/// Whether a statement of this text has a form, in whatever sequence it comes and whatever stores the deck has.
fn has_form(alloc: Global, text: &[u8]) -> Result<bool, AllocError> {
    let mut deck = Vec::new(alloc);
    deck.extend_from_slice(b"PROGRAM;\n")?;
    deck.extend_from_slice(text)?;
    deck.extend_from_slice(b";\nFINISH;\n")?;
    if deck.len() > TEXT_LIMIT {
        return Ok(true);
    }
    match read_deck(alloc, &deck) {
        Ok(_) => Ok(true),
        Err(DeckError::Memory) => Err(AllocError),
        Err(DeckError::Fault(fault, _)) => Ok(is_of_form(fault)),
    }
}

/// Whether a statement with a fault has a form.
fn is_of_form(fault: DeckFault) -> bool {
    match fault {
        DeckFault::BadByte
        | DeckFault::CommentOpen
        | DeckFault::NoSemicolon
        | DeckFault::UnknownOrder
        | DeckFault::Floating
        | DeckFault::ConstantRange => false,
        _ => true,
    }
}

/// A statement with spaces in place of its comments.
fn blanked(alloc: Global, statement: &[u8]) -> Result<Vec<u8>, AllocError> {
    let mut text = Vec::new(alloc);
    let mut is_comment = false;
    for byte in statement {
        if *byte == b'(' {
            is_comment = true;
        }
        text.push(if is_comment { b' ' } else { *byte })?;
        if *byte == b')' {
            is_comment = false;
        }
    }
    Ok(text)
}

/// Where the first pieces of a text end, of which there are so many at most.
fn ends_of(alloc: Global, text: &[u8], most: usize) -> Result<Vec<u32>, AllocError> {
    let mut ends = Vec::new(alloc);
    let mut is_piece = false;
    for (i, byte) in text.iter().enumerate() {
        let is_gap = *byte == b' ' || *byte == b'\n';
        if is_gap && is_piece {
            ends.push(count_of(i))?;
        }
        if ends.len() >= most {
            return Ok(ends);
        }
        is_piece = !is_gap;
    }
    if is_piece {
        ends.push(count_of(text.len()))?;
    }
    Ok(ends)
}

/// Where a `;` is missing in a statement without comments: what stands before it has a form, and so has what begins behind it.
fn lost_semicolon(alloc: Global, text: &[u8]) -> Result<Option<u32>, AllocError> {
    let ends = ends_of(alloc, text, PIECES)?;
    let mut found = None;
    for (i, end) in ends.iter().enumerate() {
        let is_last = i.saturating_add(1) >= ends.len();
        if !is_last
            && has_form(alloc, before(text, *end))?
            && begins_statement(alloc, from(text, *end))?
        {
            found = Some(*end);
        }
    }
    Ok(found)
}

/// Whether the first pieces of a text have a form.
fn begins_statement(alloc: Global, text: &[u8]) -> Result<bool, AllocError> {
    let ends = ends_of(alloc, text, FEW_PIECES)?;
    for end in ends.iter() {
        if has_form(alloc, before(text, *end))? {
            return Ok(true);
        }
    }
    Ok(false)
}

/// Writes that a `;` is missing behind the front of a statement.
fn write_lost(
    alloc: Global,
    out: &mut String,
    faulty: Faulty<'_>,
    front: &[u8],
    end: u32,
) -> Result<(), AllocError> {
    let written = without_comments(alloc, front, " ")?;
    write_begin(out, "semicolon_lost")?;
    write_place(out, faulty.spot(faulty.place.saturating_add(end)))?;
    write_words(out, "text", written.as_bytes())?;
    write_close(out)
}

/// Writes the hint on a name that no statement has.
fn write_name_hint(
    out: &mut String,
    text: &[u8],
    name: &[u8],
    names: &[u8],
) -> Result<(), AllocError> {
    if let Some(said) = said_of(&ELSEWHERE, name) {
        return write_nearest(out, "written_here", "said", said, names);
    }
    let number = before(text, digits_of(text));
    if !number.is_empty() && after(from(text, digits_of(text)), b":").is_some() {
        return write_said(out, "reference_form", "text", number);
    }
    if names.is_empty() {
        write_none(out)
    } else {
        write_said(out, "meant", "names", names)
    }
}

/// The statements that may have been meant by a name that no statement has.
fn names_meant(
    alloc: Global,
    fault: DeckFault,
    text: &[u8],
    name: &[u8],
) -> Result<Vec<u8>, AllocError> {
    if fault == DeckFault::UnknownOrder {
        meant(alloc, text, name)
    } else {
        Ok(Vec::new(alloc))
    }
}

/// The statements that may have been meant: those with a form that is one change away, with the numbers of the text.
fn meant(alloc: Global, text: &[u8], name: &[u8]) -> Result<Vec<u8>, AllocError> {
    let mut names = Vec::new(alloc);
    let mut found = 0u32;
    let mut rest = FORMS;
    for _form in 0..FORMS.len() {
        let Some((form, behind)) = cut_word(rest) else {
            return Ok(names);
        };
        rest = behind;
        if found < MOST_MEANT && is_near(name, form) && zeros_in(name) == zeros_in(form) {
            let statement = with_numbers(alloc, form, text)?;
            if has_form(alloc, &statement)? {
                names.extend_from_slice(if found > 0 { b" or " } else { b"" })?;
                names.extend_from_slice(&statement)?;
                found = found.saturating_add(1);
            }
        }
    }
    Ok(names)
}

/// How many numbers a name has.
fn zeros_in(name: &[u8]) -> u32 {
    let mut zeros = 0u32;
    for byte in name {
        if *byte == b'0' {
            zeros = zeros.saturating_add(1);
        }
    }
    zeros
}

/// A text with a 0 in place of each number.
fn without_numbers(alloc: Global, text: &[u8]) -> Result<Vec<u8>, AllocError> {
    let mut name = Vec::new(alloc);
    let mut is_number = false;
    for byte in text {
        let is_digit = byte.is_ascii_digit();
        if !is_digit {
            name.push(*byte)?;
        } else if !is_number {
            name.push(b'0')?;
        }
        is_number = is_digit;
    }
    Ok(name)
}

/// A form with the numbers of a text in the places of its zeros.
fn with_numbers(alloc: Global, form: &[u8], text: &[u8]) -> Result<Vec<u8>, AllocError> {
    let mut statement = Vec::new(alloc);
    let mut rest = text;
    for byte in form {
        if *byte == b'0' {
            rest = from_number(rest);
            let digits = digits_of(rest);
            statement.extend_from_slice(before(rest, digits))?;
            rest = from(rest, digits);
        } else {
            statement.push(*byte)?;
        }
    }
    Ok(statement)
}

/// A text from its first number on.
fn from_number(text: &[u8]) -> &[u8] {
    for (i, byte) in text.iter().enumerate() {
        if byte.is_ascii_digit() {
            return &text[i..];
        }
    }
    &[]
}

/// How many digits a text begins with.
pub fn digits_of(text: &[u8]) -> u32 {
    let mut digits = 0u32;
    for byte in text {
        if !byte.is_ascii_digit() {
            return digits;
        }
        digits = digits.saturating_add(1);
    }
    digits
}
