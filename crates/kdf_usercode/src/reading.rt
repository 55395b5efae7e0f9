//! A deck that is partly read.

ghost use Rattle.std.specs.Prelude.{◌≡◌, ℕ, ◌<◌, ◌^◌, List, [], ◌∷◌, ◌++◌, length, OnOk, if◌then◌else◌};
ghost use Rattle.kdf_usercode.specs.Faults.{FoundFault, lesser, least, founds};
ghost use Rattle.kdf_usercode.specs.Parsed.{parsed, statements_in};
ghost use Rattle.kdf_usercode.specs.Pieces.{codes_of};
ghost use Rattle.kdf_usercode.specs.Phase.{is_in_place};
ghost use Rattle.kdf_usercode.specs.Forms.{ranges_of, text_faults};
ghost use Rattle.kdf_usercode.specs.Grammar.{bytes_faults, comment_faults, said, at_first, end_faults};
ghost use Rattle.kdf_usercode.specs.Range.{range_faults};
ghost use Rattle.kdf_usercode.specs.Thinned.{thinned, stars_behind};
ghost use Rattle.kdf_usercode.specs.Reading.{ReadsForm, Reads, ReadsAll, Gives, with_ahead};

use crate::bytes::{ByteAt, first_bad};
use crate::fault::{DeckError, DeckFault};
use crate::forms::{Form, form_in, what_of, with_numbers, with_text};
use crate::orders::formless;
use crate::phase::{Phase, is_in_place, phase_with};
use crate::shape::{Parts, numbers_into, shape_into};
use crate::stars::Stars;
use crate::statement::{Deck, Statement};
use kdf_fault::{Found, earlier};
use std::alloc::{AllocError, Global};

/// What was read so far: the first fault, and the statements while there is none.
#[derive(Drop)]
pub struct Reading {
    pub phase: Phase,
    pub best: Option<Found<DeckFault>>,
    pub statements: Vec<Statement>,
    pub stars: Stars,
}

/// Where the statements are held while they are read, each in the room of the one before, so that memory is
/// asked for seldom.
#[derive(Drop)]
pub struct Scratch {
    pub text: Vec<u8>,
    pub parts: Parts,
}

impl Scratch {
    /// Room in which nothing stands.
    pub fn new(alloc: Global) -> Self
        ensures text { result.text.items ≡ [] }
        ensures shape { result.parts.shape.items ≡ [] }
        ensures numbers { result.parts.numbers.items ≡ [] }
    {
        Scratch {
            text: Vec::new(alloc),
            parts: Parts {
                shape: Vec::new(alloc),
                numbers: Vec::new(alloc),
            },
        }
    }
}

/// This fault as well.
fn with(best: Option<Found<DeckFault>>, fault: DeckFault, place: u32) -> Option<Found<DeckFault>>
    ensures { result ≡ lesser best (least (founds place (fault ∷ []))) }
{
    earlier(best, Found { fault, place })
}

/// The fault of the first byte that no deck may have, after those before.
fn with_bytes(best: Option<Found<DeckFault>>, text: &[u8]) -> Option<Found<DeckFault>>
    requires { length text.now < 2 ^ 32 }
    ensures { result ≡ lesser best (least (bytes_faults 0 text.now)) }
{
    match first_bad(text) {
        Some(at) => with(best, DeckFault::BadByte, at as u32),
        None => best,
    }
}

/// The fault of a comment that isn't closed, after those before.
fn with_comment(best: Option<Found<DeckFault>>, kept: ByteAt) -> Option<Found<DeckFault>>
    ensures { result ≡ lesser best (least (comment_faults kept)) }
{
    if kept.byte == b'(' {
        with(best, DeckFault::CommentOpen, kept.at)
    } else {
        best
    }
}

/// The fault at the first of these bytes, if there are any, after those before.
fn with_first(
    best: Option<Found<DeckFault>>,
    fault: DeckFault,
    tail: &[ByteAt],
) -> Option<Found<DeckFault>>
    ensures { result ≡ lesser best (least (at_first fault tail.now)) }
{
    match tail {
        [] => best,
        [first, ..] => with(best, fault, first.at),
    }
}

/// What is wrong at the end, after what was before.
fn with_end(
    phase: Phase,
    best: Option<Found<DeckFault>>,
    tail: &[ByteAt],
    length: u32,
) -> Option<Found<DeckFault>>
    ensures { result ≡ lesser best (least (end_faults phase length tail.now)) }
{
    if phase.is_ended() {
        return with_first(best, DeckFault::AfterFinish, tail);
    }
    let best = with_first(best, DeckFault::NoSemicolon, tail);
    with(best, DeckFault::NoFinish, length)
}

/// The fault of a statement that isn't in its place, after those before.
fn with_heading(
    best: Option<Found<DeckFault>>,
    place: u32,
    phase: Phase,
    form: Form,
) -> Option<Found<DeckFault>>
    ensures { result ≡ lesser best (least (founds place
        (if is_in_place phase form then [] else DeckFault.BadHeading ∷ []))) }
{
    if is_in_place(phase, form) {
        best
    } else {
        with(best, DeckFault::BadHeading, place)
    }
}

/// Puts the bytes into `room`, instead of what was there.
fn bytes_into(piece: &[ByteAt], room: &mut Vec<u8>) -> Result<(), AllocError>
    ensures { OnOk result (room.new.items ≡ codes_of piece.now) }
{
    room.clear();
    for kept in piece {
        room.push(kept.byte)?;
    }
    Ok(())
}

impl Reading {
    /// Keeps a statement of this form without a fault, unless it is a `*` that isn't kept.
    fn keep(
        &mut self,
        place: u32,
        form: Form,
        numbers: &[u64],
        text: &[u8],
    ) -> Result<(), AllocError>
        requires numbers { range_faults (ranges_of form) numbers.now ≡ [] }
        requires text { text_faults form text.now ≡ [] }
        ensures statements { OnOk result (self.new.statements.items ≡ self.old.statements.items
            ++ thinned self.old.stars (said self.old.phase place form numbers.now text.now ∷ [])) }
        ensures stars { OnOk result (self.new.stars
            ≡ stars_behind self.old.stars (said self.old.phase place form numbers.now text.now ∷ [])) }
    {
        let next = self.stars.after(form);
        if self.stars.keeps(form) {
            let what = what_of(self.phase.stage, form, numbers, text);
            self.statements.push(Statement { place, what })?;
        }
        self.stars = next;
        Ok(())
    }

    /// A statement of this form. It is kept where it has no fault and none came before it.
    fn form(
        &mut self,
        place: u32,
        form: Form,
        numbers: &[u64],
        text: &[u8],
    ) -> Result<(), AllocError>
        ensures { OnOk result (ReadsForm self.old self.new place form numbers.now text.now) }
    {
        let best = with_numbers(self.best, place, form, numbers);
        let best = with_text(best, place, form, text);
        let best = with_heading(best, place, self.phase, form);
        let phase = phase_with(self.phase, form);
        if best.is_none() {
            self.keep(place, form, numbers, text)?;
        }
        self.best = best;
        self.phase = phase;
        Ok(())
    }

    /// A statement by its bytes.
    fn statement(&mut self, place: u32, text: &[u8], parts: &mut Parts) -> Result<(), AllocError>
        ensures { OnOk result (Reads self.old self.new (parsed place text.now)) }
    {
        if self.phase.is_ended() {
            self.best = with(self.best, DeckFault::AfterFinish, place);
            return Ok(());
        }
        shape_into(text, &mut parts.shape)?;
        numbers_into(text, &mut parts.numbers)?;
        match form_in(&parts.shape, text) {
            Some(form) => self.form(place, form, &parts.numbers, text),
            None => {
                self.best = with(self.best, formless(&parts.shape), place);
                Ok(())
            }
        }
    }

    /// A piece that a `;` ends.
    fn piece(&mut self, piece: &[ByteAt], scratch: &mut Scratch) -> Result<(), AllocError>
        ensures { OnOk result (ReadsAll self.old self.new (statements_in piece.now)) }
    {
        for (i, k) in piece.iter().enumerate() {
            if k.byte != b'*' {
                bytes_into(&piece[i..], &mut scratch.text)?;
                return self.statement(k.at, &scratch.text, &mut scratch.parts);
            }
            self.statement(k.at, b"*", &mut scratch.parts)?;
        }
        Ok(())
    }

    /// Looks at all bytes of the deck, whether they stay or not.
    pub fn see(&mut self, text: &[u8])
        requires { length text.now < 2 ^ 32 }
        ensures { (piece : List ByteAt) (len : ℕ) (bad : List FoundFault) (ahead : List ByteAt) →
            with_ahead self.new piece len bad ahead
            ≡ with_ahead self.old piece len (bytes_faults 0 text.now ++ bad) ahead }
    {
        self.best = with_bytes(self.best, text);
    }

    /// A byte that stays.
    pub fn take(
        &mut self,
        piece: &mut Vec<ByteAt>,
        scratch: &mut Scratch,
        kept: ByteAt,
    ) -> Result<(), AllocError>
        ensures { OnOk result ((len : ℕ) (bad : List FoundFault) (ahead : List ByteAt) →
            with_ahead self.new piece.new.items len bad ahead
            ≡ with_ahead self.old piece.old.items len bad (kept ∷ ahead)) }
    {
        self.best = with_comment(self.best, kept);
        if kept.byte == b';' {
            self.piece(piece, scratch)?;
            piece.clear();
        } else {
            piece.push(kept)?;
        }
        Ok(())
    }

    /// The end of the deck. `piece` is what stands after the last `;`.
    pub fn finish(self, piece: &[ByteAt], length: u32) -> Result<Deck, DeckError>
        ensures { Gives result length (with_ahead self piece.now length [] []) }
    {
        match with_end(self.phase, self.best, piece, length) {
            None => Ok(Deck {
                statements: self.statements,
                length,
            }),
            Some(found) => Err(DeckError::Fault(found.fault, found.place)),
        }
    }
}
