//! What of a deck is still to be read.

ghost use Rattle.std.specs.Prelude.{◌≡◌, ◌+◌, ◌<◌, ◌≤◌, ◌^◌, ◌==◌, ◌&&◌, ◌||◌, length, drop, slice_index, true, false, [], ◌∷◌, ◌++◌, MatchOption, IsSome, option_to_list, position};
ghost use Rattle.kdf_usercode.specs.Bytes.{line_end, space, opening, closing};
ghost use Rattle.kdf_usercode.specs.Comments.{closes, kept};

use crate::bytes::ByteAt;

/// The bytes of a deck from one on that stands in no comment.
#[derive(Clone, Copy)]
pub struct Unread<'a> {
    pub rest: &'a [u8],
    /// The offset of the first of them in the deck.
    pub at: u32,
    /// A `)` may still come.
    pub may_close: bool,
    ghost in_range: { at + length rest.now < 2 ^ 32 },
    ghost none_closes: { may_close ≡ false → closes rest.now ≡ false },
}

impl<'a> Unread<'a> {
    ghost use Rattle.kdf_usercode.specs.Unread.{ahead};

    /// All of a deck, of fewer than 2^32 bytes.
    pub fn new(deck: &'a [u8]) -> Unread<'a>
        requires { length deck.now < 2 ^ 32 }
        ensures { ahead result ≡ kept deck.now }
    {
        Unread {
            rest: deck,
            at: 0,
            may_close: true,
        }
    }

    /// The next byte that stays, if there is one.
    pub fn next_kept(&mut self) -> Option<ByteAt>
        ensures kept { MatchOption result (ahead self.old ≡ [])
            (λ b. ahead self.old ≡ b ∷ ahead self.new) }
        ensures shorter { IsSome result → length self.new.rest.now < length self.old.rest.now }
    {
        while !self.rest.is_empty() {
            if let Some(kept) = self.step() {
                return Some(kept);
            }
        }
        None
    }

    /// Goes past a comment, or past a byte, which is given where it stays.
    fn step(&mut self) -> Option<ByteAt>
        requires { 0 < length self.old.rest.now }
        ensures kept { ahead self.old ≡ option_to_list result ++ ahead self.new }
        ensures shorter { length self.new.rest.now < length self.old.rest.now }
    {
        if self.passes_comment() {
            return None;
        }
        let kept = ByteAt {
            at: self.at,
            byte: self.rest[0],
        };
        self.pass(1);
        if is_blank(kept.byte) {
            None
        } else {
            Some(kept)
        }
    }

    /// Goes past a comment, if one stands in front.
    fn passes_comment(&mut self) -> bool
        requires { 0 < length self.old.rest.now }
        ensures passed { result ≡ (slice_index self.old.rest.now 0 == opening
            && closes self.old.rest.now) }
        ensures ahead { ahead self.new ≡ ahead self.old }
        ensures shorter { result ≡ true
            → length self.new.rest.now < length self.old.rest.now }
        ensures rest { result ≡ false → self.new.rest.now ≡ self.old.rest.now }
        ensures at { result ≡ false → self.new.at ≡ self.old.at }
    {
        if self.rest[0] != b'(' || !self.may_close {
            return false;
        }
        match first_closing(self.rest) {
            Some(end) => {
                self.pass(end + 1);
                true
            }
            None => {
                self.may_close = false;
                false
            }
        }
    }

    /// Goes past so many bytes.
    fn pass(&mut self, count: usize)
        requires { count ≤ length self.old.rest.now }
        ensures rest { self.new.rest.now ≡ drop count self.old.rest.now }
        ensures at { self.new.at ≡ self.old.at + count }
    {
        *self = Unread {
            rest: &self.rest[count..],
            at: self.at + count as u32,
            may_close: self.may_close,
        };
    }
}

/// Where the first `)` stands, which ends a comment.
fn first_closing(bytes: &[u8]) -> Option<usize>
    ensures { result ≡ position (λ byte. byte == closing) bytes.now }
{
    for (i, byte) in bytes.iter().enumerate() {
        if *byte == b')' {
            return Some(i);
        }
    }
    None
}

/// Whether the byte is a space or a line end.
fn is_blank(byte: u8) -> bool
    ensures { result ≡ (byte == space || byte == line_end) }
{
    byte == b' ' || byte == b'\n'
}
