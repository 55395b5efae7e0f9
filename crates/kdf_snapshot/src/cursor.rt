//! Lines that are read one after the other, with their offsets.
ghost use Rattle.std.specs.Prelude.{◌≡◌, ◌==◌, ◌+◌, ◌<◌, ◌≤◌, ◌^◌, length};
ghost use Rattle.kdf_text.specs.Ahead.{ahead};
ghost use Rattle.kdf_text.specs.Lines.{line};

use kdf_text::Lines;

/// What of a text is still to be read, and where it begins.
#[derive(Clone, Copy)]
pub struct Cursor<'a> {
    pub lines: Lines<'a>,
    /// How many bytes stand before the next line, where each line has its end.
    pub offset: usize,
    ghost in_range: { offset + length lines.rest.now ≤ 2 ^ 32 + lines.number },
}

impl<'a> Cursor<'a> {
    ghost use Rattle.kdf_snapshot.specs.Passed.{Passed};

    /// All lines of a text, the first of which has this number.
    pub fn new(text: &'a [u8], first_line: u32) -> Cursor<'a>
        requires { first_line + length text.now < 2 ^ 32 }
        ensures rest { result.lines.rest.now ≡ text.now }
        ensures number { result.lines.number ≡ first_line }
        ensures offset { result.offset ≡ 0 }
    {
        Cursor {
            lines: Lines {
                rest: text,
                number: first_line,
            },
            offset: 0,
        }
    }

    /// Whether no line is left.
    pub fn is_at_end(&self) -> bool
        ensures { result ≡ (length self.now.lines.rest.now == 0) }
    {
        self.lines.rest.is_empty()
    }

    /// The next line, of those that are left.
    pub fn take_line(&mut self) -> &'a [u8]
        requires { 0 < length self.old.lines.rest.now }
        ensures text { result.now ≡ line (ahead self.old.lines) 1 }
        ensures passed { Passed 1 self.old self.new }
        ensures shorter { length self.new.lines.rest.now < length self.old.lines.rest.now }
    {
        let line = self.lines.take_line();
        self.offset += line.text.len() + 1;
        line.text
    }
}
