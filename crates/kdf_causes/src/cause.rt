//! A cause of a failure, or of a program's being live still.

use kdf_json::{write_comma, write_text};
use std::alloc::{AllocError, Global};
use std::fmt::Write;

/// A cause while it is told: its members in JSON, and its sentence.
#[derive(Drop)]
pub struct Cause {
    pub members: String,
    pub sentence: String,
}

impl Cause {
    /// A cause of this name.
    pub fn new(alloc: Global, what: &str) -> Result<Cause, AllocError> {
        let mut members = String::new(alloc);
        write!(members, "\"what\":\"{what}\"")?;
        Ok(Cause {
            members,
            sentence: String::new(alloc),
        })
    }

    /// A failure, and the number of the check that the order didn't pass.
    pub fn of_step(alloc: Global, what: &str, step: u8) -> Result<Cause, AllocError> {
        let mut cause = Cause::new(alloc, what)?;
        cause.number("step", step.into())?;
        Ok(cause)
    }

    /// Adds a number.
    pub fn number(&mut self, name: &str, value: u64) -> Result<(), AllocError> {
        write!(self.members, ",\"{name}\":{value}")
    }

    /// Adds a number with its sign.
    pub fn signed(&mut self, name: &str, value: i64) -> Result<(), AllocError> {
        write!(self.members, ",\"{name}\":{value}")
    }

    /// Adds a text.
    pub fn text(&mut self, name: &str, value: &str) -> Result<(), AllocError> {
        write!(self.members, ",\"{name}\":")?;
        write_text(&mut self.members, value.as_bytes())
    }

    /// Adds a truth.
    pub fn truth(&mut self, name: &str, value: bool) -> Result<(), AllocError> {
        write!(self.members, ",\"{name}\":{value}")
    }

    /// Adds two numbers.
    pub fn pair(&mut self, name: &str, first: u32, second: u32) -> Result<(), AllocError> {
        write!(self.members, ",\"{name}\":[{first},{second}]")
    }

    /// Adds to the sentence.
    pub fn say(&mut self, text: &str) -> Result<(), AllocError> {
        self.sentence.push_str(text)
    }
}

/// Writes causes as items of a list, after so many others.
pub fn write_cause(out: &mut String, i: usize, cause: &Cause) -> Result<(), AllocError> {
    write_comma(out, i)?;
    out.push_str("{")?;
    out.push_str(cause.members.as_str())?;
    out.push_str(",\"sentence\":")?;
    write_text(out, cause.sentence.as_str().as_bytes())?;
    out.push_str("}")
}
